// What is asked of the items on a stack, and how many there must be.
ghost use Rattle.std.specs.Prelude.{◌≡◌, ◌≤◌, drop, length, Some, IfOk, OnOk};
ghost use Rattle.std.specs.Option.{option_map};
ghost use Rattle.muf_model.specs.Ladder.{short, miscounted, times, too_short, wanted};
ghost use Rattle.muf_model.specs.Needs.{shown_many, shown_needs};
ghost use Rattle.muf_frame.specs.inner.Answers.{int_at};
ghost use Rattle.muf_frame.specs.inner.Shown.{Shown, flat, locked_by};
ghost use Rattle.prim_common.specs.inner.Tests.{Passes, AreFew, AreShort, all_needs, count_of, uncounted};

use muf_frame::Frame;
use muf_model::{Many, MufFault, Need, Needs};

/// What each item must be, the top first: the fixed ones, those that are counted, and those under them.
#[derive(Clone, Copy)]
pub struct Parts {
    pub fixed: &'static [Need],
    pub each: &'static [Need],
    pub count: usize,
    pub under: &'static [Need],
}

// The count that stands so many items below the top; 0 where none stands there.
#[tactic(auto, using(crate::proofs::Counts::count_steps))]
fn count(at: usize, frame: &Frame) -> usize
    ensures value { result ≡ count_of (int_at at (flat frame.now).stack) }
    ensures most { result ≤ 2147483647 }
{
    match frame.int_at(at) {
        Some(n) => { if n < 0 { 0 } else { n as usize } }
        None => 0,
    }
}

/// What needs ask of the items that stand there.
pub(crate) fn wanted_parts(needs: Needs, frame: &Frame) -> Parts
    requires { AreFew (shown_needs needs) }
    ensures needs { all_needs result ≡ wanted (shown_needs needs) (flat frame.now).stack }
    ensures short { AreShort result }
{
    match needs.many {
        Some(many) => Parts {
            fixed: needs.fixed,
            each: many.each,
            count: count(many.at, frame),
            under: many.under,
        },
        None => Parts {
            fixed: needs.fixed,
            each: &[],
            count: 0,
            under: &[],
        },
    }
}

/// So many items above the locked part.
#[tactic(auto, using(crate::proofs::Counts::short_steps))]
#[inline(always)]
pub(crate) fn test_short(count: usize, frame: &Frame) -> Result<(), MufFault>
    ensures there { OnOk result (count ≤ length frame.now.stack) }
    ensures pass { Passes (short count (locked_by (flat frame.now).marks) (flat frame.now).stack) result }
{
    if count > 0 {
        frame.need(count)?;
    }
    Ok(())
}

// A count, so many items below the top, that isn't negative.
#[tactic(auto, using(crate::proofs::Counts::miscounted_at))]
fn test_sign(at: usize, frame: &Frame) -> Result<(), MufFault>
    ensures { Passes (miscounted (drop at (flat frame.now).stack)) result }
{
    match frame.int_at(at) {
        Some(n) if n < 0 => Err(MufFault::BadArgument),
        _ => Ok(()),
    }
}

/// How many items are counted.
#[tactic(auto, using(crate::proofs::Counts::product_steps))]
pub(crate) fn counted_len(parts: Parts) -> usize
    requires { AreShort parts }
    ensures value { result ≡ length (times parts.count parts.each.now) }
    ensures most { result ≤ 137438953408 }
{
    parts.count * parts.each.len()
}

// All items; answers how many these are.
#[tactic(auto, using(crate::proofs::Counts::length_steps))]
fn test_all(parts: Parts, frame: &Frame) -> Result<usize, MufFault>
    requires { AreShort parts }
    ensures pass { Passes (short (length (all_needs parts)) (locked_by (flat frame.now).marks) (flat frame.now).stack) result }
    ensures count { IfOk result (λ n. n ≡ length (all_needs parts)) }
    ensures there { IfOk result (λ n. n ≤ length frame.now.stack) }
{
    let count = parts.fixed.len() + (counted_len(parts) + parts.under.len());
    test_short(count, frame)?;
    Ok(count)
}

// The items without those that are counted, and then their count.
#[tactic(auto, using(crate::proofs::Counts::length_steps))]
fn test_many(fixed: &[Need], many: Many, frame: &Frame) -> Result<(), MufFault>
    requires fixed { length fixed.now ≤ 64 }
    requires under { length many.under.now ≤ 64 }
    ensures { Passes (uncounted fixed.now (Some (shown_many many)) (locked_by (flat frame.now).marks) (flat frame.now).stack) result }
{
    test_short(fixed.len() + many.under.len(), frame)?;
    test_sign(many.at, frame)
}

fn test_uncounted(needs: Needs, frame: &Frame) -> Result<(), MufFault>
    requires { AreFew (shown_needs needs) }
    ensures { Passes (uncounted needs.fixed.now (option_map shown_many needs.many) (locked_by (flat frame.now).marks) (flat frame.now).stack) result }
{
    match needs.many {
        Some(many) => test_many(needs.fixed, many, frame),
        None => Ok(()),
    }
}

/// Whether there are enough items: first without those that are counted, then with them; answers how many these are.
pub(crate) fn test_count(needs: Needs, parts: Parts, frame: &Frame) -> Result<usize, MufFault>
    requires few { AreFew (shown_needs needs) }
    requires short { AreShort parts }
    requires needs { all_needs parts ≡ wanted (shown_needs needs) (flat frame.now).stack }
    ensures pass { Passes (too_short (shown_needs needs) (locked_by (flat frame.now).marks) (flat frame.now).stack) result }
    ensures count { IfOk result (λ n. n ≡ length (wanted (shown_needs needs) (flat frame.now).stack)) }
    ensures there { IfOk result (λ n. n ≤ length frame.now.stack) }
{
    test_uncounted(needs, frame)?;
    test_all(parts, frame)
}
