// The tests that a primitive begins with.
ghost use Rattle.std.specs.Prelude.{◌≡◌, ◌≤◌, IfOk, Some, length};
ghost use Rattle.muf_model.specs.Ladder.{wanted};
ghost use Rattle.muf_model.specs.Needs.{shown_needs, takes_items};
ghost use Rattle.muf_frame.specs.inner.Shown.{Shown, flat, locked_by};
ghost use Rattle.muck_perm.specs.inner.Guards.{world_of};
ghost use Rattle.spec_prims.specs.Shared.{fault_by, first_fault, items_taken};
ghost use Rattle.prim_common.specs.inner.Tests.{Passes, AreFew};

use crate::items::{Asked, reach_level, test_items, test_parts};
use crate::parts::{test_count, test_short, wanted_parts};
use muck_perm::Guard;
use muf_frame::Frame;
use muf_model::{MufFault, Need, Needs, Prim};

// Where the items are counted: how many, the level that is wanted, what they are, which of them must be there, the primitive's own
// rule, and which must be near.
fn test_counted(
    needs: Needs,
    level: u8,
    argued: Option<MufFault>,
    guard: &Guard,
    frame: &Frame,
) -> Result<usize, MufFault>
    requires { AreFew (shown_needs needs) }
    ensures count { IfOk result (λ n. n ≡ length (wanted (shown_needs needs) (flat frame.now).stack)) }
    ensures there { IfOk result (λ n. n ≤ length frame.now.stack) }
    ensures pass { Passes (fault_by (Some (shown_needs needs)) level argued guard.now.actor (locked_by (flat frame.now).marks) (flat frame.now).stack (world_of guard.now)) result }
{
    let parts = wanted_parts(needs, frame);
    let count = test_count(needs, parts, frame)?;
    reach_level(guard, level)?;
    test_parts(Asked::Kind, parts, guard, frame)?;
    test_parts(Asked::There, parts, guard, frame)?;
    if let Some(fault) = argued {
        return Err(fault);
    }
    test_parts(Asked::Near, parts, guard, frame)?;
    Ok(count)
}

// The same where no item counts, as of most primitives: one pass over the needs for each test.
#[inline(always)]
fn test_fixed(
    fixed: &[Need],
    level: u8,
    argued: Option<MufFault>,
    guard: &Guard,
    frame: &Frame,
) -> Result<usize, MufFault>
    requires { length fixed.now ≤ 64 }
    ensures count { IfOk result (λ n. n ≡ length fixed.now) }
    ensures there { IfOk result (λ n. n ≤ length frame.now.stack) }
    ensures pass { Passes (fault_by (takes_items fixed.now) level argued guard.now.actor (locked_by (flat frame.now).marks) (flat frame.now).stack (world_of guard.now)) result }
{
    let count = fixed.len();
    test_short(count, frame)?;
    reach_level(guard, level)?;
    test_items(Asked::Kind, fixed, 0, guard, frame)?;
    test_items(Asked::There, fixed, 0, guard, frame)?;
    if let Some(fault) = argued {
        return Err(fault);
    }
    test_items(Asked::Near, fixed, 0, guard, frame)?;
    Ok(count)
}

/// The tests of [`ready`] for a primitive that needs this on the stack, at this level; for one whose needs depend on what is there.
#[inline(always)]
pub fn ready_needing(
    needs: &Needs,
    level: u8,
    argued: Option<MufFault>,
    guard: &Guard,
    frame: &Frame,
) -> Result<usize, MufFault>
    requires { AreFew (shown_needs needs.now) }
    ensures count { IfOk result (λ n. n ≡ length (wanted (shown_needs needs.now) (flat frame.now).stack)) }
    ensures there { IfOk result (λ n. n ≤ length frame.now.stack) }
    ensures pass { Passes (fault_by (Some (shown_needs needs.now)) level argued guard.now.actor (locked_by (flat frame.now).marks) (flat frame.now).stack (world_of guard.now)) result }
{
    match needs.many {
        Some(_) => test_counted(*needs, level, argued, guard, frame),
        None => test_fixed(needs.fixed, level, argued, guard, frame),
    }
}

/// The tests that a primitive begins with, in their one order: the count of the items, the level, what they are, which of them must
/// be there, the primitive's own rule for its arguments, and which of them must be near. `argued` is what that rule says of the
/// items as they stand; `None` where it has no fault, or the primitive has no such rule. The answer is the fault of the first
/// test that doesn't pass; of a primitive that isn't there yet `NotCompiled`. Where all pass it is how many items the primitive
/// takes, and these are there. Nothing is changed.
pub fn ready(
    prim: Prim,
    argued: Option<MufFault>,
    guard: &Guard,
    frame: &Frame,
) -> Result<usize, MufFault>
    ensures count { IfOk result (λ n. n ≡ items_taken prim (flat frame.now).stack) }
    ensures there { IfOk result (λ n. n ≤ length frame.now.stack) }
    ensures pass { Passes (first_fault prim argued guard.now.actor (locked_by (flat frame.now).marks) (flat frame.now).stack (world_of guard.now)) result }
{
    let row = prim.row();
    match row.needs {
        Some(needs) => ready_needing(needs, row.level, argued, guard, frame),
        None => Err(MufFault::NotCompiled),
    }
}
