// Lists and dictionaries that are made of counted items.
ghost use Rattle.std.specs.Prelude.{ℕ, List, ◌≡◌, ◌∷◌, [], ◌≤◌, ◌<◌, ◌+◌, ◌*◌, length, map, take, drop, reverse, IfOk, IfErr, option_map};
ghost use Rattle.muf_model.specs.Answer.{Answer, refuses, needing};
ghost use Rattle.muf_model.specs.Needs.{counts, anything, an_int, a_key};
ghost use Rattle.muf_model.specs.ArrayRows as row;
ghost use Rattle.muf_model.specs.Datum.{Datum};
ghost use Rattle.muf_model.specs.inner.View.{view, pair_view};
ghost use Rattle.muf_model.specs.declared.prims.Primitive.TheVariants.{ArrayMake, ArrayMakeDict};
ghost use Rattle.muf_frame.specs.inner.Shown.{Shown, flat, locked_by};
ghost use Rattle.muf_frame.specs.inner.Answers.{UsedOr, AppliedOr, int_at};
ghost use Rattle.muf_array.specs.inner.Shapes.{pairs_in};
ghost use Rattle.muf_array.specs.inner.Taken.{list_read, dict_read, by_top};

use crate::changes::{dict_value, list_value};
use crate::tops::{copy_at, key_at};
use muck_model::NoMemory;
use muf_frame::{Frame, PrimFault};
use muf_model::{MufFault, Pair, Value, ValueList, ValueMap};
use std::alloc::Global;

// The count on the top, where so many items for each that it counts stand below it.
#[tactic(auto, using(crate::proofs::Counting::count_steps))]
fn count(frame: &Frame, each: usize) -> Result<usize, MufFault>
    requires few { each ≤ 2 }
    ensures ok { IfOk result (λ n. (f : ℕ → List Datum → Answer) → needing 1 (locked_by (flat frame.now).marks) (flat frame.now).stack (by_top each f (locked_by (flat frame.now).marks) (flat frame.now).stack (int_at 0 (flat frame.now).stack)) ≡ f n (flat frame.now).stack) }
    ensures there { IfOk result (λ n. each * n + 1 ≤ length frame.now.stack) }
    ensures err { IfErr result (λ e. (f : ℕ → List Datum → Answer) → needing 1 (locked_by (flat frame.now).marks) (flat frame.now).stack (by_top each f (locked_by (flat frame.now).marks) (flat frame.now).stack (int_at 0 (flat frame.now).stack)) ≡ refuses e) }
{
    frame.need(1)?;
    match frame.int_at(0) {
        Some(n) => {
            if n < 0 {
                return Err(MufFault::BadArgument);
            }
            let n = n as usize;
            frame.need(each * n + 1)?;
            Ok(n)
        }
        None => Err(MufFault::BadType),
    }
}

// Copies of so many items under the top, the deepest first.
#[tactic(auto, using(crate::proofs::Counting::copy_steps))]
fn copies(alloc: Global, frame: &Frame, n: usize) -> Result<Vec<Value>, NoMemory>
    requires { n + 1 ≤ length frame.now.stack }
    ensures { IfOk result (λ items. map view items.items ≡ reverse (take n (drop 1 (flat frame.now).stack))) }
{
    let mut items = Vec::with_capacity(alloc, n)?;
    let mut at = n;
    while at > 0 {
        let item = copy_at(frame, at)?;
        items.push(item)?;
        at -= 1;
    }
    Ok(items)
}

// So many items under the top become a list.
#[tactic(auto, using(crate::proofs::Counting::made_steps))]
fn make_list(alloc: Global, frame: &mut Frame, n: usize) -> Result<(), PrimFault>
    requires { n + 1 ≤ length frame.old.stack }
    ensures { AppliedOr (list_read n (flat frame.old).stack) frame.old frame.new result }
{
    let items = copies(alloc, frame, n)?;
    match ValueList::of(items) {
        Some(list) => {
            let list = list_value(alloc, list)?;
            Ok(frame.give(n + 1, list)?)
        }
        None => Err(PrimFault::Fault(MufFault::TooHeavy)),
    }
}

/// ARRAY_MAKE.
pub(crate) fn list(alloc: Global, frame: &mut Frame) -> Result<(), PrimFault>
    ensures { UsedOr ArrayMake (counts (an_int ∷ []) (anything ∷ []) []) row.list_made frame.old frame.new result }
{
    match count(frame, 1) {
        Ok(n) => make_list(alloc, frame, n),
        Err(refused) => Err(PrimFault::Fault(refused)),
    }
}

// So many keys with their values under the top, the topmost first; nothing where one of them is no key.
#[tactic(auto, using(crate::proofs::Counting::pair_steps))]
fn pairs(alloc: Global, frame: &Frame, n: usize) -> Result<Option<Vec<Pair>>, NoMemory>
    requires { n + n + 1 ≤ length frame.now.stack }
    ensures { IfOk result (λ made. option_map (λ ps. map pair_view ps.items) made ≡ pairs_in n (drop 1 (flat frame.now).stack)) }
{
    let mut made = Vec::with_capacity(alloc, n)?;
    let mut at = 0;
    while at < n {
        let Some(key) = key_at(frame, at + at + 2)? else {
            return Ok(None);
        };
        let value = copy_at(frame, at + at + 1)?;
        made.push(Pair { key, value })?;
        at += 1;
    }
    Ok(Some(made))
}

// So many keys with their values under the top become a dictionary.
#[tactic(auto, using(crate::proofs::Counting::made_steps))]
fn make_dictionary(alloc: Global, frame: &mut Frame, n: usize) -> Result<(), PrimFault>
    requires { n + n + 1 ≤ length frame.old.stack }
    ensures { AppliedOr (dict_read n (flat frame.old).stack) frame.old frame.new result }
{
    let Some(pairs) = pairs(alloc, frame, n)? else {
        return Err(PrimFault::Fault(MufFault::BadType));
    };
    let kept = frame.len() - 1 - n - n;
    match ValueMap::of(alloc, pairs)? {
        Some(dict) => {
            let dict = dict_value(alloc, dict)?;
            Ok(frame.give(frame.len() - kept, dict)?)
        }
        None => Err(PrimFault::Fault(MufFault::TooHeavy)),
    }
}

/// ARRAY_MAKE_DICT.
pub(crate) fn dictionary(alloc: Global, frame: &mut Frame) -> Result<(), PrimFault>
    ensures { UsedOr ArrayMakeDict (counts (an_int ∷ []) (anything ∷ a_key ∷ []) []) row.dict_made frame.old frame.new result }
{
    match count(frame, 2) {
        Ok(n) => make_dictionary(alloc, frame, n),
        Err(refused) => Err(PrimFault::Fault(refused)),
    }
}
