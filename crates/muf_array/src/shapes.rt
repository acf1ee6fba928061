// The shapes of the primitives of lists and dictionaries: what each takes, and that its answer takes its place.
ghost use Rattle.std.specs.Prelude.{◌≡◌, ◌∷◌, [], ◌≤◌, Some, None, length, drop, slice_get, IsTrue};
ghost use Rattle.muf_model.specs.Answer.{items_put, refuses};
ghost use Rattle.muf_model.specs.declared.fault.MufFault.TheVariants.{StackFull};
ghost use Rattle.muf_model.specs.inner.View.{view};
ghost use Rattle.muf_model.specs.Needs.{takes_items, anything, a_text, a_key, a_list, a_collection};
ghost use Rattle.muf_model.specs.ArrayRows as row;
ghost use Rattle.muf_model.specs.declared.prims.Primitive.TheVariants.{ArrayGetItem, ArrayAppendItem, ArrayDelItem, ArrayNext, ArrayJoin};
ghost use Rattle.muf_frame.specs.inner.Shown.{Shown, flat};
ghost use Rattle.muf_frame.specs.inner.Answers.{UsedOr, AppliedOr};
ghost use Rattle.muf_array.specs.inner.Shapes.{Spreads, changed, of_held, row_of_held};
ghost use Rattle.muf_array.specs.inner.Taken.{held_read, held_refused, item_read, item_refused, append_read, append_refused};

use crate::changes::{Change, append_fault, appended, change_fault, changed, gone, gone_fault};
use crate::entries::count;
use crate::joining::joined;
use crate::rows;
use crate::tops::{item_at, key_at};
use muf_frame::{Frame, PrimFault};
use muf_model::{MapKey, MufFault, Prim, STACK_MOST, Value};
use prim_text::give;
use std::alloc::Global;

// Whether a primitive puts all entries of a list or dictionary on the stack.
fn spreads(prim: Prim) -> bool
    ensures { IsTrue result → Spreads prim }
{
    matches!(prim, Prim::ArrayKeys | Prim::ArrayVals | Prim::ArrayExplode)
}

// Whether a primitive would put more entries of the list or dictionary on the top there than the stack has room for.
fn overflows(prim: Prim, frame: &Frame, held: &Value) -> bool
    requires { 1 ≤ length frame.now.stack }
    ensures { IsTrue result → items_put 1 (of_held (row_of_held prim) (view held.now)) (drop 1 (flat frame.now).stack) ≡ refuses StackFull }
{
    if !spreads(prim) {
        return false;
    }
    count(held) + frame.len() > STACK_MOST
}

/// The primitives of a list or dictionary alone.
#[tactic(auto, using(crate::proofs::Taking::held_steps))]
pub(crate) fn one_held(alloc: Global, prim: Prim, frame: &mut Frame) -> Result<(), PrimFault>
    ensures { UsedOr prim (takes_items (a_collection ∷ [])) (row.one_held (row_of_held prim)) frame.old frame.new result }
{
    frame.need(1)?;
    match item_at(frame, 0) {
        Some(held) => {
            if overflows(prim, frame, held) {
                return Err(PrimFault::Fault(MufFault::StackFull));
            }
            let made = rows::of_held(alloc, prim, held)?;
            give(frame, 1, made)
        }
        None => Err(PrimFault::Fault(MufFault::BadType)),
    }
}

/// ARRAY_GETITEM.
#[tactic(auto, using(crate::proofs::Taking::held_steps))]
pub(crate) fn item_got(frame: &mut Frame) -> Result<(), PrimFault>
    ensures { UsedOr ArrayGetItem (takes_items (a_key ∷ a_collection ∷ [])) (row.held_and_key row.item_got) frame.old frame.new result }
{
    frame.need(2)?;
    match (key_at(frame, 0)?, item_at(frame, 1)) {
        (Some(key), Some(held)) => {
            let made = rows::item_got(held, &key)?;
            give(frame, 2, made)
        }
        _ => Err(PrimFault::Fault(MufFault::BadType)),
    }
}

/// ARRAY_NEXT.
#[tactic(auto, using(crate::proofs::Taking::held_steps))]
pub(crate) fn next(alloc: Global, frame: &mut Frame) -> Result<(), PrimFault>
    ensures { UsedOr ArrayNext (takes_items (a_key ∷ a_collection ∷ [])) (row.held_and_key row.next_key) frame.old frame.new result }
{
    frame.need(2)?;
    match (key_at(frame, 0)?, item_at(frame, 1)) {
        (Some(key), Some(held)) => {
            let made = rows::next(alloc, held, &key)?;
            give(frame, 2, made)
        }
        _ => Err(PrimFault::Fault(MufFault::BadType)),
    }
}

/// ARRAY_JOIN.
#[tactic(auto, using(crate::proofs::Taking::held_steps))]
pub(crate) fn joins(alloc: Global, frame: &mut Frame) -> Result<(), PrimFault>
    ensures { UsedOr ArrayJoin (takes_items (a_text ∷ a_collection ∷ [])) row.joins frame.old frame.new result }
{
    frame.need(2)?;
    match (frame.text_at(0), item_at(frame, 1)) {
        (Some(between), Some(held)) => {
            let made = joined(alloc, between.as_slice(), held)?;
            give(frame, 2, made)
        }
        _ => Err(PrimFault::Fault(MufFault::BadType)),
    }
}

/// Why the value under a list or dictionary can't come to a key of it.
#[tactic(auto, using(crate::proofs::Taking::fault_steps))]
pub(crate) fn top_fault(change: Change, frame: &Frame, key: &MapKey) -> Option<MufFault>
    ensures { result ≡ item_refused (changed change) key.now (slice_get (flat frame.now).stack 1) (slice_get (flat frame.now).stack 2) }
{
    match (item_at(frame, 1), item_at(frame, 2)) {
        (Some(held), Some(item)) => change_fault(change, item, held, key),
        _ => Some(MufFault::BadType),
    }
}

// The value under a list or dictionary comes to a key of it, where nothing refuses it.
#[tactic(auto, using(crate::proofs::Taking::top_steps))]
fn change_top(
    alloc: Global,
    change: Change,
    frame: &mut Frame,
    key: MapKey,
) -> Result<(), PrimFault>
    requires there { 3 ≤ length frame.old.stack }
    requires fine { item_refused (changed change) key (slice_get (flat frame.old).stack 1) (slice_get (flat frame.old).stack 2) ≡ None }
    ensures { AppliedOr (item_read (changed change) (Some key) (slice_get (flat frame.old).stack 1) (slice_get (flat frame.old).stack 2) (drop 3 (flat frame.old).stack)) frame.old frame.new result }
{
    match (frame.pop_item(), frame.pop_item(), frame.pop_item()) {
        (Some(_), Some(held), Some(item)) => {
            let made = changed(alloc, change, item, held, key)?;
            frame.push_item(made);
            Ok(())
        }
        _ => unreachable!(),
    }
}

/// ARRAY_SETITEM and ARRAY_INSERTITEM.
#[tactic(auto, using(crate::proofs::Taking::held_steps))]
pub(crate) fn change(
    alloc: Global,
    prim: Prim,
    change: Change,
    frame: &mut Frame,
) -> Result<(), PrimFault>
    ensures { UsedOr prim (takes_items (a_key ∷ a_collection ∷ anything ∷ [])) (row.item_held_and_key (changed change)) frame.old frame.new result }
{
    frame.need(3)?;
    let Some(key) = key_at(frame, 0)? else {
        return Err(PrimFault::Fault(MufFault::BadType));
    };
    if let Some(refused) = top_fault(change, frame, &key) {
        return Err(PrimFault::Fault(refused));
    }
    change_top(alloc, change, frame, key)
}

/// Why the value under a list can't come to the end of it.
#[tactic(auto, using(crate::proofs::Taking::fault_steps))]
pub(crate) fn append_top_fault(frame: &Frame) -> Option<MufFault>
    ensures { result ≡ append_refused (slice_get (flat frame.now).stack 0) (slice_get (flat frame.now).stack 1) }
{
    match (item_at(frame, 0), item_at(frame, 1)) {
        (Some(held), Some(item)) => append_fault(held, item),
        _ => Some(MufFault::BadType),
    }
}

// The value under a list comes to the end of it, where nothing refuses it.
#[tactic(auto, using(crate::proofs::Taking::top_steps))]
fn append_top(alloc: Global, frame: &mut Frame) -> Result<(), PrimFault>
    requires there { 2 ≤ length frame.old.stack }
    requires fine { append_refused (slice_get (flat frame.old).stack 0) (slice_get (flat frame.old).stack 1) ≡ None }
    ensures { AppliedOr (append_read (slice_get (flat frame.old).stack 0) (slice_get (flat frame.old).stack 1) (drop 2 (flat frame.old).stack)) frame.old frame.new result }
{
    match (frame.pop_item(), frame.pop_item()) {
        (Some(held), Some(item)) => {
            let made = appended(alloc, held, item)?;
            frame.push_item(made);
            Ok(())
        }
        _ => unreachable!(),
    }
}

/// ARRAY_APPENDITEM.
#[tactic(auto, using(crate::proofs::Taking::held_steps))]
pub(crate) fn append(alloc: Global, frame: &mut Frame) -> Result<(), PrimFault>
    ensures { UsedOr ArrayAppendItem (takes_items (a_list ∷ anything ∷ [])) row.appended frame.old frame.new result }
{
    frame.need(2)?;
    if let Some(refused) = append_top_fault(frame) {
        return Err(PrimFault::Fault(refused));
    }
    append_top(alloc, frame)
}

/// Why nothing can go from the list or dictionary under the top.
#[tactic(auto, using(crate::proofs::Taking::fault_steps))]
pub(crate) fn gone_top_fault(frame: &Frame, key: &MapKey) -> Option<MufFault>
    ensures { result ≡ held_refused row.gone_from key.now (slice_get (flat frame.now).stack 1) }
{
    match item_at(frame, 1) {
        Some(held) => gone_fault(held, key),
        _ => Some(MufFault::BadType),
    }
}

// The value of a key goes from the list or dictionary under the top, where nothing refuses it.
#[tactic(auto, using(crate::proofs::Taking::top_steps))]
fn gone_top(alloc: Global, frame: &mut Frame, key: MapKey) -> Result<(), PrimFault>
    requires there { 2 ≤ length frame.old.stack }
    requires fine { held_refused row.gone_from key (slice_get (flat frame.old).stack 1) ≡ None }
    ensures { AppliedOr (held_read row.gone_from (Some key) (slice_get (flat frame.old).stack 1) (drop 2 (flat frame.old).stack)) frame.old frame.new result }
{
    match (frame.pop_item(), frame.pop_item()) {
        (Some(_), Some(held)) => {
            let made = gone(alloc, held, key)?;
            frame.push_item(made);
            Ok(())
        }
        _ => unreachable!(),
    }
}

/// ARRAY_DELITEM.
#[tactic(auto, using(crate::proofs::Taking::held_steps))]
pub(crate) fn delete(alloc: Global, frame: &mut Frame) -> Result<(), PrimFault>
    ensures { UsedOr ArrayDelItem (takes_items (a_key ∷ a_collection ∷ [])) (row.held_and_key row.gone_from) frame.old frame.new result }
{
    frame.need(2)?;
    let Some(key) = key_at(frame, 0)? else {
        return Err(PrimFault::Fault(MufFault::BadType));
    };
    if let Some(refused) = gone_top_fault(frame, &key) {
        return Err(PrimFault::Fault(refused));
    }
    gone_top(alloc, frame, key)
}
