// SETPROP, ADDPROP and REMOVE_PROP.
ghost use Rattle.std.specs.Prelude.{◌≡◌, IfOk, take};
ghost use Rattle.std.specs.Option.{option_map};
ghost use Rattle.muf_frame.specs.inner.Shown.{Shown, flat};
ghost use Rattle.muck_perm.specs.inner.Guards.{world_of};
ghost use Rattle.spec_prims.specs.PropRows.{property_added, property_put, property_put_at, removed, text_or};
ghost use Rattle.prim_common.specs.inner.Applied.{Makes};
ghost use Rattle.prim_prop.specs.inner.Asked.{IsWritten, added_by, stored_by};

use crate::asked::{named, path_of};
use muck_model::{Dbref, NoMemory};
use muck_perm::{Guard, verdict};
use muck_prop::PropValue;
use muf_frame::{Frame, PrimFault};
use muf_model::{MufFault, Text};
use prim_common::Made;
use spec_live::DbFault;
use spec_rights::Act;
use std::alloc::Global;

// Nothing is given where a writer has answered. What isn't there doesn't change.
fn written(answer: Result<(), DbFault>) -> Result<Made, PrimFault>
    ensures { IsWritten answer result }
{
    match answer {
        Err(DbFault::NoMemory) => Err(PrimFault::NoMemory),
        _ => Ok(Made::Nothing),
    }
}

// A value is stored at the path that a text writes, by leave.
fn put_at(
    guard: &mut Guard,
    object: Dbref,
    text: &Text,
    value: PropValue,
) -> Result<Made, PrimFault>
    ensures { Makes (property_put_at guard.old.actor text.now object.0 value (world_of guard.old)) guard.old guard.new result }
{
    let path = path_of(guard.alloc(), text)?;
    let act = Act::Write {
        object,
        path: path.copy(guard.alloc())?,
    };
    match verdict(guard.db(), &guard.actor(), &act) {
        Ok(pass) => written(guard.store(pass, object, path, value)),
        Err(denial) => Err(PrimFault::Fault(MufFault::Denied(denial.rule))),
    }
}

// What the top stores: an integer or a text.
#[tactic(auto, using(crate::proofs::Taken::stored_steps))]
fn stored_by(alloc: Global, frame: &Frame) -> Result<Option<PropValue>, NoMemory>
    ensures { IfOk result (λ value. value ≡ stored_by (flat frame.now).stack) }
{
    if let Some(number) = frame.int_at(0) {
        return Ok(Some(PropValue::Number(number)));
    }
    match frame.text_at(0) {
        Some(text) => Ok(Some(PropValue::Text(text.as_line().copy(alloc)?))),
        None => Ok(None),
    }
}

/// SETPROP.
pub(crate) fn put(guard: &mut Guard, frame: &Frame) -> Result<Made, PrimFault>
    ensures { Makes (property_put guard.old.actor (take 3 (flat frame.now).stack) (world_of guard.old)) guard.old guard.new result }
{
    let Some(value) = stored_by(guard.alloc(), frame)? else {
        return Err(PrimFault::Fault(MufFault::BadType));
    };
    let Some((object, text)) = named(frame, 1) else {
        return Err(PrimFault::Fault(MufFault::BadType));
    };
    put_at(guard, object, text, value)
}

/// An integer, and a text under it.
pub(crate) fn added_by(frame: &Frame) -> Option<(i32, &Text)>
    ensures { option_map (λ p. (p.0, p.1.now)) result ≡ added_by (flat frame.now).stack }
{
    let number = frame.int_at(0)?;
    let text = frame.text_at(1)?;
    Some((number, text))
}

// The text where it isn't empty, and else the integer.
fn text_or(alloc: Global, text: &Text, number: i32) -> Result<PropValue, NoMemory>
    ensures { IfOk result (λ value. value ≡ text_or text.now number) }
{
    if text.as_slice().is_empty() {
        return Ok(PropValue::Number(number));
    }
    Ok(PropValue::Text(text.as_line().copy(alloc)?))
}

/// ADDPROP.
pub(crate) fn add(guard: &mut Guard, frame: &Frame) -> Result<Made, PrimFault>
    ensures { Makes (property_added guard.old.actor (take 4 (flat frame.now).stack) (world_of guard.old)) guard.old guard.new result }
{
    let Some((number, value)) = added_by(frame) else {
        return Err(PrimFault::Fault(MufFault::BadType));
    };
    let Some((object, text)) = named(frame, 2) else {
        return Err(PrimFault::Fault(MufFault::BadType));
    };
    let value = text_or(guard.alloc(), value, number)?;
    put_at(guard, object, text, value)
}

/// REMOVE_PROP.
pub(crate) fn remove(guard: &mut Guard, frame: &Frame) -> Result<Made, PrimFault>
    ensures { Makes (removed guard.old.actor (take 2 (flat frame.now).stack) (world_of guard.old)) guard.old guard.new result }
{
    let Some((object, text)) = named(frame, 0) else {
        return Err(PrimFault::Fault(MufFault::BadType));
    };
    let path = path_of(guard.alloc(), text)?;
    let act = Act::Write {
        object,
        path: path.copy(guard.alloc())?,
    };
    match verdict(guard.db(), &guard.actor(), &act) {
        Ok(pass) => written(guard.unstore(pass, object, &path)),
        Err(denial) => Err(PrimFault::Fault(MufFault::Denied(denial.rule))),
    }
}
