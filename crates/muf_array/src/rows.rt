// What each primitive makes that only reads a list or dictionary.
ghost use Rattle.std.specs.Prelude.{◌≡◌, ◌<◌, ◌∷◌, [], map, drop, length, IfOk, option_map, option_copied};
ghost use Rattle.muf_model.specs.Answer.{makes};
ghost use Rattle.muf_model.specs.ArrayRows as row;
ghost use Rattle.muf_model.specs.ArrayRows.{entries_in};
ghost use Rattle.muf_model.specs.Entries.{value_of_key};
ghost use Rattle.muf_model.specs.inner.View.{view};
ghost use Rattle.muf_model.specs.declared.value.MapKey.TheVariants.{Number};
ghost use Rattle.muf_array.specs.inner.Shapes.{part_of, listed, of_held, at_held, may_have, row_of_held};
ghost use Rattle.prim_text.specs.inner.Made.{Makes, made_of};

use crate::entries::{Part, count, is_held, list_index, part_at, place_above};
use muck_model::NoMemory;
use muf_frame::PrimFault;
use muf_model::{MapKey, MufFault, Prim, Value, ValueList};
use prim_text::{Made, number};
use std::alloc::Global;

// Two items, the first of which comes to the top.
fn two(alloc: Global, top: Value, below: Value) -> Result<Made, NoMemory>
    ensures { IfOk result (λ made. makes (view top ∷ view below ∷ []) ≡ made_of made) }
{
    let mut items = Vec::with_capacity(alloc, 2)?;
    items.push(top)?;
    items.push(below)?;
    Ok(Made::Many(items))
}

// The key at a place and 1, or two 0 where no entry is.
#[tactic(auto, using(crate::proofs::Reading::row_steps))]
fn key_from(alloc: Global, held: &Value, at: usize) -> Result<Made, NoMemory>
    ensures { IfOk result (λ made. row.first_key (drop at (entries_in (view held.now))) ≡ made_of made) }
{
    if at >= count(held) {
        return two(alloc, Value::Int(0), Value::Int(0));
    }
    let key = part_at(held, Part::Key, at)?;
    two(alloc, Value::Int(1), key)
}

// A part of each entry, the last nearest the top, and their count over them.
#[tactic(auto, using(crate::proofs::Reading::row_steps))]
fn parts(alloc: Global, held: &Value, part: Part) -> Result<Made, NoMemory>
    ensures { IfOk result (λ made. row.counted_values (map (part_of part) (entries_in (view held.now))) ≡ made_of made) }
{
    let mut at = count(held);
    let mut items = Vec::with_capacity(alloc, at + 1)?;
    items.push(Value::Int(at as i32))?;
    while at > 0 {
        at -= 1;
        let item = part_at(held, part, at)?;
        items.push(item)?;
    }
    Ok(Made::Many(items))
}

// Each key with its value over it, the last nearest the top, and their count over them.
#[tactic(auto, using(crate::proofs::Reading::row_steps))]
fn exploded(alloc: Global, held: &Value) -> Result<Made, NoMemory>
    ensures { IfOk result (λ made. row.exploded (view held.now) ≡ made_of made) }
{
    let mut at = count(held);
    let mut items = Vec::with_capacity(alloc, 2 * at + 1)?;
    items.push(Value::Int(at as i32))?;
    while at > 0 {
        at -= 1;
        let value = part_at(held, Part::Value, at)?;
        items.push(value)?;
        let key = part_at(held, Part::Key, at)?;
        items.push(key)?;
    }
    Ok(Made::Many(items))
}

// The value of a key in a list.
#[tactic(auto, using(crate::proofs::Reading::got_steps))]
fn list_item<'a>(list: &'a ValueList, at: i32) -> Option<&'a Value>
    ensures { option_map view (option_copied result) ≡ value_of_key (Number at) (listed list.now) }
{
    match list_index(list, at) {
        Some(at) => list.get(at),
        None => None,
    }
}

// A copy of a value, or 0 for none.
fn found(value: Option<&Value>) -> Result<Made, NoMemory>
    ensures { IfOk result (λ made. row.value_found (option_map view (option_copied value.entry)) ≡ made_of made) }
{
    match value {
        Some(value) => Ok(Made::One(value.copy()?)),
        None => Ok(number(0)),
    }
}

/// ARRAY_GETITEM.
#[tactic(auto, using(crate::proofs::Reading::row_steps))]
pub(crate) fn item_got(held: &Value, key: &MapKey) -> Result<Made, PrimFault>
    ensures { Makes (at_held row.item_got (view held.now) key.now) result }
{
    match (held, key) {
        (Value::Items(list), MapKey::Number(at)) => Ok(found(list_item(list, *at))?),
        (Value::Dict(dict), key) => Ok(found(dict.get(key))?),
        _ => Err(PrimFault::Fault(MufFault::BadType)),
    }
}

// Whether a value is a list or dictionary that may have a key.
fn may_have(held: &Value, key: &MapKey) -> bool
    ensures { result ≡ may_have (view held.now) key.now }
{
    match (held, key) {
        (Value::Items(_), MapKey::Number(_)) | (Value::Dict(_), _) => true,
        _ => false,
    }
}

/// ARRAY_NEXT.
#[tactic(auto, using(crate::proofs::Reading::row_steps))]
pub(crate) fn next(alloc: Global, held: &Value, key: &MapKey) -> Result<Made, PrimFault>
    ensures { Makes (at_held row.next_key (view held.now) key.now) result }
{
    if !may_have(held, key) {
        return Err(PrimFault::Fault(MufFault::BadType));
    }
    Ok(key_from(alloc, held, place_above(held, key))?)
}

/// The primitives of a list or dictionary alone.
#[tactic(auto, using(crate::proofs::Reading::row_steps), unfolding(crate::specs::inner::Shapes::row_of_held))]
pub(crate) fn of_held(alloc: Global, prim: Prim, held: &Value) -> Result<Made, PrimFault>
    ensures { Makes (of_held (row_of_held prim) (view held.now)) result }
{
    if !is_held(held) {
        return Err(PrimFault::Fault(MufFault::BadType));
    }
    match prim {
        Prim::ArrayCount => Ok(number(count(held) as i32)),
        Prim::ArrayFirst => Ok(key_from(alloc, held, 0)?),
        Prim::ArrayKeys => Ok(parts(alloc, held, Part::Key)?),
        Prim::ArrayVals => Ok(parts(alloc, held, Part::Value)?),
        _ => Ok(exploded(alloc, held)?),
    }
}
