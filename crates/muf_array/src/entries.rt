// The entries of a list or dictionary, by their places.
ghost use Rattle.std.specs.Prelude.{◌≡◌, ◌≤◌, ◌<◌, Some, length, map, drop, slice_get, IfOk, IfSome, IfNone, option_map, option_copied};
ghost use Rattle.muf_model.specs.ArrayRows.{entries_in};
ghost use Rattle.muf_model.specs.Entries.{entries_above};
ghost use Rattle.muf_model.specs.inner.View.{view};
ghost use Rattle.muf_array.specs.declared.entries.Part.TheVariants as part;
ghost use Rattle.muf_array.specs.inner.Shapes.{part_of, values_in, is_held, listed, place_in, index_in};

use muck_model::NoMemory;
use muf_model::{MapKey, Pair, Value, ValueList};

/// A part of an entry.
#[derive(Clone, Copy)]
pub(crate) enum Part {
    Key,
    Value,
}

/// Whether a value is a list or a dictionary.
pub(crate) fn is_held(value: &Value) -> bool
    ensures { result ≡ is_held (view value.now) }
{
    matches!(value, Value::Items(_) | Value::Dict(_))
}

/// How many entries a value has.
#[tactic(auto, using(crate::proofs::Reading::entry_steps))]
pub(crate) fn count(held: &Value) -> usize
    ensures value { result ≡ length (entries_in (view held.now)) }
    ensures most { result ≤ 65535 }
{
    match held {
        Value::Items(list) => list.as_slice().len(),
        Value::Dict(dict) => dict.as_slice().len(),
        _ => 0,
    }
}

// The pair at a place.
fn pair_in(pairs: &[Pair], at: usize) -> Option<&Pair>
    ensures value { option_copied result ≡ slice_get pairs.now at }
    ensures none { IfNone result (length pairs.now ≤ at) }
{
    pairs.get(at)
}

// The value at a place; `None` exactly from the count on.
#[tactic(auto, using(crate::proofs::Reading::entry_steps))]
fn value_ref(held: &Value, at: usize) -> Option<&Value>
    ensures { option_map view (option_copied result) ≡ slice_get (values_in (view held.now)) at }
{
    match held {
        Value::Items(list) => list.get(at),
        Value::Dict(dict) => match pair_in(dict.as_slice(), at) {
            Some(pair) => Some(&pair.value),
            None => None,
        },
        _ => None,
    }
}

/// The value at a place, which is there.
pub(crate) fn value_there(held: &Value, at: usize) -> &Value
    requires { at < length (entries_in (view held.now)) }
    ensures { slice_get (values_in (view held.now)) at ≡ Some (view result.now) }
{
    match value_ref(held, at) {
        Some(value) => value,
        None => unreachable!(),
    }
}

// The key at a place, which is there.
#[tactic(auto, using(crate::proofs::Reading::entry_steps))]
fn key_at(held: &Value, at: usize) -> Result<Value, NoMemory>
    requires there { at < length (entries_in (view held.now)) }
    requires small { at < 65536 }
    ensures { IfOk result (λ v. slice_get (map (part_of part.Key) (entries_in (view held.now))) at ≡ Some (view v)) }
{
    match held {
        Value::Items(_) => Ok(Value::Int(at as i32)),
        Value::Dict(dict) => match pair_in(dict.as_slice(), at) {
            Some(pair) => pair.key.to_value(),
            None => unreachable!(),
        },
        _ => unreachable!(),
    }
}

/// A part of the entry at a place, which is there.
#[tactic(auto, using(crate::proofs::Reading::entry_steps))]
pub(crate) fn part_at(held: &Value, part: Part, at: usize) -> Result<Value, NoMemory>
    requires there { at < length (entries_in (view held.now)) }
    requires small { at < 65536 }
    ensures { IfOk result (λ v. slice_get (map (part_of part) (entries_in (view held.now))) at ≡ Some (view v)) }
{
    match part {
        Part::Key => key_at(held, at),
        Part::Value => value_there(held, at).copy(),
    }
}

/// The place of a number in a list, up to the end of it.
pub(crate) fn list_place(list: &ValueList, number: i32) -> Option<usize>
    ensures value { result ≡ place_in number list.now }
    ensures within { IfSome result (λ at. at ≤ length list.now) }
{
    match usize::try_from(number) {
        Ok(at) if at <= list.len() => Some(at),
        _ => None,
    }
}

/// The place of the value that a number is the key of.
pub(crate) fn list_index(list: &ValueList, number: i32) -> Option<usize>
    ensures value { result ≡ index_in number list.now }
    ensures within { IfSome result (λ at. at < length list.now) }
{
    match usize::try_from(number) {
        Ok(at) if at < list.len() => Some(at),
        _ => None,
    }
}

// The place of the first number in a list that is above a key.
#[tactic(auto, using(crate::proofs::Reading::above_steps))]
fn number_above(list: &ValueList, key: &MapKey) -> usize
    ensures { drop result (listed list.now) ≡ entries_above key.now (listed list.now) }
{
    match key {
        MapKey::Number(number) => match usize::try_from(*number) {
            Ok(at) => at + 1,
            Err(_) => 0,
        },
        MapKey::Name(_) => list.len(),
    }
}

/// The place of the first greater key, or one where no entry is.
#[tactic(auto, using(crate::proofs::Reading::entry_steps))]
pub(crate) fn place_above(held: &Value, key: &MapKey) -> usize
    ensures { drop result (entries_in (view held.now)) ≡ entries_above key.now (entries_in (view held.now)) }
{
    match held {
        Value::Items(list) => number_above(list, key),
        Value::Dict(dict) => dict.place_above(key),
        _ => 0,
    }
}
