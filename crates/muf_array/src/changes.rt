// Lists and dictionaries that are changed, in place where nobody shares them.
ghost use Rattle.std.specs.Prelude.{◌≡◌, ◌≤◌, ◌<◌, ◌++◌, ◌∷◌, [], true, None, length, IfOk, OnOk};
ghost use Rattle.std.specs.Arc.{arc_value};
ghost use Rattle.muf_model.specs.Answer.{makes};
ghost use Rattle.muf_model.specs.ArrayRows.{appended_to, gone_from};
ghost use Rattle.muf_model.specs.Datum.{items, dict as dictionary, data_of, pairs_of};
ghost use Rattle.muf_model.specs.Entries.{with_entry};
ghost use Rattle.muf_model.specs.inner.View.{view};
ghost use Rattle.muf_model.specs.Values.{value_fits};
ghost use Rattle.muf_model.specs.declared.value.MapKey.TheVariants.{Number};
ghost use Rattle.muf_array.specs.inner.Shapes.{at_held, changed, placed_in, fault_of, refusal};

use crate::entries::{list_index, list_place};
use muck_model::NoMemory;
use muf_model::{MapKey, MufFault, Value, ValueFault, ValueList, ValueMap};
use std::alloc::Global;
use std::sync::Arc;

/// How a value comes to a place: in place of what is there, or before it.
#[derive(Clone, Copy)]
pub(crate) enum Change {
    Set,
    Insert,
}

// The fault of what would be too heavy or nested too deep.
fn weighed(fits: bool) -> Option<MufFault>
    ensures { result ≡ fault_of fits }
{
    if fits { None } else { Some(MufFault::TooHeavy) }
}

// Whether a value may come to a place of a list.
#[tactic(auto, using(crate::proofs::Changing::place_steps))]
fn has_room(change: Change, item: &Value, list: &ValueList, at: usize) -> bool
    requires { at ≤ length list.now }
    ensures { result ≡ value_fits (items (data_of (placed_in change at (view item.now) list.now))) }
{
    match change {
        Change::Set => {
            if at < list.len() {
                list.has_room_at(at, item)
            } else {
                list.has_room(item)
            }
        }
        Change::Insert => list.has_room(item),
    }
}

// Why a value can't come to a number of a list.
#[tactic(auto, using(crate::proofs::Changing::change_steps))]
fn list_fault(change: Change, item: &Value, list: &ValueList, number: i32) -> Option<MufFault>
    ensures { result ≡ refusal (changed change (view item.now) (items (data_of list.now)) (Number number)) }
{
    match list_place(list, number) {
        Some(at) => weighed(has_room(change, item, list, at)),
        None => Some(MufFault::BadArgument),
    }
}

/// Why a value can't come to a key of a list or dictionary.
#[tactic(auto, using(crate::proofs::Changing::change_steps))]
pub(crate) fn change_fault(
    change: Change,
    item: &Value,
    held: &Value,
    key: &MapKey,
) -> Option<MufFault>
    ensures { result ≡ refusal (at_held (changed change (view item.now)) (view held.now) key.now) }
{
    match (held, key) {
        (Value::Items(list), MapKey::Number(at)) => list_fault(change, item, list, *at),
        (Value::Dict(dict), key) => weighed(dict.has_room(key, item)),
        _ => Some(MufFault::BadType),
    }
}

// A value comes to a place of a list, where it fits.
#[tactic(auto, using(crate::proofs::Changing::place_steps))]
fn change_list(change: Change, list: &mut ValueList, at: usize, item: Value) -> Result<(), NoMemory>
    requires within { at ≤ length list.old }
    requires fits { value_fits (items (data_of (placed_in change at (view item) list.old))) ≡ true }
    ensures { OnOk result (list.new ≡ placed_in change at (view item) list.old) }
{
    let changed = if at < list.len() && matches!(change, Change::Set) {
        list.put(at, item)
    } else {
        list.insert(at, item)
    };
    match changed {
        Ok(()) => Ok(()),
        Err(ValueFault::NoMemory) => Err(NoMemory),
        Err(ValueFault::TooHeavy) => unreachable!(),
    }
}

// A key of a dictionary gets a value, where that fits.
fn change_dict(dict: &mut ValueMap, key: MapKey, item: Value) -> Result<(), NoMemory>
    requires { value_fits (dictionary (pairs_of (with_entry key (view item) dict.old))) ≡ true }
    ensures { OnOk result (dict.new ≡ with_entry key (view item) dict.old) }
{
    match dict.put(key, item) {
        Ok(()) => Ok(()),
        Err(ValueFault::NoMemory) => Err(NoMemory),
        Err(ValueFault::TooHeavy) => unreachable!(),
    }
}

/// A list that is shared by nobody yet, as a value.
pub(crate) fn list_value(alloc: Global, list: ValueList) -> Result<Value, NoMemory>
    ensures { IfOk result (λ v. view v ≡ items (data_of list)) }
{
    Ok(Value::Items(Arc::new(alloc, list)?))
}

/// A dictionary that is shared by nobody yet, as a value.
pub(crate) fn dict_value(alloc: Global, map: ValueMap) -> Result<Value, NoMemory>
    ensures { IfOk result (λ v. view v ≡ dictionary (pairs_of map)) }
{
    Ok(Value::Dict(Arc::new(alloc, map)?))
}

/// A value comes to a key of a list or dictionary, where nothing refuses it.
#[tactic(auto, using(crate::proofs::Changing::change_steps))]
pub(crate) fn changed(
    alloc: Global,
    change: Change,
    item: Value,
    held: Value,
    key: MapKey,
) -> Result<Value, NoMemory>
    requires { refusal (at_held (changed change (view item)) (view held) key) ≡ None }
    ensures { IfOk result (λ v. at_held (changed change (view item)) (view held) key ≡ makes (view v ∷ [])) }
{
    match (held, key) {
        (Value::Items(list), MapKey::Number(number)) => {
            let mut list = ValueList::unshare(list, alloc)?;
            match list_place(&list, number) {
                Some(at) => change_list(change, &mut list, at, item)?,
                None => unreachable!(),
            }
            list_value(alloc, list)
        }
        (Value::Dict(dict), key) => {
            let mut dict = ValueMap::unshare(dict, alloc)?;
            change_dict(&mut dict, key, item)?;
            dict_value(alloc, dict)
        }
        _ => unreachable!(),
    }
}

/// Why a value can't come to the end of a list.
pub(crate) fn append_fault(held: &Value, item: &Value) -> Option<MufFault>
    ensures { result ≡ refusal (appended_to (view held.now) (view item.now)) }
{
    match held {
        Value::Items(list) => weighed(list.has_room(item)),
        _ => Some(MufFault::BadType),
    }
}

/// A value comes to the end of a list, where nothing refuses it.
#[tactic(auto, using(crate::proofs::Changing::change_steps))]
pub(crate) fn appended(alloc: Global, held: Value, item: Value) -> Result<Value, NoMemory>
    requires { refusal (appended_to (view held) (view item)) ≡ None }
    ensures { IfOk result (λ v. appended_to (view held) (view item) ≡ makes (view v ∷ [])) }
{
    match held {
        Value::Items(list) => {
            let mut list = ValueList::unshare(list, alloc)?;
            let end = list.len();
            change_list(Change::Insert, &mut list, end, item)?;
            list_value(alloc, list)
        }
        _ => unreachable!(),
    }
}

/// Why nothing can go from a list or dictionary.
pub(crate) fn gone_fault(held: &Value, key: &MapKey) -> Option<MufFault>
    ensures { result ≡ refusal (at_held gone_from (view held.now) key.now) }
{
    match (held, key) {
        (Value::Items(_), MapKey::Number(_)) | (Value::Dict(_), _) => None,
        _ => Some(MufFault::BadType),
    }
}

// The value of a number goes from a list, where one is there.
#[tactic(auto, using(crate::proofs::Changing::gone_steps))]
fn gone_value(alloc: Global, list: Arc<ValueList>, number: i32) -> Result<Value, NoMemory>
    ensures { IfOk result (λ v. gone_from (items (data_of (arc_value list))) (Number number) ≡ makes (view v ∷ [])) }
{
    match list_index(&list, number) {
        Some(at) => {
            let mut list = ValueList::unshare(list, alloc)?;
            list.remove(at);
            list_value(alloc, list)
        }
        None => Ok(Value::Items(list)),
    }
}

/// The value of a key goes from a list or dictionary, where nothing refuses it.
#[tactic(auto, using(crate::proofs::Changing::gone_steps))]
pub(crate) fn gone(alloc: Global, held: Value, key: MapKey) -> Result<Value, NoMemory>
    requires { refusal (at_held gone_from (view held) key) ≡ None }
    ensures { IfOk result (λ v. at_held gone_from (view held) key ≡ makes (view v ∷ [])) }
{
    match (held, key) {
        (Value::Items(list), MapKey::Number(at)) => gone_value(alloc, list, at),
        (Value::Dict(dict), key) => {
            let mut dict = ValueMap::unshare(dict, alloc)?;
            dict.remove(&key);
            dict_value(alloc, dict)
        }
        _ => unreachable!(),
    }
}
