// Room in lists and dictionaries, and values that come between others or go.
ghost use Rattle.std.specs.Prelude.{◌≡◌, ◌≤◌, ◌<◌, ℕ, map, length, drop, slice_set, IfOk, OnOk, OnErr};
ghost use Rattle.std.specs.List.{insert, remove};
ghost use Rattle.muf_model.specs.Datum.{items as list, dict, data_of, pairs_of};
ghost use Rattle.muf_model.specs.inner.View.{view, pair_view};
ghost use Rattle.muf_model.specs.Measures.{data_weight, data_nesting};
ghost use Rattle.muf_model.specs.Entries.{key_datum, with_entry, without_key, entries_above, gathered, Rising};
ghost use Rattle.muf_model.specs.ArrayRows.{map_key_of};
ghost use Rattle.muf_model.specs.Values.{value_fits, IsValue, IsSized, Makes, Becomes};

use crate::dicts::{entry_place, has_key, put_entry, size_put};
use crate::held::{Held, size_with};
use crate::lists::size_of;
use crate::{MapKey, Pair, Size, Value, ValueFault, ValueList, ValueMap};
use muck_model::NoMemory;
use std::alloc::Global;

// The size of the values without the one at a place.
fn size_without<H: Held>(values: &[H], size: Size, at: usize) -> Size
    requires there { at < length values.now }
    requires weight { size.weight ≡ data_weight (data_of (map H.held values.now)) }
    requires nesting { size.nesting ≡ data_nesting (data_of (map H.held values.now)) }
    requires most { size.weight ≤ 65535 }
    ensures weight { result.weight ≡ data_weight (data_of (remove (map H.held values.now) at)) }
    ensures nesting { result.nesting ≡ data_nesting (data_of (remove (map H.held values.now) at)) }
{
    let flat = size_with(values, size, at, &Value::Int(0));
    Size {
        weight: flat.weight - 1,
        nesting: flat.nesting,
    }
}

// The size of the values with one more, at a place.
fn size_inserted(values: &[Value], size: Size, at: usize, value: &Value) -> Size
    requires { IsSized (list (data_of (map view values.now))) size }
    ensures weight { result.weight ≡ data_weight (data_of (insert (map view values.now) at (view value.now))) }
    ensures nesting { result.nesting ≡ data_nesting (data_of (insert (map view values.now) at (view value.now))) }
    ensures value { IsValue (view value.now) }
{
    size.with(value)
}

// One value more, at a place.
#[tactic(auto, using(muck_laws::proofs::Places::map_insert))]
fn insert_value(values: &mut Vec<Value>, at: usize, value: Value) -> Result<(), NoMemory>
    requires { at ≤ length values.old.items }
    ensures ok { OnOk result (map view values.new.items ≡ insert (map view values.old.items) at (view value)) }
    ensures err { OnErr result (values.new.items ≡ values.old.items) }
{
    values.insert(at, value)?;
    Ok(())
}

// The values without the one at a place.
#[tactic(auto, using(muck_laws::proofs::Places::map_remove))]
fn remove_value(values: &mut Vec<Value>, at: usize)
    requires { at < length values.old.items }
    ensures { map view values.new.items ≡ remove (map view values.old.items) at }
{
    let _gone = values.remove(at);
}

// The pairs without the one at a place.
#[tactic(auto, using(muck_laws::proofs::Places::map_remove))]
fn remove_pair(pairs: &mut Vec<Pair>, at: usize)
    requires { at < length pairs.old.items }
    ensures { map pair_view pairs.new.items ≡ remove (map pair_view pairs.old.items) at }
{
    let _gone = pairs.remove(at);
}

impl ValueList {
    /// Whether it would be a value with one more, wherever that comes.
    pub fn has_room(&self, value: &Value) -> bool
        ensures { (at : ℕ) → result ≡ value_fits (list (data_of (insert self.now at (view value.now)))) }
    {
        self.size().with(value).fits()
    }

    /// Whether it would be a value with another one at a place, which is there.
    pub fn has_room_at(&self, at: usize, value: &Value) -> bool
        requires { at < length self.now }
        ensures { result ≡ value_fits (list (data_of (slice_set self.now at (view value.now)))) }
    {
        size_with(&self.items, self.size, at, value).fits()
    }

    /// Puts a value before the one at a place, or at the end. `TooHeavy` comes exactly where the list would be heavier than a value may
    /// be, or nested deeper. After an error the list is as before, and the value is dropped.
    pub fn insert(&mut self, at: usize, value: Value) -> Result<(), ValueFault>
        requires { at ≤ length self.old }
        ensures { Becomes (λ ds. list (data_of ds)) (insert self.old at (view value)) self.old self.new result }
    {
        let size = size_inserted(&self.items, self.size, at, &value);
        if !size.fits() {
            return Err(ValueFault::TooHeavy);
        }
        insert_value(&mut self.items, at, value)?;
        self.size = size;
        Ok(())
    }

    /// Drops the value at a place, which is there. It takes no memory.
    pub fn remove(&mut self, at: usize)
        requires { at < length self.old }
        ensures { self.new ≡ remove self.old at }
    {
        let size = size_without(&self.items, self.size, at);
        remove_value(&mut self.items, at);
        self.size = size;
    }
}

// The place of the first greater key, or the length.
fn place_above(pairs: &[Pair], key: &MapKey) -> usize
    requires { Rising (map pair_view pairs.now) }
    ensures value { drop result (map pair_view pairs.now) ≡ entries_above key.now (map pair_view pairs.now) }
    ensures most { result ≤ length pairs.now }
{
    let at = entry_place(pairs, key);
    if has_key(pairs, at, key) { at + 1 } else { at }
}

// Pairs as entries, of which those that stand before win.
fn gather(alloc: Global, pairs: Vec<Pair>) -> Result<Vec<Pair>, NoMemory>
    ensures { IfOk result (λ made. map pair_view made.items ≡ gathered (map pair_view pairs.items)) }
{
    let mut left = pairs;
    let mut made = Vec::new(alloc);
    while let Some(pair) = left.pop() {
        let at = entry_place(&made, &pair.key);
        put_entry(&mut made, at, pair.key, pair.value)?;
    }
    Ok(made)
}

impl ValueMap {
    /// The dictionary of these pairs, of which those that stand before win; `None` exactly where it would be heavier than a value may be,
    /// or nested deeper.
    pub fn of(alloc: Global, pairs: Vec<Pair>) -> Result<Option<ValueMap>, NoMemory>
        ensures { IfOk result (λ made. Makes (λ es. dict (pairs_of es)) (gathered (map pair_view pairs.items)) made) }
    {
        let pairs = gather(alloc, pairs)?;
        match size_of(&pairs) {
            Some(size) => Ok(Some(ValueMap { pairs, size })),
            None => Ok(None),
        }
    }

    /// Whether it would be a value if a key had this value.
    pub fn has_room(&self, key: &MapKey, value: &Value) -> bool
        ensures { result ≡ value_fits (dict (pairs_of (with_entry key.now (view value.now) self.now))) }
    {
        let at = entry_place(&self.pairs, key);
        size_put(&self.pairs, self.size, at, key, value).fits()
    }

    /// The place of the first greater key, or the length.
    pub fn place_above(&self, key: &MapKey) -> usize
        ensures value { drop result self.now ≡ entries_above key.now self.now }
        ensures most { result ≤ length self.now }
    {
        place_above(&self.pairs, key)
    }

    /// Drops the value of a key, where it has one. It takes no memory.
    pub fn remove(&mut self, key: &MapKey)
        ensures { self.new ≡ without_key key.now self.old }
    {
        let at = entry_place(&self.pairs, key);
        if has_key(&self.pairs, at, key) {
            let size = size_without(&self.pairs, self.size, at);
            remove_pair(&mut self.pairs, at);
            self.size = size;
        }
    }
}

impl MapKey {
    /// The value that it is.
    pub fn to_value(&self) -> Result<Value, NoMemory>
        ensures { IfOk result (λ v. view v ≡ key_datum self.now) }
    {
        match self {
            MapKey::Number(number) => Ok(Value::Int(*number)),
            MapKey::Name(name) => Ok(Value::Str(name.share()?)),
        }
    }
}

impl Value {
    /// The key that it is; `None` exactly where it is none.
    pub fn to_key(&self) -> Result<Option<MapKey>, NoMemory>
        ensures { IfOk result (λ key. key ≡ map_key_of (view self.now)) }
    {
        match self {
            Value::Int(number) => Ok(Some(MapKey::Number(*number))),
            Value::Str(text) => Ok(Some(MapKey::Name(text.share()?))),
            _ => Ok(None),
        }
    }
}
