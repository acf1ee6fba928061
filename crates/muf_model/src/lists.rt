// Lists of values.
ghost use Rattle.std.specs.Prelude.{◌≡◌, ◌≢◌, ◌≤◌, ◌<◌, ◌+◌, ◌++◌, ◌∷◌, [], Err, IfOk, OnOk, OnErr, map, length, slice_get, slice_set, option_map};
ghost use Rattle.std.specs.Option.{option_copied};
ghost use Rattle.std.specs.Arc.{arc_value};
ghost use Rattle.muf_model.specs.declared.size.ValueFault.TheVariants as refused;
ghost use Rattle.muf_model.specs.Datum.{items as whole, data_of};
ghost use Rattle.muf_model.specs.inner.View.{view};
ghost use Rattle.muf_model.specs.Measures.{data_weight, data_nesting};
ghost use Rattle.muf_model.specs.Values.{IsValue, IsSized, HasSize, Makes, Becomes};

use crate::held::{Held, size_with};
use crate::{Size, Value, ValueFault, ValueList};
use muck_model::NoMemory;
use std::alloc::Global;
use std::sync::Arc;

// The same values.
fn copy_values(alloc: Global, values: &[Value]) -> Result<Vec<Value>, NoMemory>
    ensures { IfOk result (λ copies. map view copies.items ≡ map view values.now) }
{
    let mut copies = Vec::with_capacity(alloc, values.len())?;
    let mut at = 0;
    while at < values.len() {
        copies.push(values[at].copy()?)?;
        at += 1;
    }
    Ok(copies)
}

// The value at a place.
#[tactic(auto, using(crate::proofs::Places::list_steps))]
fn value_at(values: &[Value], at: usize) -> Option<&Value>
    ensures { option_map view (option_copied result) ≡ slice_get (map view values.now) at }
{
    values.get(at)
}

// One value more, at the end.
fn push_value(values: &mut Vec<Value>, value: Value) -> Result<(), NoMemory>
    ensures ok { OnOk result (map view values.new.items ≡ map view values.old.items ++ view value ∷ []) }
    ensures err { OnErr result (values.new.items ≡ values.old.items) }
{
    values.push(value)?;
    Ok(())
}

// Another value at a place.
#[tactic(auto, using(crate::proofs::Places::list_steps))]
fn put_value(values: &mut Vec<Value>, at: usize, value: Value)
    requires { at < length values.old.items }
    ensures { map view values.new.items ≡ slice_set (map view values.old.items) at (view value) }
{
    values[at] = value;
}

// The size of these values, where a list of them isn't too heavy and not nested too deep.
pub(crate) fn size_of<H: Held>(values: &[H]) -> Option<Size>
    ensures { HasSize (map H.held values.now) result }
{
    let mut size = Size {
        weight: 0,
        nesting: 0,
    };
    let mut at = 0;
    while at < values.len() {
        size = size.with(values[at].value());
        if !size.fits() {
            return None;
        }
        at += 1;
    }
    Some(size)
}

// The size of the values with one more.
fn size_pushed(values: &[Value], size: Size, value: &Value) -> Size
    requires { IsSized (whole (data_of (map view values.now))) size }
    ensures weight { result.weight ≡ data_weight (data_of (map view values.now ++ view value.now ∷ [])) }
    ensures nesting { result.nesting ≡ data_nesting (data_of (map view values.now ++ view value.now ∷ [])) }
    ensures value { IsValue (view value.now) }
{
    size.with(value)
}

impl ValueList {
    /// The empty list.
    pub fn new(alloc: Global) -> Result<ValueList, NoMemory>
        ensures { IfOk result (λ list. list ≡ []) }
    {
        Ok(ValueList {
            items: Vec::new(alloc),
            size: Size {
                weight: 0,
                nesting: 0,
            },
        })
    }

    /// The list of these values; `None` exactly where it would be heavier than a value may be, or nested deeper.
    pub fn of(items: Vec<Value>) -> Option<ValueList>
        ensures { Makes (λ ds. whole (data_of ds)) (map view items.items) result }
    {
        let size = size_of(&items)?;
        Some(ValueList { items, size })
    }

    /// Its values, in order.
    pub fn as_slice(&self) -> &[Value]
        ensures values { map view result.now ≡ self.now }
        ensures most { length result.now ≤ 65535 }
    {
        &self.items
    }

    /// What its values weigh together, and how deep the deepest of them is.
    pub fn size(&self) -> Size
        ensures sized { IsSized (whole (data_of self.now)) result }
        ensures most { (result.weight ≤ 65535) × (result.nesting ≤ 63) }
    {
        self.size
    }

    /// The count of its values.
    pub fn len(&self) -> usize
        ensures { result ≡ length self.now }
    {
        self.items.len()
    }

    /// The value at a place from 0; `None` exactly from the length on.
    pub fn get(&self, at: usize) -> Option<&Value>
        ensures { option_map view (option_copied result) ≡ slice_get self.now at }
    {
        value_at(&self.items, at)
    }

    /// Puts a value at the end. `TooHeavy` comes exactly where the list would be heavier than a value may be, or nested deeper.
    /// After an error the list is as before, and the value is dropped.
    pub fn push(&mut self, value: Value) -> Result<(), ValueFault>
        ensures { Becomes (λ ds. whole (data_of ds)) (self.old ++ view value ∷ []) self.old self.new result }
    {
        let size = size_pushed(&self.items, self.size, &value);
        if !size.fits() {
            return Err(ValueFault::TooHeavy);
        }
        push_value(&mut self.items, value)?;
        self.size = size;
        Ok(())
    }

    /// Puts a value in place of the one at a place, which is there. `TooHeavy` comes exactly where the list would be heavier than a
    /// value may be, or nested deeper, and then it is as before. It takes no memory.
    pub fn put(&mut self, at: usize, value: Value) -> Result<(), ValueFault>
        requires { at < length self.old }
        ensures list { Becomes (λ ds. whole (data_of ds)) (slice_set self.old at (view value)) self.old self.new result }
        ensures memory { result ≢ Err refused.NoMemory }
    {
        let size = size_with(&self.items, self.size, at, &value);
        if !size.fits() {
            return Err(ValueFault::TooHeavy);
        }
        put_value(&mut self.items, at, value);
        self.size = size;
        Ok(())
    }

    /// A list of the same values, each of which shares what it can with the one here.
    pub fn copy(&self, alloc: Global) -> Result<ValueList, NoMemory>
        ensures { IfOk result (λ list. list ≡ self.now) }
    {
        let items = copy_values(alloc, &self.items)?;
        Ok(ValueList {
            items,
            size: self.size,
        })
    }

    /// The list itself where nobody else shares it, else a copy, for writing. No sharer sees what is written.
    pub fn unshare(shared: Arc<ValueList>, alloc: Global) -> Result<ValueList, NoMemory>
        ensures { IfOk result (λ list. list ≡ arc_value shared) }
    {
        match Arc::try_unwrap(shared) {
            Ok(list) => Ok(list),
            Err(shared) => shared.copy(alloc),
        }
    }
}
