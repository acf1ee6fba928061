// The size of values, where one is put in place of another.
ghost use Rattle.std.specs.Prelude.{◌≡◌, ◌≤◌, ◌<◌, map, length, slice_set, get_or};
ghost use Rattle.muf_model.specs.Datum.{Datum, data_of};
ghost use Rattle.muf_model.specs.inner.View.{view, value_view};
ghost use Rattle.muf_model.specs.Measures.{data_weight, data_nesting};
ghost use Rattle.muf_model.specs.Values.{IsValue};

use crate::size::deeper;
use crate::{Pair, Size, Value};

// What holds a value: a value of a list, or a pair of a dictionary.
pub(crate) trait Held {
    ghost held: { Self → Datum };

    // The value.
    fn value(&self) -> &Value
        ensures { view result.now ≡ held self.now };
}

impl Held for Value {
    ghost held = { view };

    fn value(&self) -> &Value {
        self
    }
}

impl Held for Pair {
    ghost held = { value_view };

    fn value(&self) -> &Value {
        &self.value
    }
}

// One of the values, with this one at a place.
fn one_of<'a, H: Held>(values: &'a [H], at: usize, value: &'a Value, i: usize) -> &'a Value
    requires { i < length values.now }
    ensures { view result.now ≡ get_or (slice_set (map H.held values.now) at (view value.now)) i (view result.now) }
{
    if i == at { value } else { values[i].value() }
}

// How deep the deepest of the values is, with this one at a place.
fn nesting_with<H: Held>(values: &[H], at: usize, value: &Value) -> usize
    ensures { result ≡ data_nesting (data_of (slice_set (map H.held values.now) at (view value.now))) }
{
    let mut deepest = 0;
    let mut i = 0;
    while i < values.len() {
        deepest = deeper(deepest, one_of(values, at, value, i).nesting());
        i += 1;
    }
    deepest
}

// The same, where it was known without this one: all are gone over only where the deepest may be the one that was there.
fn deepest_with<H: Held>(values: &[H], deepest: usize, at: usize, value: &Value) -> usize
    requires there { at < length values.now }
    requires known { deepest ≡ data_nesting (data_of (map H.held values.now)) }
    ensures { result ≡ data_nesting (data_of (slice_set (map H.held values.now) at (view value.now))) }
{
    let nesting = value.nesting();
    if deepest <= nesting {
        return nesting;
    }
    let was = values[at].value();
    if was.nesting() < deepest {
        return deepest;
    }
    nesting_with(values, at, value)
}

// The size of the values with this one at a place.
pub(crate) fn size_with<H: Held>(values: &[H], size: Size, at: usize, value: &Value) -> Size
    requires there { at < length values.now }
    requires weight { size.weight ≡ data_weight (data_of (map H.held values.now)) }
    requires nesting { size.nesting ≡ data_nesting (data_of (map H.held values.now)) }
    requires most { size.weight ≤ 65535 }
    ensures weight { result.weight ≡ data_weight (data_of (slice_set (map H.held values.now) at (view value.now))) }
    ensures nesting { result.nesting ≡ data_nesting (data_of (slice_set (map H.held values.now) at (view value.now))) }
    ensures value { IsValue (view value.now) }
{
    let was = values[at].value();
    Size {
        weight: size.weight - was.weight() + value.weight(),
        nesting: deepest_with(values, size.nesting, at, value),
    }
}
