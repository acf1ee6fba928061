// Weight and nesting of values.
ghost use Rattle.std.specs.Prelude.{◌≡◌, ◌≤◌, ◌+◌, max};
ghost use Rattle.muf_model.specs.inner.View.{view};
ghost use Rattle.muf_model.specs.Measures.{weight, nesting};
ghost use Rattle.muf_model.specs.Values.{IsValue, size_fits};

use crate::{NESTING_MOST, Value, WEIGHT_MOST};
use muck_model::NoMemory;

/// What values weigh together, and how deep the deepest of them is.
#[derive(Clone, Copy, PartialEq, Eq, Debug)]
pub struct Size {
    pub weight: usize,
    pub nesting: usize,
}

/// Why a list or dictionary can't be changed.
#[derive(Clone, Copy, PartialEq, Eq, Debug)]
pub enum ValueFault {
    /// It would be heavier than a value may be, or nested deeper.
    TooHeavy,
    /// Memory was wanted.
    NoMemory,
}

impl From<NoMemory> for ValueFault {
    ghost use Rattle.std.specs.Prelude.{◌≡◌};
    ghost use Rattle.muf_model.specs.declared.size.ValueFault.TheVariants as refused;

    ghost from_gives = { λ _ e. e ≡ refused.NoMemory };

    fn from(_: NoMemory) -> Self {
        ValueFault::NoMemory
    }
}

// The deeper of two.
pub(crate) fn deeper(a: usize, b: usize) -> usize
    ensures { result ≡ max a b }
{
    a.max(b)
}

impl Size {
    // With one value more.
    pub(crate) fn with(&self, value: &Value) -> Size
        requires { self.now.weight ≤ 65536 }
        ensures weight { result.weight ≡ self.now.weight + weight (view value.now) }
        ensures nesting { result.nesting ≡ max self.now.nesting (nesting (view value.now)) }
        ensures value { IsValue (view value.now) }
    {
        Size {
            weight: self.weight + value.weight(),
            nesting: deeper(self.nesting, value.nesting()),
        }
    }

    // Whether a list or dictionary of these values is a value.
    pub(crate) fn fits(&self) -> bool
        ensures { result ≡ size_fits self.now }
    {
        self.weight < WEIGHT_MOST && self.nesting < NESTING_MOST
    }
}

impl Value {
    /// Its weight: 1, and for a list or dictionary also the weights of its values. It is kept, not counted.
    pub fn weight(&self) -> usize
        ensures weight { result ≡ weight (view self.now) }
        ensures most { result ≤ 65536 }
        ensures value { IsValue (view self.now) }
    {
        match self {
            Value::Items(list) => 1 + list.size().weight,
            Value::Dict(pairs) => 1 + pairs.size().weight,
            _ => 1,
        }
    }

    /// How deep lists and dictionaries stand in it: 0, and for a list or dictionary 1 more than for the deepest of its
    /// values. It is kept, not counted.
    pub fn nesting(&self) -> usize
        ensures nesting { result ≡ nesting (view self.now) }
        ensures most { result ≤ 64 }
    {
        match self {
            Value::Items(list) => 1 + list.size().nesting,
            Value::Dict(pairs) => 1 + pairs.size().nesting,
            _ => 0,
        }
    }
}
