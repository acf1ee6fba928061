// What a property holds.
ghost use Rattle.std.specs.Prelude.{◌≡◌, ◌↔◌, IfOk, true};
ghost use Rattle.std.specs.Option.{option_copied};
ghost use Rattle.muck_prop.specs.Store.{is_nothing, kept_text, kept_number};

use muck_model::{Line, NoMemory};
use std::alloc::Global;
use std::marker::Model;

/// What a property holds.
#[derive(Drop)]
pub enum PropValue {
    Text(Line),
    Number(i32),
}

impl PropValue {
    // Whether it is an empty text or 0, which no property holds.
    pub(crate) fn is_nothing(&self) -> bool
        ensures { result ≡ is_nothing self.now }
    {
        match self {
            PropValue::Text(text) => text.as_slice().is_empty(),
            PropValue::Number(number) => *number == 0,
        }
    }

    /// Its text, where it is one.
    pub fn text(&self) -> Option<&Line>
        ensures { option_copied result ≡ kept_text self.now }
    {
        match self {
            PropValue::Text(text) => Some(text),
            PropValue::Number(_) => None,
        }
    }

    /// Its number, where it is one.
    pub fn number(&self) -> Option<i32>
        ensures { result ≡ kept_number self.now }
    {
        match self {
            PropValue::Text(_) => None,
            PropValue::Number(number) => Some(*number),
        }
    }

    /// Whether both are equal.
    pub fn is_same(&self, other: &PropValue) -> bool
        ensures { result ≡ true ↔ self.now ≡ other.now }
    {
        match self {
            PropValue::Text(text) => match other {
                PropValue::Text(other) => text == other,
                PropValue::Number(_) => false,
            },
            PropValue::Number(number) => match other {
                PropValue::Text(_) => false,
                PropValue::Number(other) => number == other,
            },
        }
    }

    /// An equal value.
    pub fn copy(&self, alloc: Global) -> Result<PropValue, NoMemory>
        ensures { IfOk result (λ value. value ≡ self.now) }
    {
        match self {
            PropValue::Text(text) => Ok(PropValue::Text(text.copy(alloc)?)),
            PropValue::Number(number) => Ok(PropValue::Number(*number)),
        }
    }
}

// A value on the heap, which contracts see as the value itself: a node of the map, which has room for many, keeps one word of each.
#[derive(Drop)]
pub(crate) struct Kept {
    inner: Box<PropValue>,
}

impl Model for Kept {
    ghost use Rattle.muck_prop.specs.declared.value.PropValue.{PropValue};
    ghost use Rattle.muck_prop.specs.contracts.value.PropValue as value;

    ghost Value = { PropValue };

    ghost coded = { value.the_row.coded };

    ghost view = { λ k. k.inner.value };
}

impl Kept {
    // Puts a value on the heap.
    pub(crate) fn new(alloc: Global, value: PropValue) -> Result<Kept, NoMemory>
        ensures { IfOk result (λ kept. kept ≡ value) }
    {
        Ok(Kept {
            inner: Box::new(alloc, value)?,
        })
    }

    // The value.
    pub(crate) fn value(&self) -> &PropValue
        ensures { result.now ≡ self.now }
    {
        &self.inner
    }

    // Puts another value into its place.
    pub(crate) fn set(&mut self, value: PropValue)
        ensures { self.new ≡ value }
    {
        *self.inner = value;
    }
}
