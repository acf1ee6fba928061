// Variables: of the process, of its programs, and of calls.
ghost use Rattle.std.specs.Prelude.{◌≡◌, ℕ, ◌+◌, ◌≤◌, [], length, map, drop, IsTrue, IsFalse, is_some, option_copied, slice_get, slice_set};
ghost use Rattle.std.specs.Option.{option_map};
ghost use Rattle.muf_model.specs.Answer.{variable_at};
ghost use Rattle.muf_model.specs.Source.{variables_owned_by, with_owned};
ghost use Rattle.muf_model.specs.inner.View.{view};
ghost use Rattle.muf_frame.specs.inner.Shown.{Shown, flat, flat_owned};
ghost use Rattle.muf_frame.specs.inner.Moves.{scope_of, with_variable};
ghost use Rattle.muf_frame.specs.inner.Owners.{owner_place, owned_values};

use crate::{Frame, Owned};
use muck_model::Dbref;
use muf_model::{Value, VarId};

// Where a program's variables stand, or the length.
pub(crate) fn owner_place(owned: &[Owned], program: Dbref) -> usize
    ensures value { result ≡ owner_place program.0 (map flat_owned owned.now) }
    ensures most { result ≤ length owned.now }
{
    let mut at = 0;
    while at < owned.len() {
        if owned[at].program == program {
            return at;
        }
        at += 1;
    }
    at
}

#[tactic(auto, using(crate::proofs::Data::list_steps))]
// Another value at a place; false where that is behind the last one.
fn set_at(values: &mut Vec<Value>, at: usize, value: Value) -> bool
    ensures found { result ≡ is_some (slice_get (map view values.old.items) at) }
    ensures yes { map view values.new.items ≡ slice_set (map view values.old.items) at (view value) }
    ensures no { IsFalse result → values.new ≡ values.old }
{
    if at < values.len() {
        values[at] = value;
        true
    } else {
        false
    }
}

// The variables at a place among those of all programs, or none.
fn values_from(owned: &[Owned], at: usize) -> &[Value]
    ensures { map view result.now ≡ owned_values (slice_get owned.now at) }
{
    match owned.get(at) {
        Some(own) => &own.values,
        None => &[],
    }
}

impl Frame {
    // The variables of the running program.
    #[tactic(auto, using(crate::proofs::Owners::owned_read))]
    fn owned_values(&self) -> &[Value]
        ensures { map view result.now ≡ variables_owned_by (flat self.now).program (flat self.now).owned }
    {
        let at = owner_place(&self.owned, self.program);
        values_from(&self.owned, at)
    }

    // The variables of the innermost call.
    fn call_values(&self) -> &[Value]
        ensures { map view result.now ≡ drop (flat self.now).base (flat self.now).variables }
    {
        if self.base <= self.variables.len() {
            self.variables.split_at(self.base).1
        } else {
            &[]
        }
    }

    /// The variable of a number: of the process, of the running program or of the innermost call; `None` exactly where
    /// that has none of it.
    #[tactic(auto, using(crate::proofs::Data::list_steps))]
    pub fn variable(&self, v: VarId) -> Option<&Value>
        ensures { (words : ℕ) → option_map view (option_copied result) ≡ variable_at v.0 (scope_of words (flat self.now)) }
    {
        let number = v.0 as usize;
        if number < 4 {
            return self.common.get(number);
        }
        if number < 68 {
            return self.owned_values().get(number - 4);
        }
        self.call_values().get(number - 68)
    }

    // Another value of a variable of the running program; false where it has none of that number.
    fn set_owned(&mut self, at: usize, value: Value) -> bool
        ensures found { result ≡ is_some (slice_get (variables_owned_by (flat self.old).program (flat self.old).owned) at) }
        ensures yes { IsTrue result → flat self.new ≡ record (flat self.old) { owned = with_owned (flat self.old).program (slice_set (variables_owned_by (flat self.old).program (flat self.old).owned) at (view value)) (flat self.old).owned } }
        ensures no { IsFalse result → self.new ≡ self.old }
    {
        let place = owner_place(&self.owned, self.program);
        if place < self.owned.len() {
            set_at(&mut self.owned[place].values, at, value)
        } else {
            false
        }
    }

    // Another value of a variable of the innermost call; false where it has none of that number.
    fn set_called(&mut self, at: usize, value: Value) -> bool
        ensures found { result ≡ is_some (slice_get (drop (flat self.old).base (flat self.old).variables) at) }
        ensures yes { IsTrue result → flat self.new ≡ record (flat self.old) { variables = slice_set (flat self.old).variables ((flat self.old).base + at) (view value) } }
        ensures no { IsFalse result → self.new ≡ self.old }
    {
        match self.base.checked_add(at) {
            Some(place) => set_at(&mut self.variables, place, value),
            None => false,
        }
    }

    /// Gives a variable another value. False exactly where `variable` is `None`, and then the frame is unchanged. Takes
    /// no memory.
    pub fn set_variable(&mut self, v: VarId, value: Value) -> bool
        ensures found { (words : ℕ) → result ≡ is_some (variable_at v.0 (scope_of words (flat self.old))) }
        ensures yes { IsTrue result → flat self.new ≡ with_variable v.0 (view value) (flat self.old) }
        ensures no { IsFalse result → self.new ≡ self.old }
    {
        let number = v.0 as usize;
        if number < 4 {
            return set_at(&mut self.common, number, value);
        }
        if number < 68 {
            return self.set_owned(number - 4, value);
        }
        self.set_called(number - 68, value)
    }
}
