// The beginning of a process, and calls of words.
ghost use Rattle.std.specs.Prelude.{◌≡◌, ◌+◌, ◌<◌, ◌++◌, ◌∷◌, ◌≤◌, [], length, vec_len, vec_capacity, map, reverse, IfOk, OnOk};
ghost use Rattle.muf_model.specs.Datum.{text};
ghost use Rattle.muf_model.specs.inner.View.{view};
ghost use Rattle.muf_model.specs.Source.{variables_owned_by, with_owned, zeros, fitted};
ghost use Rattle.muf_frame.specs.inner.Shown.{Shown, flat, flat_owned, calls_by};
ghost use Rattle.muf_frame.specs.inner.Moves.{fresh, owning, begun, called, entered};

use crate::calls::push_mark;
use crate::frame::MARKS_MOST;
use crate::variables::owner_place;
use crate::{Frame, Mark, Owned};
use muck_model::{Dbref, Line, NoMemory};
use muf_model::{STACK_MOST, Text, Value};
use std::alloc::Global;

// So many more variables that are 0.
fn push_zeros(values: &mut Vec<Value>, count: usize) -> Result<(), NoMemory>
    ensures { OnOk result (map view values.new.items ≡ map view values.old.items ++ zeros count) }
{
    let mut at = 0;
    while at < count {
        values.push(Value::Int(0))?;
        at += 1;
    }
    Ok(())
}

// The stack of a process that has run nothing.
fn first_stack(alloc: Global, arg: Line) -> Result<Vec<Value>, NoMemory>
    ensures items { IfOk result (λ stack. map view (reverse stack.items) ≡ text arg ∷ []) }
    ensures len { IfOk result (λ stack. vec_len stack ≡ 1) }
    ensures capacity { IfOk result (λ stack. 1024 ≤ vec_capacity stack) }
{
    let argument = Text::new(alloc, arg)?;
    let mut stack = Vec::with_capacity(alloc, STACK_MOST)?;
    stack.push(Value::Str(argument))?;
    Ok(stack)
}

// The variables of a process.
fn first_common(alloc: Global) -> Result<Vec<Value>, NoMemory>
    ensures { IfOk result (λ common. map view common.items ≡ zeros 4) }
{
    let mut common = Vec::with_capacity(alloc, 4)?;
    push_zeros(&mut common, 4)?;
    Ok(common)
}

// As many variables as a program has, those that were there before with their values and the others 0.
#[tactic(auto, using(crate::proofs::Data::fit_steps))]
fn fit(values: &mut Vec<Value>, count: usize) -> Result<(), NoMemory>
    ensures { OnOk result (map view values.new.items ≡ fitted count (map view values.old.items)) }
{
    values.truncate(count);
    let missing = count - values.len();
    push_zeros(values, missing)?;
    Ok(())
}

// The variables of a program that isn't there yet.
fn add_owned(
    owned: &mut Vec<Owned>,
    alloc: Global,
    program: Dbref,
    count: usize,
) -> Result<(), NoMemory>
    ensures { OnOk result (map flat_owned owned.new.items ≡ map flat_owned owned.old.items ++ (record { program = program.0; values = zeros count } ∷ [])) }
{
    let mut values = Vec::new(alloc);
    push_zeros(&mut values, count)?;
    owned.push(Owned { program, values })?;
    Ok(())
}

// The variables of a program that is entered.
fn own(owned: &mut Vec<Owned>, alloc: Global, program: Dbref, count: usize) -> Result<(), NoMemory>
    ensures { OnOk result (map flat_owned owned.new.items ≡ with_owned program.0 (fitted count (variables_owned_by program.0 (map flat_owned owned.old.items))) (map flat_owned owned.old.items)) }
{
    let place = owner_place(owned, program);
    if place < owned.len() {
        fit(&mut owned[place].values, count)?;
        return Ok(());
    }
    add_owned(owned, alloc, program, count)?;
    Ok(())
}

impl Frame {
    /// The frame of a process that has run nothing, with its argument on the stack.
    pub fn new(alloc: Global, arg: Line) -> Result<Frame, NoMemory>
        ensures data { IfOk result (λ f. flat f ≡ fresh arg) }
        ensures units { IfOk result (λ f. f.units ≡ 0) }
    {
        let stack = first_stack(alloc, arg)?;
        let common = first_common(alloc)?;
        let marks = Vec::with_capacity(alloc, MARKS_MOST)?;
        Ok(Frame {
            stack,
            common,
            owned: Vec::new(alloc),
            variables: Vec::new(alloc),
            base: 0,
            program: Dbref(-1),
            place: 0,
            marks,
            units: 0,
            locked: 0,
            calls: 0,
            opened: 0,
        })
    }

    /// Calls a word of the running program that begins at a place and has so many variables; `place` is the one to go
    /// back to. After `NoMemory` nothing is said of the frame.
    #[tactic(auto, using(crate::proofs::Data::data_steps))]
    pub fn call(&mut self, start: usize, variables: usize) -> Result<(), NoMemory>
        requires { calls_by (flat self.old).marks < 511 }
        ensures { OnOk result (flat self.new ≡ called start variables (flat self.old)) }
    {
        let base = self.variables.len();
        push_zeros(&mut self.variables, variables)?;
        push_mark(
            &mut self.marks,
            Mark::Back {
                base: self.base,
                place: self.place,
            },
        );
        self.calls += 1;
        self.base = base;
        self.place = start;
        Ok(())
    }

    /// Begins a process in a word of a program: the word begins at a place and has so many variables, and the program
    /// has `owned` variables. After `NoMemory` nothing is said of the frame.
    #[tactic(auto, using(crate::proofs::Data::data_steps))]
    pub fn begin(
        &mut self,
        alloc: Global,
        program: Dbref,
        owned: usize,
        start: usize,
        variables: usize,
    ) -> Result<(), NoMemory>
        ensures { OnOk result (flat self.new ≡ begun program.0 start variables (owning program.0 owned (flat self.old))) }
    {
        own(&mut self.owned, alloc, program, owned)?;
        let base = self.variables.len();
        push_zeros(&mut self.variables, variables)?;
        self.base = base;
        self.program = program;
        self.place = start;
        Ok(())
    }

    /// Calls a word of a program in the same way; `place` is the one to go back to in the running program.
    #[tactic(auto, using(crate::proofs::Data::data_steps))]
    pub fn enter(
        &mut self,
        alloc: Global,
        program: Dbref,
        owned: usize,
        start: usize,
        variables: usize,
    ) -> Result<(), NoMemory>
        requires { calls_by (flat self.old).marks < 511 }
        ensures { OnOk result (flat self.new ≡ entered program.0 owned start variables (flat self.old)) }
    {
        own(&mut self.owned, alloc, program, owned)?;
        let base = self.variables.len();
        push_zeros(&mut self.variables, variables)?;
        push_mark(
            &mut self.marks,
            Mark::Leave {
                caller: self.program,
                base: self.base,
                place: self.place,
            },
        );
        self.calls += 1;
        self.base = base;
        self.program = program;
        self.place = start;
        Ok(())
    }
}
