// Copies of a frame.
ghost use Rattle.std.specs.Prelude.{◌≡◌, ◌≤◌, length, map, vec_len, vec_capacity, IfOk};
ghost use Rattle.muf_model.specs.inner.View.{view};
ghost use Rattle.muf_frame.specs.inner.Shown.{Shown, flat, flat_turns, flat_mark, flat_owned, outer_of};

use crate::frame::MARKS_MOST;
use crate::{Frame, Mark, Owned, Turns};
use muck_model::NoMemory;
use muf_model::{STACK_MOST, Value};
use std::alloc::Global;

// The same values, with room for so many.
fn copy_values(alloc: Global, values: &[Value], room: usize) -> Result<Vec<Value>, NoMemory>
    ensures items { IfOk result (λ copies. map view copies.items ≡ map view values.now) }
    ensures len { IfOk result (λ copies. vec_len copies ≡ length values.now) }
    ensures capacity { IfOk result (λ copies. room ≤ vec_capacity copies) }
{
    let mut copies = Vec::with_capacity(alloc, room)?;
    let mut at = 0;
    while at < values.len() {
        copies.push(values[at].copy()?)?;
        at += 1;
    }
    Ok(copies)
}

impl Turns {
    // The same count.
    fn copy(&self) -> Result<Turns, NoMemory>
        ensures { IfOk result (λ turns. flat_turns turns ≡ flat_turns self.now) }
    {
        match self {
            Turns::Plain => Ok(Turns::Plain),
            Turns::Indices { next, last, step } => Ok(Turns::Indices {
                next: *next,
                last: *last,
                step: *step,
            }),
            Turns::Values { of, at } => Ok(Turns::Values {
                of: of.clone()?,
                at: *at,
            }),
            Turns::Pairs { of, at } => Ok(Turns::Pairs {
                of: of.clone()?,
                at: *at,
            }),
        }
    }
}

impl Mark {
    // The same mark.
    fn copy(&self) -> Result<Mark, NoMemory>
        ensures mark { IfOk result (λ mark. flat_mark mark ≡ flat_mark self.now) }
        ensures outer { IfOk result (λ mark. outer_of mark ≡ outer_of self.now) }
    {
        match self {
            Mark::Loop {
                turns,
                again,
                after,
            } => Ok(Mark::Loop {
                turns: turns.copy()?,
                again: *again,
                after: *after,
            }),
            Mark::Guard {
                locked,
                outer,
                handler,
            } => Ok(Mark::Guard {
                locked: *locked,
                outer: *outer,
                handler: *handler,
            }),
            Mark::Back { base, place } => Ok(Mark::Back {
                base: *base,
                place: *place,
            }),
            Mark::Leave {
                caller,
                base,
                place,
            } => Ok(Mark::Leave {
                caller: *caller,
                base: *base,
                place: *place,
            }),
        }
    }
}

// The same marks, with room for as many as a frame has.
fn copy_marks(alloc: Global, marks: &[Mark]) -> Result<Vec<Mark>, NoMemory>
    ensures items { IfOk result (λ copies. map flat_mark copies.items ≡ map flat_mark marks.now) }
    ensures outer { IfOk result (λ copies. map outer_of copies.items ≡ map outer_of marks.now) }
    ensures len { IfOk result (λ copies. vec_len copies ≡ length marks.now) }
    ensures capacity { IfOk result (λ copies. 1024 ≤ vec_capacity copies) }
{
    let mut copies = Vec::with_capacity(alloc, MARKS_MOST)?;
    let mut at = 0;
    while at < marks.len() {
        copies.push(marks[at].copy()?)?;
        at += 1;
    }
    Ok(copies)
}

// The same variables of programs.
fn copy_owned(alloc: Global, owned: &[Owned]) -> Result<Vec<Owned>, NoMemory>
    ensures { IfOk result (λ copies. map flat_owned copies.items ≡ map flat_owned owned.now) }
{
    let mut copies = Vec::new(alloc);
    let mut at = 0;
    while at < owned.len() {
        let own = &owned[at];
        copies.push(Owned {
            program: own.program,
            values: copy_values(alloc, &own.values, 0)?,
        })?;
        at += 1;
    }
    Ok(copies)
}

impl Frame {
    /// An equal frame, which shares texts, lists and dictionaries with this one.
    pub fn copy(&self, alloc: Global) -> Result<Frame, NoMemory>
        ensures data { IfOk result (λ f. flat f ≡ flat self.now) }
        ensures units { IfOk result (λ f. f.units ≡ self.now.units) }
    {
        let stack = copy_values(alloc, &self.stack, STACK_MOST)?;
        let common = copy_values(alloc, &self.common, 0)?;
        let owned = copy_owned(alloc, &self.owned)?;
        let variables = copy_values(alloc, &self.variables, 0)?;
        let marks = copy_marks(alloc, &self.marks)?;
        Ok(Frame {
            stack,
            common,
            owned,
            variables,
            base: self.base,
            program: self.program,
            place: self.place,
            marks,
            units: self.units,
            locked: self.locked,
            calls: self.calls,
            opened: self.opened,
        })
    }
}
