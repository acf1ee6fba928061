// The frame and what it is seen as.
ghost use Rattle.std.specs.Prelude.{◌≡◌, ◌≤◌, IfOk, length};
ghost use Rattle.muf_frame.specs.inner.Shown.{Shown, flat};

use crate::Mark;
use muck_model::{Dbref, Line, NoMemory};
use muf_model::{STACK_MOST, Text, Value};
use std::alloc::Global;
use std::marker::Model;

/// The most marks: calls beside the first word, and open loops and TRYs.
pub(crate) const MARKS_MOST: usize = 1024;

/// The variables that a program has in a process.
#[derive(Drop)]
pub struct Owned {
    pub program: Dbref,
    pub values: Vec<Value>,
}

/// A running program: its stack, its variables, the place where it stands and what encloses that. Contracts see it
/// as a record, the tops of its stack and of its marks first; `flat` gives the data that its values stand for.
#[derive(Drop)]
pub struct Frame {
    pub(crate) stack: Vec<Value>,
    pub(crate) common: Vec<Value>,
    pub(crate) owned: Vec<Owned>,
    pub(crate) variables: Vec<Value>,
    pub(crate) base: usize,
    pub(crate) program: Dbref,
    pub(crate) place: usize,
    pub(crate) marks: Vec<Mark>,
    pub(crate) units: u32,
    // how many items are locked, how many calls run and how many loops and TRYs are open, by the marks
    pub(crate) locked: usize,
    pub(crate) calls: usize,
    pub(crate) opened: usize,
}

impl Model for Frame {
    ghost use Rattle.std.specs.Prelude.{◌≡◌, ◌≤◌, ◌<◌, ◌+◌, vec_len, vec_capacity, reverse, map};
    ghost use Rattle.muf_frame.specs.inner.Shown.{Shown, flat_mark, locked_by, calls_by, opened_by, GuardsFit};
    ghost use Rattle.std.specs.Coded.{codes};
    ghost use Rattle.muf_model.specs.contracts.value.Value as e;
    ghost use Rattle.muf_model.specs.contracts.value.ValueList as list;
    ghost use Rattle.muf_model.specs.contracts.value.ValueMap as dict;

    ghost Value = { Shown };

    ghost coded = { Prim.hlevel (codes, e.the_row.coded, list.the_row.coded, dict.the_row.coded) };

    ghost view = { λ f. record { stack = reverse f.stack.items; common = f.common.items; owned = f.owned.items; variables = f.variables.items; base = f.base; program = f.program; place = f.place; marks = reverse f.marks.items; units = f.units } };

    ghost invariant = { λ f. (1024 ≤ vec_capacity f.stack) × (vec_len f.stack ≤ 1024) × (1024 ≤ vec_capacity f.marks) × (vec_len f.marks ≡ f.calls + f.opened) × (f.calls ≤ 511) × (f.opened ≤ 512) × (f.locked < 1024) × (f.locked ≡ locked_by (map flat_mark (reverse f.marks.items))) × (f.calls ≡ calls_by (map flat_mark (reverse f.marks.items))) × (f.opened ≡ opened_by (map flat_mark (reverse f.marks.items))) × GuardsFit (reverse f.marks.items) };
}

impl Frame {
    /// The place of the next instruction.
    #[inline(always)]
    pub fn place(&self) -> usize
        ensures { result ≡ self.now.place }
    {
        self.place
    }

    /// The number of the running program.
    pub fn program(&self) -> Dbref
        ensures { result ≡ self.now.program }
    {
        self.program
    }

    /// The units that the last run took, 0 before the first.
    pub fn units(&self) -> u32
        ensures { result ≡ self.now.units }
    {
        self.units
    }

    /// Goes to a place.
    #[inline(always)]
    pub fn go_to(&mut self, place: usize)
        ensures { self.new ≡ record self.old { place = place } }
    {
        self.place = place;
    }

    /// Notes the units that a run took.
    pub fn set_units(&mut self, units: u32)
        ensures { self.new ≡ record self.old { units = units } }
    {
        self.units = units;
    }
}
