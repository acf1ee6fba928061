// A program that runs, and what it shows.
ghost use Rattle.std.specs.Prelude.{◌≡◌, ◌<◌, ◌≤◌, IfOk, drop, length, map, reverse, slice_get, Some};
ghost use Rattle.std.specs.Option.{option_map};
ghost use Rattle.muf_model.specs.inner.Decode.{tree_of};
ghost use Rattle.muf_model.specs.inner.Flat.{decode, first_code};
ghost use Rattle.muf_model.specs.Source.{calls_running, handed, item_passed, program_entered};
ghost use Rattle.muf_model.specs.inner.View.{view};
ghost use Rattle.muf_model.specs.inner.Stands.{TreeStands};
ghost use Rattle.muf_model.specs.Chains.{callers_of};
ghost use Rattle.muf_compile.specs.Lines.{next_line};
ghost use Rattle.muf_frame.specs.inner.Shown.{flat};
ghost use Rattle.muf_running.specs.inner.Fitting.{codes_of, ProgramsFit, program_with, numbers_in, number_among, IsAtPrimitive};

use crate::begin::start_of;
use crate::entered::{Entered, copy_entered, has_program, numbers_below};
use crate::frame_box::FrameBox;
use muck_model::{Dbref, NoMemory, Row};
use muf_model::{Code, STACK_MOST, Shared, Value};
use std::alloc::Global;
use std::marker::Model;

/// A program that runs: its frame, and the code of each program on its call stack. Contracts see it as the state of
/// its source.
#[derive(Drop)]
pub struct Running {
    // the running program last
    pub(crate) programs: Vec<Entered>,
    pub(crate) frame: FrameBox,
}

impl Model for Running {
    ghost use Rattle.std.specs.Prelude.{reverse};
    ghost use Rattle.std.specs.Coded.{codes};
    ghost use Rattle.muf_model.specs.Source.{Source};
    ghost use Rattle.muf_model.specs.inner.Codes.{datum_code, block_code, end_code};
    ghost use Rattle.muf_model.specs.inner.Flat.{decode};
    ghost use Rattle.muf_frame.specs.inner.Shown.{flat};

    ghost Value = { Source };

    ghost coded = { Prim.hlevel (codes, datum_code, block_code, end_code) };

    ghost use Rattle.muf_running.specs.inner.Fitting.{codes_of, ProgramsFit};

    ghost view = { λ r. decode (codes_of (reverse r.programs.items)) (flat r.frame) };

    ghost invariant = { λ r. ProgramsFit (reverse r.programs.items) (flat r.frame) };
}

// The code of the running program, which is the last one.
pub(crate) fn running_code(programs: &[Entered]) -> &Code
    requires { 0 < length programs.now }
    ensures { result.now ≡ first_code (codes_of (reverse programs.now)) }
{
    programs[programs.len() - 1].code.get()
}

// A process that has left so many programs.
pub(crate) fn left(programs: Vec<Entered>, frame: FrameBox, count: usize) -> Running
    requires { ProgramsFit (drop count (reverse programs.items)) (flat frame) }
    ensures { result ≡ decode (codes_of (drop count (reverse programs.items))) (flat frame) }
{
    let mut kept = programs;
    let height = kept.len().saturating_sub(count);
    kept.truncate(height);
    Running {
        programs: kept,
        frame,
    }
}

impl Running {
    /// The number of the running program.
    pub fn program(&self) -> Dbref
        ensures { result.0 ≡ self.now.program.number }
    {
        self.frame.get().program()
    }

    /// The line of the source of what comes next in the running program.
    pub fn line(&self) -> u32
        ensures { result ≡ next_line self.now.now self.now.end }
    {
        match running_code(&self.programs).get(self.frame.get().place()) {
            Some(placed) => placed.line,
            None => 0,
        }
    }

    /// The numbers of the programs that were entered before the running one, the nearest first.
    pub fn callers(&self, alloc: Global) -> Result<Row<Dbref>, NoMemory>
        ensures { IfOk result (λ row. map (λ d. d.0) row ≡ map (λ p. p.number) (callers_of self.now.marks)) }
    {
        numbers_below(alloc, &self.programs)
    }

    /// Whether a program is among those that were entered, the running one too.
    pub fn runs(&self, program: Dbref) -> bool
        ensures { result ≡ number_among program.0 (numbers_in self.now) }
    {
        has_program(&self.programs, program)
    }

    /// How many calls run, beside the first word.
    pub fn calls(&self) -> usize
        ensures value { result ≡ calls_running self.now.marks }
        ensures most { result ≤ 511 }
    {
        self.frame.get().calls()
    }

    /// An item more, where there is room.
    pub fn hand(&mut self, item: Value)
        ensures { self.new ≡ handed (view item) self.old }
    {
        if self.frame.get().len() < STACK_MOST {
            self.frame.get_mut().push_item(item);
        }
    }

    /// One that stands at the same state, with a stack and variables of its own.
    pub fn copy(&self, alloc: Global) -> Result<Running, NoMemory>
        ensures { IfOk result (λ r. r ≡ self.now) }
    {
        let programs = copy_entered(alloc, &self.programs)?;
        let frame = self.frame.get().copy(alloc)?;
        let frame = FrameBox::new(alloc, frame)?;
        Ok(Running { programs, frame })
    }

    /// Goes past a primitive that comes next.
    pub fn pass(&mut self)
        requires { IsAtPrimitive self.old.now }
        ensures { self.new ≡ item_passed self.old }
    {
        let place = self.frame.get().place();
        let length = running_code(&self.programs).placed.len();
        if place < length {
            self.frame.get_mut().go_to(place + 1);
        }
    }

    /// Calls a word of a program, from the state behind the item that calls it: `word` is its number among the
    /// program's words. After `NoMemory` nothing is left of the process.
    pub fn call(
        self,
        alloc: Global,
        program: Dbref,
        code: Shared<Code>,
        word: usize,
    ) -> Result<Running, NoMemory>
        requires calls { calls_running self.marks < 511 }
        requires stands { TreeStands code (tree_of code) }
        requires word { word < length code.words }
        ensures { IfOk result (λ r. option_map (λ d. program_entered (program_with program code) d self) (slice_get (tree_of code).words word) ≡ Some r) }
    {
        let Running {
            mut programs,
            mut frame,
        } = self;
        let start = start_of(code.get(), word);
        let lent = frame.get_mut();
        lent.enter(alloc, program, start.owned, start.place, start.variables)?;
        programs.push(Entered { program, code })?;
        Ok(Running { programs, frame })
    }
}
