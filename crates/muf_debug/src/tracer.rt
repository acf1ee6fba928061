// A watch that keeps the lines of what it is asked to show.
ghost use Rattle.std.specs.Prelude.{◌≡◌, true, false, OnErr, OnOk, IfOk};
ghost use Rattle.muf_debug.specs.Shown.{new_tracer, has_break, can_break, with_break, without_break, is_unit_shown, was_at, view_told, handed_out};

use crate::places::{Places, Spot};
use crate::printing::print_view;
use crate::view::View;
use crate::watch::Watch;
use muck_model::{Dbref, Line, LineList, NoMemory};
use std::alloc::Global;
use std::marker::Model;

/// The most breaks that stand at once.
const BREAKS_MOST: usize = 256;

/// A watch that keeps the lines of what it is asked to show: all, or what comes to a line with a break from elsewhere. It remembers that memory
/// was wanted.
#[derive(Drop)]
pub struct Tracer {
    alloc: Global,
    on: bool,
    breaks: Vec<Spot>,
    last: Places,
    kept: Vec<Line>,
    refused: bool,
}

impl Model for Tracer {
    ghost use Rattle.std.specs.Coded.{codes};
    ghost use Rattle.muf_debug.specs.contracts.places.Places as places;
    ghost use Rattle.muf_debug.specs.Shown.{Tracer as Kept};

    ghost Value = { Kept };

    ghost coded = { Prim.hlevel (codes, places.the_row.coded) };

    ghost view = { λ t. record { on = t.on; breaks = t.breaks.items; last = t.last; kept = t.kept.items; refused = t.refused } };
}

impl Tracer {
    /// Trace is off, no break stands, and nothing was seen.
    #[tactic(auto, unfolding(crate::specs::Shown::new_tracer))]
    pub fn new(alloc: Global) -> Result<Tracer, NoMemory>
        ensures { IfOk result (λ t. t ≡ new_tracer) }
    {
        Ok(Tracer {
            alloc,
            on: false,
            breaks: Vec::new(alloc),
            last: Places::new(alloc),
            kept: Vec::new(alloc),
            refused: false,
        })
    }

    /// Shows each unit from now on, or only those at breaks. It takes no memory.
    pub fn trace(&mut self, on: bool)
        ensures { self.new ≡ record self.old { on = on } }
    {
        self.on = on;
    }

    // Whether a break stands there.
    fn has_break(&self, spot: Spot) -> bool
        ensures { result ≡ has_break spot self.now.breaks }
    {
        self.breaks.iter().any(|other| other.is_same(spot))
    }

    /// A break at a line of a program; false exactly where one stands there already, or 256 stand. After `NoMemory` nothing has changed.
    pub fn add_break(&mut self, program: Dbref, line: u32) -> Result<bool, NoMemory>
        ensures done { IfOk result (λ done. done ≡ can_break (record { program = program; line = line }) self.old) }
        ensures ok { IfOk result (λ _. self.new ≡ with_break (record { program = program; line = line }) self.old) }
        ensures err { OnErr result (self.new ≡ self.old) }
        ensures wanted { OnErr result (can_break (record { program = program; line = line }) self.old ≡ true) }
    {
        let spot = Spot { program, line };
        if self.has_break(spot) || self.breaks.len() >= BREAKS_MOST {
            return Ok(false);
        }
        match self.breaks.push(spot) {
            Ok(()) => Ok(true),
            Err(_) => Err(NoMemory),
        }
    }

    /// No break at a line of a program any more; false exactly where none stands there. It takes no memory.
    pub fn clear_break(&mut self, program: Dbref, line: u32) -> bool
        ensures done { result ≡ has_break (record { program = program; line = line }) self.old.breaks }
        ensures cleared { self.new ≡ without_break (record { program = program; line = line }) self.old }
    {
        let spot = Spot { program, line };
        let stood = self.has_break(spot);
        self.breaks.retain(|other| !other.is_same(spot));
        stood
    }

    /// Hands out the lines that it kept, and keeps them no more. `NoMemory` comes exactly where memory was wanted for what was to be shown, and
    /// then nothing changes. It takes no memory.
    pub fn lines(&mut self) -> Result<LineList, NoMemory>
        ensures refused { OnErr result (self.old.refused ≡ true) }
        ensures unchanged { OnErr result (self.new ≡ self.old) }
        ensures whole { IfOk result (λ _. self.old.refused ≡ false) }
        ensures lines { IfOk result (λ lines. lines ≡ self.old.kept) }
        ensures handed { IfOk result (λ _. self.new ≡ handed_out self.old) }
    {
        if self.refused {
            return Err(NoMemory);
        }
        let kept = std::mem::replace(&mut self.kept, Vec::new(self.alloc));
        Ok(LineList::of(kept))
    }

    // Whether the process was at this line at its unit before.
    fn was_at(&self, pid: i32, spot: Spot) -> bool
        ensures { result ≡ was_at pid spot self.now.last }
    {
        match self.last.get(pid) {
            Some(last) => last.is_same(spot),
            None => false,
        }
    }

    // Whether a view is to be shown.
    #[tactic(auto, unfolding(crate::specs::Shown::is_unit_shown))]
    fn is_shown(&self, pid: i32, spot: Spot) -> bool
        ensures { result ≡ is_unit_shown pid spot self.now }
    {
        self.on || (self.has_break(spot) && !self.was_at(pid, spot))
    }

    // It is told of a view.
    fn note(&mut self, view: &View) -> Result<(), NoMemory>
        ensures { OnOk result (self.new ≡ view_told view.now self.old) }
    {
        let spot = Spot {
            program: view.program,
            line: view.line,
        };
        let shown = self.is_shown(view.pid, spot);
        self.last.put(view.pid, spot)?;
        if shown {
            self.kept.push(print_view(self.alloc, view)?)?;
        }
        Ok(())
    }
}

impl Watch for Tracer {
    ghost use Rattle.muf_debug.specs.Shown.{TellsSo};

    ghost tells = { TellsSo };

    fn saw(&mut self, view: &View) {
        if self.refused {
            return;
        }
        if let Err(NoMemory) = self.note(view) {
            self.refused = true;
        }
    }
}
