// Lines of programs, and at which one each process was.
ghost use Rattle.std.specs.Prelude.{◌≡◌, OnOk, OnErr};
ghost use Rattle.std.specs.Option.{option_copied};
ghost use Rattle.std.specs.FinMap as map;
ghost use Rattle.muf_debug.specs.Shown.{same_spot};

use muck_model::{Dbref, NoMemory};
use std::alloc::Global;
use std::collections::BTreeMap;
use std::marker::Model;

/// A line of a program.
#[derive(Clone, Copy, Debug)]
pub struct Spot {
    pub program: Dbref,
    pub line: u32,
}

impl Spot {
    /// Whether it is the same line of the same program.
    pub fn is_same(self, other: Spot) -> bool
        ensures { result ≡ same_spot other self }
    {
        self.program == other.program && self.line == other.line
    }
}

/// A line for each process that was seen, by its number.
#[derive(Drop)]
pub struct Places {
    spots: BTreeMap<i32, Spot>,
}

impl Model for Places {
    ghost use Rattle.std.specs.FinMap as map;
    ghost use Rattle.std.specs.Coded.{coded_ℤ};
    ghost use Rattle.muf_debug.specs.contracts.places.Spot as spot;
    ghost use Rattle.muf_debug.specs.Shown.{Lasts};

    ghost Value = { Lasts };

    ghost coded = { map.code coded_ℤ spot.the_row.coded };

    ghost view = { λ p. map.from_entries p.spots.entries };
}

impl Places {
    /// No process was seen.
    pub fn new(alloc: Global) -> Places
        ensures { result ≡ map.empty }
    {
        Places {
            spots: BTreeMap::new(alloc),
        }
    }

    /// Where a process was; `None` exactly where it wasn't seen.
    pub fn get(&self, pid: i32) -> Option<&Spot>
        ensures { option_copied result ≡ map.get self.now pid }
    {
        self.spots.get(&pid)
    }

    /// A process is at a line. After `NoMemory` nothing has changed.
    pub fn put(&mut self, pid: i32, spot: Spot) -> Result<(), NoMemory>
        ensures ok { OnOk result (self.new ≡ map.insert self.old pid spot) }
        ensures err { OnErr result (self.new ≡ self.old) }
    {
        self.spots.insert(pid, spot)?;
        Ok(())
    }
}
