// The variables of a formula.
ghost use Rattle.std.specs.Prelude.{◌≡◌, OnOk, OnErr, IfOk};
ghost use Rattle.std.specs.Option.{option_copied};
ghost use Rattle.std.specs.FinMap as map;

use muck_model::{Line, NoMemory};
use std::alloc::Global;
use std::collections::BTreeMap;
use std::marker::Model;

/// Variables by name, which contracts see as the map from names to values.
#[derive(Drop)]
pub struct VarMap {
    values: BTreeMap<Line, Line>,
}

impl Model for VarMap {
    ghost use Rattle.std.specs.FinMap as map;
    ghost use Rattle.std.specs.Coded.{coded_list, coded_ℕ};
    ghost use Rattle.mpi.specs.Variables.{Variables};

    ghost Value = { Variables };

    ghost coded = { map.code (coded_list coded_ℕ) (coded_list coded_ℕ) };

    ghost view = { λ v. map.from_entries v.values.entries };
}

impl VarMap {
    /// No variable.
    pub fn new(alloc: Global) -> Result<VarMap, NoMemory>
        ensures { IfOk result (λ v. v ≡ map.empty) }
    {
        Ok(VarMap {
            values: BTreeMap::new(alloc),
        })
    }

    /// The value of a variable; `None` exactly where there is none of that name. It takes no memory.
    pub fn get(&self, name: &Line) -> Option<&Line>
        ensures { option_copied result ≡ map.get self.now name.now }
    {
        self.values.get(name)
    }

    /// Gives a variable a value, and makes it where there is none of that name. After `NoMemory` nothing has changed.
    pub fn put(&mut self, name: Line, value: Line) -> Result<(), NoMemory>
        ensures ok { OnOk result (self.new ≡ map.insert self.old name value) }
        ensures err { OnErr result (self.new ≡ self.old) }
    {
        self.values.insert(name, value)?;
        Ok(())
    }

    /// Takes a variable away, with its value; `None` exactly where there is none of that name.
    pub(crate) fn take(&mut self, name: &Line) -> Option<Line>
        ensures had { result ≡ map.get self.old name.now }
        ensures taken { self.new ≡ map.remove self.old name.now }
    {
        self.values.remove(name)
    }
}
