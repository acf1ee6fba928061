// What evaluating a formula changes beside the world.
ghost use Rattle.std.specs.Prelude.{◌≡◌, None, IfOk, OnOk};
ghost use Rattle.std.specs.FinMap as map;
ghost use Rattle.muck_model.specs.Bytes.{text_fault};
ghost use Rattle.mpi.specs.Meaning.{is_within, inside};
ghost use Rattle.mpi.specs.Thoughts.{OnMind, given_back_in, with_value, one_less};

use crate::fault::MpiFault;
use crate::variables::VarMap;
use muck_model::{Line, NoMemory};
use std::alloc::Global;

/// The variables of a formula, and how many more commands it may have.
#[derive(Drop)]
pub(crate) struct Mind {
    pub(crate) variables: VarMap,
    pub(crate) left: u32,
}

impl Mind {
    /// One command; `TooManyCommands` exactly where none is left.
    pub(crate) fn count(&mut self) -> Result<(), MpiFault>
        ensures { OnMind one_less self.old self.new result }
    {
        if self.left == 0 {
            return Err(MpiFault::TooManyCommands);
        }
        self.left -= 1;
        Ok(())
    }

    /// A copy of the value of a variable, if it is there.
    pub(crate) fn own_value(&self, alloc: Global, name: &Line) -> Result<Option<Line>, NoMemory>
        ensures { IfOk result (λ old. old ≡ map.get self.now.variables name.now) }
    {
        match self.variables.get(name) {
            Some(value) => Ok(Some(value.copy(alloc)?)),
            None => Ok(None),
        }
    }

    /// Gives a variable a value.
    pub(crate) fn set(&mut self, alloc: Global, name: &[u8], value: Line) -> Result<(), NoMemory>
        requires { text_fault name.now ≡ None }
        ensures { OnOk result (self.new ≡ with_value name.now value self.old) }
    {
        let name = Line::of_text(alloc, name)?;
        self.variables.put(name, value)
    }

    /// Gives a variable its old value back, or takes it away where there was none.
    #[tactic(auto, unfolding(crate::specs::Variables::given_back))]
    pub(crate) fn give_back(&mut self, name: Line, old: Option<Line>) -> Result<(), NoMemory>
        ensures { OnOk result (self.new ≡ given_back_in name old self.old) }
    {
        match old {
            Some(value) => self.variables.put(name, value)?,
            None => {
                self.variables.take(&name);
            }
        }
        Ok(())
    }
}

/// The numbers of a loop.
#[derive(Clone, Copy)]
pub(crate) struct Range {
    pub(crate) from: i32,
    pub(crate) end: i32,
    pub(crate) step: i32,
}

impl Range {
    // Whether a number isn't past the end: a positive step goes up to it, any other one down.
    fn has(self, number: i32) -> bool
        ensures { result ≡ is_within number self.end self.step }
    {
        if self.step > 0 {
            number <= self.end
        } else {
            number >= self.end
        }
    }

    /// The next number, unless it is past the end or there is none.
    pub(crate) fn inside(self, next: Option<i32>) -> Option<i32>
        ensures { result ≡ inside next self.end self.step }
    {
        match next {
            Some(number) if self.has(number) => Some(number),
            _ => None,
        }
    }
}
