// Definitions that are held in memory.
ghost use Rattle.std.specs.Prelude.{◌≡◌, IfOk, OnOk, OnErr, ◌++◌, ◌∷◌, []};
ghost use Rattle.muf_token.specs.declared.memory.Lender.{Lender};

use crate::includes::{DefList, Definition, Includes};
use muck_model::{Dbref, NoMemory, Row};
use std::alloc::Global;
use std::marker::Model;

/// An object with the definitions that it lends.
#[derive(Drop)]
pub struct Lender {
    pub object: Dbref,
    pub defs: DefList,
}

/// Objects in memory with the definitions that they lend; no other object is there. Of two entries of one object the
/// first counts.
#[derive(Drop)]
pub struct MemIncludes {
    lenders: Row<Lender>,
}

impl Model for MemIncludes {
    ghost use Rattle.std.specs.Prelude.{List};
    ghost use Rattle.muf_token.specs.declared.memory.Lender.{Lender};

    ghost Value = { List Lender };

    ghost view = { λ m. m.lenders };
}

impl MemIncludes {
    /// No object is there.
    pub fn new(alloc: Global) -> Result<MemIncludes, NoMemory>
        ensures { IfOk result (λ m. m ≡ []) }
    {
        Ok(MemIncludes {
            lenders: Row::new(alloc)?,
        })
    }

    /// One object more; after `NoMemory` none is added.
    pub fn lend(&mut self, object: Dbref, defs: DefList) -> Result<(), NoMemory>
        ensures ok { OnOk result (self.new ≡ self.old ++ record { object = object; defs = defs } ∷ []) }
        ensures err { OnErr result (self.new ≡ self.old) }
    {
        self.lenders.push(Lender { object, defs })
    }
}

// An equal list.
fn copy_defs(alloc: Global, list: &[Definition]) -> Result<DefList, NoMemory>
    ensures { IfOk result (λ copy. copy ≡ list.now) }
{
    let mut copy = Row::new(alloc)?;
    for definition in list {
        let name = definition.name.copy(alloc)?;
        let text = definition.text.copy(alloc)?;
        copy.push(Definition { name, text })?;
    }
    Ok(copy)
}

impl Includes for MemIncludes {
    ghost use Rattle.std.specs.Prelude.{◌≡◌, IfOk};
    ghost use Rattle.muf_token.specs.inner.Lenders.{lent_by};

    ghost lent = { λ m d. lent_by m d };

    fn defs(&self, alloc: Global, d: Dbref) -> Result<Option<DefList>, NoMemory> {
        for lender in self.lenders.as_slice() {
            if lender.object == d {
                return Ok(Some(copy_defs(alloc, lender.defs.as_slice())?));
            }
        }
        Ok(None)
    }
}
