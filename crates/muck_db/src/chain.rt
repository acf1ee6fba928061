// The list of what an object holds, one after the other.
ghost use Rattle.std.specs.Iterator.{YieldsFirst, item_count};

use crate::links::{dbref_of, next_of};
use crate::slots::Slots;
use muck_model::Dbref;
use std::marker::Model;

/// What is left of a list of contents or of exits, which contracts see as its numbers from the front on.
#[derive(Drop)]
pub struct Chain<'a> {
    slots: &'a Slots,
    at: Option<u32>,
}

impl<'a> Model for Chain<'a> {
    ghost use Rattle.std.specs.Prelude.{List, ◌≤◌, length};
    ghost use Rattle.muck_model.specs.declared.dbref.Dbref.{Dbref};
    ghost use Rattle.spec_live.specs.Chain.{Ends};
    ghost use Rattle.muck_db.specs.inner.Slots.{next_at, dbrefs_from};

    ghost Value = { List Dbref };

    ghost view = { λ c. dbrefs_from c.slots.now.items c.at };

    ghost invariant = { λ c. Ends (length c.slots.now.items) (next_at c.slots.now.items) c.at × (length c.slots.now.items ≤ 100000) };
}

impl<'a> Chain<'a> {
    ghost use Rattle.std.specs.Prelude.{◌≡◌, ◌≤◌, length};
    ghost use Rattle.spec_live.specs.Chain.{Ends};
    ghost use Rattle.muck_db.specs.inner.Slots.{next_at, dbrefs_from};

    // From that number on.
    pub(crate) fn new(slots: &'a Slots, at: Option<u32>) -> Self
        requires ends { Ends (length slots.now.items) (next_at slots.now.items) at }
        requires few { length slots.now.items ≤ 100000 }
        ensures { result ≡ dbrefs_from slots.now.items at }
    {
        Chain { slots, at }
    }
}

impl<'a> Chain<'a> {
    ghost use Rattle.std.specs.Iterator.{YieldsFirst};

    fn step(&mut self) -> Option<Dbref>
        ensures { YieldsFirst (λ s. s) self.old result self.new }
    {
        match self.at {
            None => None,
            Some(k) => {
                self.at = next_of(self.slots, k);
                Some(dbref_of(k))
            }
        }
    }
}

impl<'a> Iterator for Chain<'a> {
    type Item = Dbref;

    ghost next_gives = { YieldsFirst (λ s. s) };

    ghost remaining = { item_count (λ s. s) };

    fn next(&mut self) -> Option<Dbref> {
        self.step()
    }
}
