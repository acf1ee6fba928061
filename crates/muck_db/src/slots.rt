// The table of the objects, in blocks of neighbours. Of each block is kept what may be in it, so that what looks for some slots passes over the others.
ghost use Rattle.std.specs.Prelude.{◌≡◌, ◌<◌, ◌≤◌, ℕ, true, [], ◌∷◌, ◌++◌, length, Some, slice_get, IfOk, OnOk, OnErr};
ghost use Rattle.std.specs.Option.{option_copied};
ghost use Rattle.std.specs.Borrow.{sem};
ghost use Rattle.muck_db.specs.inner.Lent.{LendsSlot};
ghost use Rattle.muck_db.specs.inner.Blocks.{LacksAt};
ghost use Rattle.muck_db.specs.inner.Moves.{NoneMoved, AreBefore};
ghost use Rattle.muck_db.specs.inner.Hearing.{listen_path, IsUnheard};

use crate::blocks::{Block, Flag, SIZE, block_of, flagged, full, put_block};
use crate::hearing::Hearers;
use crate::slot::Slot;
use crate::stood::{Moves, looked_at, none_moved, written};
use muck_model::NoMemory;
use muck_prop::Path;
use std::alloc::Global;
use std::marker::Model;

// A slot for each number from 0 on. It is read by `at` and `get`, and written by `at_mut`.
#[derive(Drop)]
pub struct Slots {
    table: Vec<Slot>,
    blocks: Vec<Block>,
    // which slots may have moved since the event began
    moves: Moves,
    // where something may stand that listens
    hearers: Hearers,
}

impl Model for Slots {
    ghost use Rattle.muck_db.specs.inner.Table.{Table};

    ghost Value = { Table };

    ghost use Rattle.std.specs.Coded.{codes};
    ghost use Rattle.muck_prop.specs.contracts.props.Props as props;

    ghost coded = { Prim.hlevel (codes, props.the_row.coded) };

    ghost use Rattle.muck_db.specs.inner.Blocks.{IsCovered};
    ghost use Rattle.muck_db.specs.inner.Moves.{AreNoted};
    ghost use Rattle.muck_db.specs.inner.Hearing.{AreHeard};

    ghost view = { λ a. record { items = a.table.items } };

    ghost invariant = { λ a. IsCovered a.table.items a.blocks.items × AreNoted a.moves a.table.items × AreHeard a.hearers a.table.items };
}

impl Slots {
    pub fn new(alloc: Global) -> Result<Slots, NoMemory>
        ensures { IfOk result (λ slots. slots.items ≡ []) }
    {
        Ok(Slots {
            table: Vec::new(alloc),
            blocks: Vec::new(alloc),
            moves: none_moved(),
            hearers: Hearers::none(alloc)?,
        })
    }

    // How many slots there are.
    pub fn len(&self) -> usize
        ensures { result ≡ length self.now.items }
    {
        self.table.len()
    }

    // All slots, in the order of their numbers.
    pub fn as_slice(&self) -> &[Slot]
        ensures { result.now ≡ self.now.items }
    {
        &self.table
    }

    // The slot of a number, if it is there.
    pub fn get(&self, k: u32) -> Option<&Slot>
        ensures { option_copied result ≡ slice_get self.now.items k }
    {
        self.table.get(k as usize)
    }

    // The slot of a number.
    pub fn at(&self, k: u32) -> &Slot
        requires { k < length self.now.items }
        ensures { slice_get self.now.items k ≡ Some result.now }
    {
        &self.table[k as usize]
    }

    // The slot of a number, to be written. Anything may then be in its block, and what was written before is looked at.
    pub fn at_mut(&mut self, k: u32) -> &mut Slot
        requires { k < length self.old.items }
        ensures* writes_back { sem 𝓛 (LendsSlot self.entry k result) }
        ensures value { slice_get self.old.items k ≡ Some result.now }
    {
        put_block(&mut self.blocks, (k / SIZE) as usize, full());
        self.moves = written(looked_at(self.moves, &self.table), k as usize);
        self.hearers.write(&self.table, k as usize);
        &mut self.table[k as usize]
    }

    // A slot at the next number. After `NoMemory` the table is as it was.
    pub fn push(&mut self, slot: Slot) -> Result<(), NoMemory>
        ensures ok { OnOk result (self.new.items ≡ self.old.items ++ slot ∷ []) }
        ensures err { OnErr result (self.new ≡ self.old) }
    {
        self.open_block()?;
        self.push_open(slot)
    }

    // There is a block for the next number, in which anything may be.
    fn open_block(&mut self) -> Result<(), NoMemory>
        ensures { self.new ≡ self.old }
    {
        if self.blocks.len() <= self.table.len() / SIZE as usize {
            self.blocks.push(full())?;
        }
        Ok(())
    }

    fn push_open(&mut self, slot: Slot) -> Result<(), NoMemory>
        ensures ok { OnOk result (self.new.items ≡ self.old.items ++ slot ∷ []) }
        ensures err { OnErr result (self.new ≡ self.old) }
    {
        let at = self.table.len() / SIZE as usize;
        put_block(&mut self.blocks, at, full());
        self.moves = written(looked_at(self.moves, &self.table), self.table.len());
        self.hearers.write(&self.table, self.table.len());
        self.table.push(slot)?;
        Ok(())
    }

    // The numbers between which those are that have moved: from the first on, below the second.
    pub fn moved_within(&self) -> (u32, u32)
        requires { length self.now.items ≤ 100000 }
        ensures within { AreBefore result.0 result.1 self.now.items }
        ensures known { result.1 ≤ length self.now.items }
    {
        let n = self.table.len();
        let moves = looked_at(self.moves, &self.table);
        let end = if moves.high < n { moves.high + 1 } else { n };
        (moves.low.min(n) as u32, end as u32)
    }

    // The directory that names what listens.
    pub fn listen(&self) -> &Path
        ensures { result.now ≡ listen_path }
    {
        &self.hearers.listen
    }

    // Whether it is known that nothing listens in a place. It looks at no slot but that which was written last.
    pub fn is_unheard(&self, place: u32) -> bool
        ensures { result ≡ true → IsUnheard place self.now.items }
    {
        self.hearers.are_elsewhere(&self.table, place)
    }

    // None has moved.
    pub fn all_rest(&mut self)
        requires { NoneMoved self.old.items }
        ensures { self.new ≡ self.old }
    {
        self.moves = none_moved();
    }

    // The next number from `from` on in whose block that may be, or one past all. It looks at the blocks alone.
    pub fn next_flagged(&self, flag: Flag, from: u32) -> u32
        requires { length self.now.items ≤ 100000 }
        ensures later { from ≤ result }
        ensures lacks { (i : ℕ) → from ≤ i → i < result → LacksAt flag self.now.items i }
    {
        let n = self.table.len() as u32;
        let mut k = from;
        while k < n {
            if flagged(flag, &self.blocks, k) {
                return k;
            }
            k = (k / SIZE + 1) * SIZE;
        }
        k
    }

    // Behind the last number of a block, the flags of the block are those of its slots again.
    pub fn leave(&mut self, k: u32)
        requires { k < 100000 }
        ensures { self.new ≡ self.old }
    {
        if k % SIZE == SIZE - 1 || k as usize + 1 == self.table.len() {
            let block = block_of(&self.table, k);
            put_block(&mut self.blocks, (k / SIZE) as usize, block);
        }
    }
}
