// The blocks of the table: what may be in the slots of each.
ghost use Rattle.std.specs.Prelude.{◌≡◌, ◌≤◌, ◌<◌, ◌/◌, ◌*◌, ◌+◌, ◌||◌, ℕ, true, false, Some, slice_get, slice_set};
ghost use Rattle.std.specs.Option.{option_copied};
ghost use Rattle.muck_db.specs.inner.Blocks.{has, is_so, full, flagged};
ghost use Rattle.muck_db.specs.declared.blocks.Flag.{Flag};
ghost use Rattle.muck_db.specs.declared.slot.Slot.{Slot as Entry};
ghost use Rattle.muck_db.specs.inner.Slots.{shown};
ghost use Rattle.spec_live.specs.Objects.{is_garbage};

use crate::slot::Slot;
use muck_model::Kind;
use spec_live::Saving;

// How many neighbouring slots are a block.
pub const SIZE: u32 = 16;

// What is asked of a block.
#[derive(Clone, Copy)]
pub enum Flag {
    // a slot whose saving isn't done
    Unsaved,
    // a slot of garbage
    Garbage,
    // a slot with a mark
    Marked,
}

// What may be in a block. A flag may be set too often, and never too rarely.
#[derive(Clone, Copy)]
pub struct Block {
    pub unsaved: bool,
    pub garbage: bool,
    pub marked: bool,
}

// Anything may be in it.
pub fn full() -> Block
    ensures { result ≡ full }
{
    Block {
        unsaved: true,
        garbage: true,
        marked: true,
    }
}

fn has(flag: Flag, block: &Block) -> bool
    ensures { result ≡ has flag block.now }
{
    match flag {
        Flag::Unsaved => block.unsaved,
        Flag::Garbage => block.garbage,
        Flag::Marked => block.marked,
    }
}

#[tactic(auto, unfolding(spec_live::specs::Objects::garbage))]
fn is_garbage(slot: &Slot) -> bool
    ensures { result ≡ is_garbage (shown slot.now).kind }
{
    match &slot.object {
        Some(object) => matches!(object.kind, Kind::Garbage),
        None => true,
    }
}

// Whether a slot is what the flag tells of.
fn is_so(flag: Flag, slot: &Slot) -> bool
    ensures { result ≡ is_so flag slot.now }
{
    match flag {
        Flag::Unsaved => !matches!(slot.saving, Saving::Done),
        Flag::Garbage => is_garbage(slot),
        Flag::Marked => slot.mark.is_some(),
    }
}

// A block with one more slot.
fn joined(block: Block, slot: &Slot) -> Block
    ensures { (flag : Flag) → has flag result ≡ has flag block || is_so flag slot.now }
{
    Block {
        unsaved: block.unsaved || is_so(Flag::Unsaved, slot),
        garbage: block.garbage || is_so(Flag::Garbage, slot),
        marked: block.marked || is_so(Flag::Marked, slot),
    }
}

// Whether the block of a number may have that.
#[tactic(auto, unfolding(crate::specs::inner::Blocks::flagged))]
pub fn flagged(flag: Flag, blocks: &Vec<Block>, k: u32) -> bool
    ensures { result ≡ flagged flag blocks.now.items (k / 16) }
{
    match blocks.get((k / SIZE) as usize) {
        Some(block) => has(flag, block),
        None => true,
    }
}

// Sets what may be in a block, if it is there.
pub fn put_block(blocks: &mut Vec<Block>, at: usize, block: Block)
    ensures { blocks.new.items ≡ slice_set blocks.old.items at block }
{
    if let Some(kept) = blocks.get_mut(at) {
        *kept = block;
    }
}

// The slot of a number, if it is there.
fn slot_at(table: &Vec<Slot>, k: u32) -> Option<&Slot>
    ensures { option_copied result ≡ slice_get table.now.items k }
{
    table.get(k as usize)
}

// What is in the block of a number.
pub fn block_of(table: &Vec<Slot>, k: u32) -> Block
    requires { k < 2147483648 }
    ensures { (flag : Flag) (i : ℕ) (s : Entry) → i / 16 ≡ k / 16 → slice_get table.now.items i ≡ Some s → has flag result ≡ false → is_so flag s ≡ false }
{
    let first = k / SIZE * SIZE;
    let mut block = Block {
        unsaved: false,
        garbage: false,
        marked: false,
    };
    for i in first..first + SIZE {
        if let Some(slot) = slot_at(table, i) {
            block = joined(block, slot);
        }
    }
    block
}
