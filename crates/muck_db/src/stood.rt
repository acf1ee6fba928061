// Where players stood when the event began, and who stands elsewhere now.
ghost use Rattle.std.specs.Prelude.{◌≡◌, ◌<◌, ◌≤◌, ◌++◌, ℕ, false, Some, None, if◌then◌else◌, length, map, slice_get, IfOk, OnOk};
ghost use Rattle.spec_live.specs.Objects.{changed_at, is_player};
ghost use Rattle.spec_live.specs.Stood.{standing, move_of, moves_from};
ghost use Rattle.muck_db.specs.declared.slot.Slot.{Slot as Entry};
ghost use Rattle.muck_db.specs.inner.Slots.{shown, entries_of};
ghost use Rattle.muck_db.specs.inner.Moves.{is_where, has_moved, rested, none_moved, AreWithin, AreNoted};

use crate::links::dbref_of;
use crate::slot::Slot;
use crate::slots::Slots;
use muck_model::{Dbref, Kind, NoMemory};
use spec_live::Move;
use std::alloc::Global;

// Which numbers may have moved: those from `low` to `high`, and the one that was written last, which isn't looked at yet.
#[derive(Clone, Copy)]
pub struct Moves {
    pub low: usize,
    pub high: usize,
    pub last: Option<usize>,
}

// None has.
pub fn none_moved() -> Moves
    ensures { result ≡ none_moved }
{
    Moves {
        low: usize::MAX,
        high: 0,
        last: None,
    }
}

// Where an object of that kind stands, where it is a player.
pub fn standing(kind: Kind, place: Dbref) -> Option<Dbref>
    ensures { result ≡ (if is_player kind then Some place else None) }
{
    match kind {
        Kind::Player => Some(place),
        _ => None,
    }
}

#[tactic(auto, unfolding(spec_live::specs::Objects::garbage))]
fn stands(slot: &Slot) -> Option<Dbref>
    ensures { result ≡ standing (shown slot.now) }
{
    match &slot.object {
        Some(object) => standing(object.kind, object.place),
        None => None,
    }
}

fn is_where(a: Option<Dbref>, b: Option<Dbref>) -> bool
    ensures { result ≡ is_where a b }
{
    match (a, b) {
        (None, None) => true,
        (Some(a), Some(b)) => a == b,
        _ => false,
    }
}

fn has_moved(slot: &Slot) -> bool
    ensures { result ≡ has_moved slot.now }
{
    !is_where(slot.stood, stands(slot))
}

// Whether the slot of a number, if it is there, has moved.
fn moved_at(table: &Vec<Slot>, k: usize) -> bool
    ensures { result ≡ false → (s : Entry) → slice_get table.now.items k ≡ Some s → has_moved s ≡ false }
{
    match table.get(k) {
        Some(slot) => has_moved(slot),
        None => false,
    }
}

// What was written last is looked at.
pub fn looked_at(moves: Moves, table: &Vec<Slot>) -> Moves
    ensures { AreNoted moves table.now.items → AreWithin result.low result.high table.now.items }
{
    let Some(k) = moves.last else {
        return moves;
    };
    if !moved_at(table, k) {
        return moves;
    }
    Moves {
        low: moves.low.min(k),
        high: moves.high.max(k),
        last: moves.last,
    }
}

// The slot of a number is written.
pub fn written(moves: Moves, k: usize) -> Moves
    ensures { result ≡ record moves { last = Some k } }
{
    Moves {
        low: moves.low,
        high: moves.high,
        last: Some(k),
    }
}

#[tactic(auto, unfolding(spec_live::specs::Objects::changed_at))]
fn rest_at(slots: &mut Slots, k: u32)
    requires { k < length slots.old.items }
    ensures items { slots.new.items ≡ changed_at k rested slots.old.items }
    ensures len { length slots.new.items ≡ length slots.old.items }
{
    let slot = slots.at_mut(k);
    let stood = stands(slot);
    slot.stood = stood;
}

// Where players stand is where they stood. It looks at no other numbers than those between which some moved.
pub fn settle(slots: &mut Slots)
    requires { length slots.old.items ≤ 100000 }
    ensures { slots.new.items ≡ map rested slots.old.items }
{
    let (low, end) = slots.moved_within();
    let mut k = low;
    while k < end {
        rest_at(slots, k);
        k += 1;
    }
    slots.all_rest();
}

fn push_move(
    moves: &mut Vec<Move>,
    k: u32,
    from: Option<Dbref>,
    to: Option<Dbref>,
) -> Result<(), NoMemory>
    requires { k < 100000 }
    ensures { OnOk result (moves.new.items ≡ moves.old.items ++ move_of k from to) }
{
    if let (Some(from), Some(to)) = (from, to) {
        if from != to {
            moves.push(Move {
                player: dbref_of(k),
                from,
                to,
            })?;
        }
    }
    Ok(())
}

// Who stands elsewhere, by rising number.
pub fn moves_of(alloc: Global, slots: &Slots) -> Result<Vec<Move>, NoMemory>
    requires { length slots.now.items ≤ 100000 }
    ensures { IfOk result (λ moves. moves.items ≡ moves_from 0 (entries_of slots.now.items)) }
{
    let (low, end) = slots.moved_within();
    let mut moves = Vec::new(alloc);
    for k in low..end {
        let slot = slots.at(k);
        push_move(&mut moves, k, slot.stood, stands(slot))?;
    }
    Ok(moves)
}
