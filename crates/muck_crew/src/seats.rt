// The seats of the workers.
ghost use Rattle.std.specs.Prelude.{◌≡◌, ◌⊎◌, ◌<◌, ◌≤◌, ℕ, [], length, vec_capacity, IfOk};
ghost use Rattle.turn_lock.specs.declared.view.Place.TheVariants.{Idle, Told};
ghost use Rattle.muck_crew.specs.inner.Parts.{AreDealt, AreOver, given_to, all_in};

use muck_machine::World;
use muck_worker::Why;
use std::alloc::{AllocError, Global};
use turn_lock::{Turn, TurnSeat};

/// A worker's part: its seat and its number, and how it ended.
#[derive(Drop)]
pub struct Part {
    pub seat: TurnSeat<World>,
    pub party: u8,
    pub why: Why,
}

/// The parts of all workers.
#[derive(Drop)]
pub struct Parts {
    pub all: Vec<Part>,
}

/// Room for so many parts.
pub fn room(alloc: Global, workers: u8) -> Result<Parts, AllocError>
    ensures none { IfOk result (λ parts. parts.all.items ≡ []) }
    ensures room { IfOk result (λ parts. workers ≤ vec_capacity parts.all) }
{
    let all = Vec::with_capacity(alloc, usize::from(workers))?;
    Ok(Parts { all })
}

/// A seat for each worker. It takes no memory.
pub fn deal(turn: &Turn<World>, seat: &mut TurnSeat<World>, parts: &mut Parts, workers: u8)
    requires own { (seat.old.table_id ≡ turn.now.table.shared.table_id) × (seat.old.id ≡ 0) }
    requires idle { (seat.old.me.0.place ≡ Idle) × (seat.old.me.0.given ≡ []) }
    requires few { workers < 9 }
    requires none { parts.old.all.items ≡ [] }
    requires room { workers ≤ vec_capacity parts.old.all }
    ensures own { (seat.new.table_id ≡ seat.old.table_id) × (seat.new.id ≡ 0) }
    ensures first { seat.new.me ≡ (given_to workers seat.old.me.0, seat.old.me.1) }
    ensures parts { AreDealt seat.old.table_id workers seat.old.me.0 parts.new.all.items }
{
    for number in 0..workers {
        let party = number + 1;
        let part = Part {
            seat: turn.split(seat, party),
            party,
            why: Why::Fine,
        };
        let Ok(()) = parts.all.push(part) else {
            unreachable!()
        };
    }
}

/// All workers' seats are taken in. It takes no memory.
pub fn take_in(turn: &Turn<World>, seat: &mut TurnSeat<World>, parts: Parts)
    requires own { (seat.old.table_id ≡ turn.now.table.shared.table_id) × (seat.old.id ≡ 0) }
    requires over { (seat.old.me.0.place ≡ Idle) ⊎ (seat.old.me.0.place ≡ Told) }
    requires parts { AreOver turn.now.table.shared.table_id parts.all.items }
    ensures own { (seat.new.table_id ≡ seat.old.table_id) × (seat.new.id ≡ 0) }
    ensures taken { seat.new.me ≡ (all_in parts.all.items seat.old.me.0, seat.old.me.1) }
{
    let Parts { all } = parts;
    let mut all = all;
    while let Some(part) = all.pop() {
        let Part { seat: other, .. } = part;
        turn.join(seat, other);
    }
}
