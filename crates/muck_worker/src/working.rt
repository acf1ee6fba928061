// A worker.
ghost use Rattle.std.specs.Prelude.{◌≡◌, ◌<◌, ◌≤◌, ◌^◌, ℕ, IfOk, OnErr, length};
ghost use Rattle.muck_model.specs.declared.event.Event.{Event};
ghost use Rattle.spec_events.specs.Logged.{bare_item};
ghost use Rattle.muck_work.specs.inner.Seats.{Rests, Left, Waited, Turned};
ghost use Rattle.muck_worker.specs.inner.Working.{WorkerReady, WorkerDone};
ghost use Rattle.muck_work.specs.inner.Jobs.{by};
ghost use Rattle.muck_worker.specs.inner.Deeds.{DidAs, IsHeld};

use crate::deeds::{Did, Task, works};
use muck_io::{Gate, Rest, place};
use muck_work::{World, gives, takes};
use std::sync::Wait;
use turn_lock::{Spent, Turn, TurnSeat};

/// Why a worker ended.
#[derive(Clone, Copy, Debug, PartialEq, Eq)]
pub enum Why {
    /// The run was stopped, and it has seen that.
    Fine,
    /// Memory was wanted, by it or by another.
    NoMemory,
    /// All turns were had.
    Spent,
}

// One turn of a worker.
fn worker_turn<W: Wait, R: Rest>(
    rt: &W,
    turn: &Turn<World>,
    seat: &mut TurnSeat<World>,
    party: u8,
    task: Task,
    rest: &R,
) -> Result<Did, Spent>
    requires own { seat.old.table_id ≡ turn.now.table.shared.table_id }
    requires worker { (0 < party) × (party < 9) }
    requires rests { Rests party seat.old.me }
    requires claim { IsHeld party task seat.old.me.0 }
    ensures own { (seat.new.table_id ≡ seat.old.table_id) × (seat.new.id ≡ seat.old.id) }
    ensures ok { IfOk result (λ did. Rests party seat.new.me × ((event : Event) × Turned seat.old.me.0 seat.new.me.0 (bare_item (by party event)) × DidAs party task did event)) }
    ensures err { OnErr result (Left party seat.new.me × Waited seat.old.me.0 seat.new.me.0 × (2 ^ 62 ≤ length seat.new.me.0.seen)) }
{
    let held = takes(rt, turn, seat, rest)?;
    let mut held = held;
    let did = works(&mut held.state, party, task);
    gives(turn, seat, held, rest);
    Ok(did)
}

/// A worker of this party works until the run is stopped: each turn of it does a line, or claims a process, or slices the one that it
/// claimed, where there is any; and else it idles, and rests. Its last entry says that it has seen the stop, but after want of
/// memory or turns. Before that one it passes the gate.
pub fn worker<W: Wait, G: Gate, R: Rest>(
    rt: &W,
    turn: &Turn<World>,
    seat: &mut TurnSeat<World>,
    party: u8,
    gate: &G,
    rest: &R,
) -> Why
    requires own { seat.old.table_id ≡ turn.now.table.shared.table_id }
    requires ready { WorkerReady party seat.old.me }
    ensures own { (seat.new.table_id ≡ seat.old.table_id) × (seat.new.id ≡ seat.old.id) }
    ensures done { WorkerDone result party seat.old.me seat.new.me }
{
    let mut task = Task::Work;
    for _ in rt.forever() {
        match worker_turn(rt, turn, seat, party, task, rest) {
            Ok(Did::Went) => {
                rest.did(party);
                task = Task::Work;
            }
            Ok(Did::Idled) => {
                rest.rest(party);
                task = Task::Work;
            }
            Ok(Did::Claimed(next)) => task = next,
            Ok(Did::Stops) => {
                gate.pass(place::BEFORE_END);
                task = Task::End;
            }
            Ok(Did::Over) => {
                rest.ended(party);
                return Why::Fine;
            }
            Ok(Did::Failed) => {
                rest.ended(party);
                return Why::NoMemory;
            }
            Err(_) => return Why::Spent,
        }
    }
    unreachable!()
}
