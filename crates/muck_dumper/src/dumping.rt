// The dumper.
ghost use Rattle.std.specs.Prelude.{◌≡◌, ℕ, true};
ghost use Rattle.muck_dumping.specs.inner.Between.{IsReady, Knows};
ghost use Rattle.muck_dumper.specs.inner.Dumping.{history_seen, DumperReady, DumperDone};

use crate::deeds::{DUMPER, Did, Task};
use crate::holds::{Fault, makes, watch_turn};
use muck_disk::Disk;
use muck_dumping::Store;
use muck_io::{Gate, Rest, place};
use muck_work::World;
use std::alloc::Global;
use std::sync::Wait;
use turn_lock::{Turn, TurnSeat};

/// Why the dumper ended.
#[derive(Clone, Copy, Debug, PartialEq, Eq)]
pub enum Why {
    /// The run was stopped, and it has seen that.
    Fine,
    /// Memory was wanted, by it or by another.
    NoMemory,
    /// All turns were had.
    Spent,
}

/// The dumper makes a dump where one is asked or due, until the run is stopped, and else it idles and rests. Its batch is written while others go
/// on, behind the gate. Where a dump failed the log is mounted again at once; where it can't be, the next dump fails, and then it is tried again. Once the
/// run is stopping no dump is begun any more; its last entry says that it has seen the stop, but after want of memory or turns. Before that one it passes
/// the gate: in the turn itself where a dump is due by then, and else before it.
pub fn dumper<W: Wait, D: Disk, G: Gate, R: Rest>(
    rt: &W,
    alloc: Global,
    turn: &Turn<World>,
    seat: &mut TurnSeat<World>,
    store: &mut Store,
    first: &mut D,
    second: &mut D,
    gate: &G,
    rest: &R,
) -> Why
    requires own { seat.old.table_id ≡ turn.now.table.shared.table_id }
    requires ready { DumperReady seat.old.me }
    requires knows { Knows store.old (history_seen seat.old.me.0) }
    requires mounted { D.tells ≡ true → (mounted : ℕ) × IsReady D.seen D.moment D.images D.faults store.old.log first.old second.old mounted (history_seen seat.old.me.0) }
    ensures own { (seat.new.table_id ≡ seat.old.table_id) × (seat.new.id ≡ seat.old.id) }
    ensures done { DumperDone D.tells D.seen D.moment D.images D.faults result store.old store.new first.old second.old first.new second.new seat.old.me seat.new.me }
    ensures first_attached { D.attached first.new ≡ D.attached first.old }
    ensures second_attached { D.attached second.new ≡ D.attached second.old }
{
    let mut task = Task::Watch;
    for _ in rt.forever() {
        match watch_turn(rt, turn, seat, task, store, first, second, gate, rest) {
            Ok(Did::Idled) => rest.rest(DUMPER),
            Ok(Did::Began(pending)) => {
                gate.pass(place::BEFORE_DUMP);
                match makes(rt, alloc, turn, seat, store, first, second, rest, pending) {
                    Ok(()) => rest.did(DUMPER),
                    Err(Fault::NoMemory) => return Why::NoMemory,
                    Err(Fault::Spent) => return Why::Spent,
                }
            }
            Ok(Did::Stops) => {
                gate.pass(place::BEFORE_END);
                task = Task::End;
            }
            Ok(Did::Over) => {
                rest.ended(DUMPER);
                return Why::Fine;
            }
            Ok(Did::Failed) => {
                rest.ended(DUMPER);
                return Why::NoMemory;
            }
            Err(_) => return Why::Spent,
        }
    }
    unreachable!()
}
