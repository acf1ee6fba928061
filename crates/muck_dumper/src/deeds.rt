// What the dumper does in a hold: one entry.
ghost use Rattle.std.specs.Prelude.{◌≡◌, ℕ, true, false, None, Option, Result, if◌then◌else◌};
ghost use Rattle.muck_log.specs.Store.{LogState};
ghost use Rattle.muck_log.specs.declared.fault.LogFault.{LogFault};
ghost use Rattle.muck_model.specs.declared.event.Event.TheVariants.{StopSeen, Died};
ghost use Rattle.spec_dumps.specs.inner.Holding.{FailedLast, Rests};
ghost use Rattle.spec_dumps.specs.Survival.{IsSafe};
ghost use Rattle.spec_events.specs.Histories.{now, entered};
ghost use Rattle.spec_events.specs.World.{runs_dump};
ghost use Rattle.muck_dumping.specs.inner.Dumps.{by, ending_event};
ghost use Rattle.muck_dumping.specs.inner.Between.{Knows, IsWritten, EndsAs};
ghost use Rattle.muck_dumper.specs.inner.Steps.{event_of, MadeBy, LeavesBy, KeptBy};

use muck_disk::Disk;
use muck_dumping::{Pending, Store, begin, end};
use muck_io::{Gate, place};
use muck_model::NoMemory;
use muck_work::World;

// The party that makes the dumps of a world that is shared.
pub(crate) const DUMPER: u8 = 9;

/// What the dumper has to do in its next turn, where no dump of it runs.
#[derive(Clone, Copy)]
pub enum Task {
    /// To begin a dump, where one is due.
    Watch,
    /// To end: it has passed the gate for that.
    End,
}

/// What the dumper did, where no dump of it runs.
#[derive(Drop)]
pub enum Did {
    /// There was nothing to do.
    Idled,
    /// A dump was begun.
    Began(Pending),
    /// The run is stopping, and it is to end in its next turn.
    Stops,
    /// It has seen that the run is stopping.
    Over,
    /// Memory was wanted.
    Failed,
}

// It has seen that the run is stopping.
fn sees_stop(world: &mut World)
    requires alive { (now world.old).dead ≡ false }
    requires stopping { (now world.old).stopping ≡ true }
    ensures { world.new ≡ entered world.old (by 9 StopSeen) }
{
    if !world.stopped(DUMPER) {
        unreachable!()
    }
}

// The run is stopping, and no dump is begun any more: it idles, so that the gate is passed before the turn in which it sees the stop. Where a dump is due it may
// not idle; then it passes the gate and sees the stop at once.
fn leaves<G: Gate>(world: &mut World, task: Task, gate: &G) -> Did
    requires alive { (now world.old).dead ≡ false }
    requires stopping { (now world.old).stopping ≡ true }
    ensures { LeavesBy result world.old world.new }
{
    match task {
        Task::Watch => {
            if world.idle(DUMPER) {
                return Did::Stops;
            }
            gate.pass(place::BEFORE_END);
        }
        Task::End => {}
    }
    sees_stop(world);
    Did::Over
}

/// One entry of the dumper where no dump runs: where the run is stopping it ends, in this turn or the next; else it begins a dump where one is due, and idles
/// where none is.
pub fn watches<D: Disk, G: Gate>(
    world: &mut World,
    task: Task,
    store: &Store,
    first: &D,
    second: &D,
    gate: &G,
) -> Did
    requires idle { (now world.old).dumps.running ≡ None }
    requires knows { Knows store.now world.old }
    ensures made { MadeBy (event_of result) world.old world.new }
    ensures kept { KeptBy D.tells D.seen D.moment D.images D.faults store.now first.now second.now result world.old world.new }
{
    if world.is_dead() {
        world.died(DUMPER);
        return Did::Failed;
    }
    if world.is_stopping() {
        return leaves(world, task, gate);
    }
    if world.idle(DUMPER) {
        return Did::Idled;
    }
    match begin(world, DUMPER, store, first, second) {
        Ok(pending) => Did::Began(pending),
        Err(NoMemory) => Did::Failed,
    }
}

/// The dump of this number ends; `false` where memory was wanted, by others too.
pub fn finishes<D: Disk>(
    world: &mut World,
    first: &D,
    second: &D,
    number: u64,
    stored: bool,
) -> bool
    requires runs { runs_dump number (now world.old).dumps ≡ true }
    ensures made { MadeBy (if result then ending_event number stored else Died) world.old world.new }
    ensures idle { result ≡ true → (now world.new).dumps.running ≡ None }
    ensures last { stored ≡ false → result ≡ true → FailedLast number world.new }
    ensures rests { (mounted : ℕ) (log : Option LogState) (r : Result (Unit {0}) LogFault) → D.tells ≡ true → IsWritten D.seen D.moment D.images D.faults log first.now second.now mounted world.old r → EndsAs r stored
        → result ≡ true → Rests D.seen D.moment D.images D.faults log first.now second.now mounted world.new }
    ensures safe { (mounted : ℕ) (log : Option LogState) (r : Result (Unit {0}) LogFault) → D.tells ≡ true → IsWritten D.seen D.moment D.images D.faults log first.now second.now mounted world.old r
        → result ≡ false → IsSafe D.moment D.images D.faults first.now second.now world.new.start mounted world.new.entries world.new.notes }
{
    if world.is_dead() {
        world.died(DUMPER);
        return false;
    }
    match end(world, DUMPER, first, second, number, stored) {
        Ok(()) => true,
        Err(NoMemory) => false,
    }
}
