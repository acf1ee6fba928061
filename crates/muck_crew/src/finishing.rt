// The end of a run: the last dump.
ghost use Rattle.std.specs.Prelude.{◌≡◌, ℕ, true, false, None};
ghost use Rattle.spec_dumps.specs.inner.Holding.{Keeps};
ghost use Rattle.spec_events.specs.Histories.{now};
ghost use Rattle.muck_dumper.specs.inner.Between.{Knows};
ghost use Rattle.muck_crew.specs.inner.Runs.{HasStopped};
ghost use Rattle.muck_crew.specs.inner.Finished.{why_by, HasDump, IsFinish};

use crate::serving::Way;
use muck_disk::Disk;
use muck_dumper::{Store, dump};
use muck_io::{Gate, place};
use muck_log::LogFault;
use muck_machine::World;
use muck_model::NoMemory;
use muck_why::{Why, why_of};
use std::alloc::Global;

// How many turns there are.
const MOST: u64 = 1 << 62;

// Why a run ends that was stopped, by how the last dump came out.
fn why_by(deaf: bool, answer: Result<Option<LogFault>, NoMemory>) -> Why
    ensures { result ≡ why_by deaf answer }
{
    if deaf {
        return Why::ListenFault;
    }
    match answer {
        Ok(None) => Why::Fine,
        Ok(Some(fault)) => why_of(fault),
        Err(NoMemory) => Why::NoMemory,
    }
}

// The last dump, in a world that isn't dead, behind the gate.
fn last_dump<D: Disk, G: Gate>(
    alloc: Global,
    deaf: bool,
    world: &mut World,
    store: &mut Store,
    first: &mut D,
    second: &mut D,
    gate: &G,
) -> Why
    requires alive { (now world.old).dead ≡ false }
    requires idle { (now world.old).dumps.running ≡ None }
    requires knows { Knows store.old world.old }
    requires mounted { D.tells ≡ true → (mounted : ℕ) × Keeps D.seen D.moment D.images D.faults store.old.log first.old second.old mounted world.old }
    ensures dump { HasDump D.tells D.seen D.moment D.images D.faults deaf store.old.log first.old second.old first.new second.new world.old world.new result }
    ensures first_attached { D.attached first.new ≡ D.attached first.old }
    ensures second_attached { D.attached second.new ≡ D.attached second.old }
{
    gate.pass(place::BEFORE_DUMP);
    let answer = dump(alloc, world, 0, store, first, second);
    why_by(deaf, answer)
}

/// What a run comes to, once all parts have returned: where all have seen the stop, the last dump is made by the first party.
pub fn finish<D: Disk, G: Gate>(
    alloc: Global,
    way: Way,
    world: &mut World,
    store: &mut Store,
    first: &mut D,
    second: &mut D,
    gate: &G,
) -> Why
    requires idle { HasStopped way → (now world.old).dumps.running ≡ None }
    requires knows { HasStopped way → Knows store.old world.old }
    requires mounted { HasStopped way → D.tells ≡ true → (mounted : ℕ) × Keeps D.seen D.moment D.images D.faults store.old.log first.old second.old mounted world.old }
    ensures finish { IsFinish D.tells D.seen D.moment D.images D.faults way store.old.log first.old second.old first.new second.new world.old world.new result }
    ensures first_attached { D.attached first.new ≡ D.attached first.old }
    ensures second_attached { D.attached second.new ≡ D.attached second.old }
{
    if world.is_dead() {
        return Why::NoMemory;
    }
    match way {
        Way::Stopped => last_dump(alloc, false, world, store, first, second, gate),
        Way::Deaf => last_dump(alloc, true, world, store, first, second, gate),
        Way::Wanted => {
            world.died(9);
            Why::NoMemory
        }
        Way::Alone => {
            world.died(9);
            Why::NoMemory
        }
        Way::Spent => Why::Spent { turns: MOST },
    }
}
