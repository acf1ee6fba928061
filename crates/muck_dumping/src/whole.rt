// A dump that is made at once.
ghost use Rattle.std.specs.Prelude.{◌≡◌, ◌⊎◌, ◌≤◌, ℕ, true, false, Option, Some, None, IfOk, OnOk, IsSome};
ghost use Rattle.muck_io.specs.Faults.{Rose};
ghost use Rattle.spec_dumps.specs.inner.Holding.{Keeps};
ghost use Rattle.spec_events.specs.Histories.{now};
ghost use Rattle.spec_events.specs.Steps.{may_cut};
ghost use Rattle.muck_dumping.specs.inner.Dumps.{Dumps, HasDumped};
ghost use Rattle.muck_dumping.specs.inner.Between.{IsReady, Knows};

use crate::parts::{begin, end, write};
use crate::store::Store;
use muck_disk::Disk;
use muck_log::LogFault;
use muck_machine::World;
use muck_model::NoMemory;
use std::alloc::Global;

// A dump for which no log could be mounted.
fn dump_unmounted<D: Disk>(
    world: &mut World,
    party: u8,
    store: &Store,
    first: &D,
    second: &D,
    fault: LogFault,
) -> Result<Option<LogFault>, NoMemory>
    requires alive { (now world.old).dead ≡ false }
    requires may { may_cut (now world.old) party ≡ true }
    requires knows { Knows store.now world.old }
    requires unmounted { store.now.log ≡ None }
    ensures happened { HasDumped party world.old world.new result }
    ensures knows { OnOk result (Knows store.now world.new) }
    ensures same { IfOk result (λ o. o ≡ Some fault) }
    ensures kept { (mounted : ℕ) → D.tells ≡ true → fault ≡ LogFault.DiskFault → IsReady D.seen D.moment D.images D.faults store.now.log first.now second.now mounted world.old
        → Dumps D.seen D.moment D.images D.faults store.now.log first.now second.now mounted world.new result }
{
    let Ok(pending) = begin(world, party, store, first, second) else {
        return Err(NoMemory);
    };
    match end(world, party, first, second, pending.number, false) {
        Ok(()) => Ok(Some(fault)),
        Err(NoMemory) => Err(NoMemory),
    }
}

// A dump to the log that is mounted.
fn dump_mounted<D: Disk>(
    world: &mut World,
    party: u8,
    store: &mut Store,
    first: &mut D,
    second: &mut D,
) -> Result<Option<LogFault>, NoMemory>
    requires alive { (now world.old).dead ≡ false }
    requires may { may_cut (now world.old) party ≡ true }
    requires some { IsSome store.old.log }
    requires knows { Knows store.old world.old }
    requires mounted { D.tells ≡ true → (mounted : ℕ) × Keeps D.seen D.moment D.images D.faults store.old.log first.old second.old mounted world.old }
    ensures happened { HasDumped party world.old world.new result }
    ensures knows { OnOk result (Knows store.new world.new) }
    ensures kept { (mounted : ℕ) → D.tells ≡ true → Keeps D.seen D.moment D.images D.faults store.old.log first.old second.old mounted world.old
        → Dumps D.seen D.moment D.images D.faults store.new.log first.new second.new mounted world.new result }
    ensures first_attached { D.attached first.new ≡ D.attached first.old }
    ensures second_attached { D.attached second.new ≡ D.attached second.old }
    ensures first_later { D.faults first.old ≤ D.faults first.new }
    ensures second_later { D.faults second.old ≤ D.faults second.new }
    ensures cause { IfOk result (λ o. o ≡ Some LogFault.DiskFault → Rose (D.faults first.old) (D.faults first.new) ⊎ Rose (D.faults second.old) (D.faults second.new)) }
    ensures apart { IfOk result (λ o. o ≡ Some LogFault.NoMemory → ⊥) }
{
    let Ok(pending) = begin(world, party, store, first, second) else {
        return Err(NoMemory);
    };
    let number = pending.number;
    match write(store, first, second, pending) {
        Ok(()) => match end(world, party, first, second, number, true) {
            Ok(()) => Ok(None),
            Err(NoMemory) => Err(NoMemory),
        },
        Err(fault) => match fault {
            LogFault::NoMemory => {
                world.died(party);
                Err(NoMemory)
            }
            _ => match end(world, party, first, second, number, false) {
                Ok(()) => Ok(Some(fault)),
                Err(NoMemory) => Err(NoMemory),
            },
        },
    }
}

/// Makes a dump of the world at once, with no other entry between its parts; answers the fault for which it failed, and none where it was stored. The log
/// is mounted again before, where it isn't. After `NoMemory` the world is dead.
pub fn dump<D: Disk>(
    alloc: Global,
    world: &mut World,
    party: u8,
    store: &mut Store,
    first: &mut D,
    second: &mut D,
) -> Result<Option<LogFault>, NoMemory>
    requires alive { (now world.old).dead ≡ false }
    requires may { may_cut (now world.old) party ≡ true }
    requires knows { Knows store.old world.old }
    requires mounted { D.tells ≡ true → (mounted : ℕ) × Keeps D.seen D.moment D.images D.faults store.old.log first.old second.old mounted world.old }
    ensures happened { HasDumped party world.old world.new result }
    ensures knows { OnOk result (Knows store.new world.new) }
    ensures kept { (mounted : ℕ) → D.tells ≡ true → Keeps D.seen D.moment D.images D.faults store.old.log first.old second.old mounted world.old
        → Dumps D.seen D.moment D.images D.faults store.new.log first.new second.new mounted world.new result }
    ensures first_attached { D.attached first.new ≡ D.attached first.old }
    ensures second_attached { D.attached second.new ≡ D.attached second.old }
    ensures first_later { D.faults first.old ≤ D.faults first.new }
    ensures second_later { D.faults second.old ≤ D.faults second.new }
    ensures cause { IfOk result (λ o. o ≡ Some LogFault.DiskFault → Rose (D.faults first.old) (D.faults first.new) ⊎ Rose (D.faults second.old) (D.faults second.new)) }
    ensures apart { IfOk result (λ o. o ≡ Some LogFault.NoMemory → ⊥) }
{
    match store.mount(alloc, first, second) {
        Ok(()) => dump_mounted(world, party, store, first, second),
        Err(fault) => match fault {
            LogFault::NoMemory => {
                world.died(party);
                Err(NoMemory)
            }
            _ => dump_unmounted(world, party, store, first, second, fault),
        },
    }
}
