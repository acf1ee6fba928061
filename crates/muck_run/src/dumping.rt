// The dumps of a run.
ghost use Rattle.std.specs.Prelude.{◌≡◌, ◌⊎◌, ◌≤◌, ℕ, true, false, List, Option, Some, None, IfOk, OnOk, OnErr};
ghost use Rattle.muck_io.specs.Faults.{Rose};
ghost use Rattle.spec_dumps.specs.inner.Holding.{Rests};
ghost use Rattle.spec_events.specs.Histories.{now};
ghost use Rattle.muck_dumping.specs.inner.Between.{Knows};
ghost use Rattle.muck_script.specs.Story.{dump_part};
ghost use Rattle.muck_run.specs.inner.Dumps.{Dumps, DumpsLast, ComesOut, IsNotedOn};
ghost use Rattle.muck_run.specs.inner.Plays.{PlaysOrBreaks};

use crate::playing::RunFault;
use muck_disk::Disk;
use muck_dumping::World;
pub use muck_dumping::{FILE_MOST, Store};
use muck_log::LogFault;
use muck_model::NoMemory;
use std::alloc::Global;

// The party that makes the dumps of a script.
const PORTER: u8 = 0;

/// Makes a dump of the world; answers the fault for which it failed, and none where it was stored. After `NoMemory` the world is
/// dead.
pub fn dump<D: Disk>(
    alloc: Global,
    world: &mut World,
    store: &mut Store,
    first: &mut D,
    second: &mut D,
) -> Result<Option<LogFault>, RunFault>
    requires alive { (now world.old).dead ≡ false }
    requires idle { (now world.old).dumps.running ≡ None }
    requires knows { Knows store.old world.old }
    requires mounted { D.tells ≡ true → (mounted : ℕ) × Rests D.seen D.moment D.images D.faults store.old.log first.old second.old mounted world.old }
    ensures plays { (o : Option (List ℕ)) → PlaysOrBreaks dump_part world.old world.new o o result }
    ensures last { DumpsLast world.old world.new }
    ensures outcome { IfOk result (ComesOut world.old world.new) }
    ensures notes { IsNotedOn world.old world.new }
    ensures memory { OnErr result (result ≡ Err RunFault.NoMemory) }
    ensures idle { OnOk result ((now world.new).dumps.running ≡ None) }
    ensures knows { OnOk result (Knows store.new world.new) }
    ensures kept { (mounted : ℕ) → D.tells ≡ true → Rests D.seen D.moment D.images D.faults store.old.log first.old second.old mounted world.old
        → Dumps D.seen D.moment D.images D.faults store.new.log first.new second.new mounted world.new result }
    ensures first_later { D.faults first.old ≤ D.faults first.new }
    ensures second_later { D.faults second.old ≤ D.faults second.new }
    ensures cause { IfOk result (λ o. o ≡ Some LogFault.DiskFault → Rose (D.faults first.old) (D.faults first.new) ⊎ Rose (D.faults second.old) (D.faults second.new)) }
    ensures apart { IfOk result (λ o. o ≡ Some LogFault.NoMemory → ⊥) }
    ensures first_attached { D.attached first.new ≡ D.attached first.old }
    ensures second_attached { D.attached second.new ≡ D.attached second.old }
{
    match muck_dumping::dump(alloc, world, PORTER, store, first, second) {
        Ok(outcome) => Ok(outcome),
        Err(NoMemory) => Err(RunFault::NoMemory),
    }
}
