// The three parts of a dump.
ghost use Rattle.std.specs.Prelude.{◌≡◌, ◌⊎◌, ◌≤◌, ℕ, true, false, List, Option, Some, None, IfOk, OnOk, OnErr, IsErrOf, IsSome, Result};
ghost use Rattle.muck_io.specs.Faults.{Rose};
ghost use Rattle.muck_log.specs.File.{after_number};
ghost use Rattle.muck_log.specs.Store.{LogState, IsMounted};
ghost use Rattle.muck_log.specs.declared.fault.LogFault.{LogFault as Fault};
ghost use Rattle.muck_model.specs.declared.event.Event.TheVariants.{Cut, Died};
ghost use Rattle.muck_model.specs.declared.tune.Tune.{Tune};
ghost use Rattle.spec_live.specs.Objects.{Entry as Object};
ghost use Rattle.spec_dumps.specs.Fronts.{at_cut, persisted};
ghost use Rattle.spec_dumps.specs.inner.Holding.{FailedLast, Keeps, Rests};
ghost use Rattle.spec_dumps.specs.Survival.{IsSafe, StandsWhole};
ghost use Rattle.spec_events.specs.World.{runs_dump};
ghost use Rattle.spec_events.specs.Steps.{is_lawful, makes_dumps, may_cut};
ghost use Rattle.spec_events.specs.Histories.{History, now, after, entered, noted};
ghost use Rattle.muck_dumping.specs.inner.Dumps.{note_of, by, ending_event};
ghost use Rattle.muck_dumping.specs.inner.Between.{IsReady, IsBatchOf, IsBatchOfWorld, IsBatchAtCut, HoldsThese, GoesByMarks, Knows, base_in, next_number, IsPending, IsWritten, EndsAs};

use crate::store::Store;
use muck_codec::Batch;
use muck_disk::Disk;
use muck_log::LogFault;
use muck_machine::World;
use muck_model::NoMemory;

/// A dump that began: its number, and what the log is handed.
#[derive(Drop)]
pub struct Pending {
    pub number: u64,
    // One above the highest number of an object, and what of them differs from what is kept.
    pub size: u32,
    pub batch: Batch,
}

// The Cut of a dump. It looks at what is due alone, where what isn't is kept by the log and the next batch stands on that; else at each object.
fn cut(world: &mut World, party: u8, store: &Store) -> Result<Pending, NoMemory>
    requires alive { (now world.old).dead ≡ false }
    requires lawful { is_lawful (now world.old) (by party (Cut (next_number store.now))) ≡ true }
    requires marks { GoesByMarks store.now.marks store.now.log world.old }
    ensures number { IfOk result (λ p. p.number ≡ next_number store.now) }
    ensures batch { IfOk result (λ p. IsBatchOfWorld (base_in store.now.log) (now world.old) p) }
    ensures step { IfOk result (λ p. world.new ≡ entered world.old (by party (Cut p.number))) }
    ensures died { OnErr result (world.new ≡ entered world.old (by party Died)) }
{
    let number = store.next();
    let size = world.size();
    let base = store.base();
    let batch = if store.goes_by_marks() {
        world.cut(party, number, base)?
    } else {
        world.cut_full(party, number, base)?
    };
    Ok(Pending {
        number,
        size,
        batch,
    })
}

/// A dump begins in the world: a note, and its Cut. Its number is one more than that of the store, or that of the dump before, which failed, where no log
/// is mounted. The world may go on then, and its batch is to be written, where a log is mounted. It copies what
/// differs from what the log keeps, all where none is mounted or where the next batch opens a new generation. It looks at what is due alone, where a dump of this
/// world is stored in the log; else it compares each object. After `NoMemory` the world is dead.
pub fn begin<D: Disk>(
    world: &mut World,
    party: u8,
    store: &Store,
    first: &D,
    second: &D,
) -> Result<Pending, NoMemory>
    requires alive { (now world.old).dead ≡ false }
    requires may { may_cut (now world.old) party ≡ true }
    requires knows { Knows store.now world.old }
    ensures step { IfOk result (λ p. world.new ≡ entered (noted world.old (note_of D.moment D.faults first.now second.now world.old)) (by party (Cut p.number))) }
    ensures died { OnErr result (world.new ≡ entered (noted world.old (note_of D.moment D.faults first.now second.now world.old)) (by party Died)) }
    ensures number { IfOk result (λ p. p.number ≡ next_number store.now) }
    ensures batch { IfOk result (λ p. IsBatchAtCut (base_in store.now.log) world.new p) }

    // Then a dump of the world at its Cut is pending.
    ensures pending { (mounted : ℕ) → D.tells ≡ true → IsReady D.seen D.moment D.images D.faults store.now.log first.now second.now mounted world.old
        → IfOk result (λ p. IsPending D.seen D.moment D.images D.faults store.now.log first.now second.now mounted world.new p) }
    ensures safe { (mounted : ℕ) → D.tells ≡ true → Keeps D.seen D.moment D.images D.faults store.now.log first.now second.now mounted world.old
        → OnErr result (IsSafe D.moment D.images D.faults first.now second.now world.new.start mounted world.new.entries world.new.notes) }
{
    world.note(first, second);
    cut(world, party, store)
}

/// Its batch is written, without the world. Where that fails the log has to be mounted again; `Stale` says that it had to be before, since none was or
/// since what it keeps isn't of this world, and then nothing was done.
pub fn write<D: Disk>(
    store: &mut Store,
    first: &mut D,
    second: &mut D,
    pending: Pending,
) -> Result<(), LogFault>
    requires batch { (objects : List Object) × (tune : Tune) × IsBatchOf (base_in store.old.log) objects tune pending }
    requires mounted { (log : LogState) → D.tells ≡ true → store.old.log ≡ Some log → IsMounted D.seen D.moment D.images log first.old second.old }
    ensures some { OnOk result (IsSome store.new.log) }
    ensures none { OnErr result (store.new.log ≡ None) }
    ensures number { OnErr result (store.new.number ≡ next_number store.old) }
    ensures marks { (objects : List Object) (tune : Tune) → IsBatchOf (base_in store.old.log) objects tune pending → HoldsThese store.new.marks store.new.log objects }
    ensures written { (mounted : ℕ) (h : History) → D.tells ≡ true → IsPending D.seen D.moment D.images D.faults store.old.log first.old second.old mounted h pending
        → IsWritten D.seen D.moment D.images D.faults store.new.log first.new second.new mounted h result }
    ensures stale { (mounted : ℕ) (h : History) → D.tells ≡ true → IsPending D.seen D.moment D.images D.faults store.old.log first.old second.old mounted h pending
        → IsErrOf result LogFault.Stale → store.old.log ≡ None }
    ensures first_attached { D.attached first.new ≡ D.attached first.old }
    ensures second_attached { D.attached second.new ≡ D.attached second.old }
    ensures first_later { D.faults first.old ≤ D.faults first.new }
    ensures second_later { D.faults second.old ≤ D.faults second.new }
    ensures cause { IsErrOf result LogFault.DiskFault → Rose (D.faults first.old) (D.faults first.new) ⊎ Rose (D.faults second.old) (D.faults second.new) }
{
    store.append(first, second, pending)
}

/// The dump of this number ends in the world: a note, and that it is stored, or that it failed. Who asked for it is told. After `NoMemory` the world
/// is dead.
pub fn end<D: Disk>(
    world: &mut World,
    party: u8,
    first: &D,
    second: &D,
    number: u64,
    stored: bool,
) -> Result<(), NoMemory>
    requires alive { (now world.old).dead ≡ false }
    requires makes { makes_dumps party ≡ true }
    requires runs { runs_dump number (now world.old).dumps ≡ true }
    ensures step { OnOk result (world.new ≡ entered (noted world.old (note_of D.moment D.faults first.now second.now world.old)) (by party (ending_event number stored))) }
    ensures last { stored ≡ false → OnOk result (FailedLast number world.new) }
    ensures died { OnErr result (world.new ≡ entered (noted world.old (note_of D.moment D.faults first.now second.now world.old)) (by party Died)) }

    // It is told as it was.
    ensures rests { (mounted : ℕ) (log : Option LogState) (r : Result (Unit {0}) Fault) → D.tells ≡ true → IsWritten D.seen D.moment D.images D.faults log first.now second.now mounted world.old r → EndsAs r stored
        → OnOk result (Rests D.seen D.moment D.images D.faults log first.now second.now mounted world.new) }
    ensures safe { (mounted : ℕ) (log : Option LogState) (r : Result (Unit {0}) Fault) → D.tells ≡ true → IsWritten D.seen D.moment D.images D.faults log first.now second.now mounted world.old r
        → OnErr result (IsSafe D.moment D.images D.faults first.now second.now world.new.start mounted world.new.entries world.new.notes) }
{
    world.note(first, second);
    if stored {
        world.stored(party, number)
    } else {
        world.dump_failed(party, number)
    }
}
