// The dumper at the lock.
ghost use Rattle.std.specs.Prelude.{◌≡◌, ◌≤◌, ◌^◌, ℕ, true, false, Some, None, Option, Result, IfOk, OnOk, OnErr, IfErr, length, if◌then◌else◌};
ghost use Rattle.muck_log.specs.Store.{LogState};
ghost use Rattle.muck_log.specs.declared.fault.LogFault.{LogFault as Answer};
ghost use Rattle.muck_model.specs.declared.event.Event.TheVariants.{Died};
ghost use Rattle.spec_dumps.specs.inner.Holding.{FailedLast, Keeps, Rests as HasRests};
ghost use Rattle.spec_dumps.specs.Survival.{IsSafe};
ghost use Rattle.spec_events.specs.Histories.{History, now, entered};
ghost use Rattle.spec_events.specs.Own.{Stage, died_next};
ghost use Rattle.spec_events.specs.World.{runs_dump};
ghost use Rattle.muck_work.specs.inner.Seats.{Rests, Left, Waited};
ghost use Rattle.muck_dumping.specs.inner.Dumps.{by, ending_event};
ghost use Rattle.muck_dumping.specs.inner.Between.{IsReady, IsBatchAtCut, GoesByMarks, Knows, base_in, next_number, IsPending, IsWritten, EndsAs};
ghost use Rattle.muck_dumper.specs.inner.Dumping.{history_seen};
ghost use Rattle.muck_dumper.specs.inner.Steps.{Step, Stops, Settles, Watches, Watched};

use crate::deeds::{DUMPER, Did, Task, finishes, watches};
use muck_disk::Disk;
use muck_dumping::{Pending, Store, write};
use muck_io::{Gate, Rest};
use muck_log::LogFault;
use muck_work::{World, gives, takes};
use std::alloc::Global;
use std::sync::Wait;
use turn_lock::{Spent, Turn, TurnSeat};

/// Why the dumper stopped in the midst of something.
#[derive(Drop)]
pub enum Fault {
    NoMemory,
    Spent,
}

// A turn where no dump runs.
pub(crate) fn watch_turn<W: Wait, D: Disk, G: Gate, R: Rest>(
    rt: &W,
    turn: &Turn<World>,
    seat: &mut TurnSeat<World>,
    task: Task,
    store: &Store,
    first: &D,
    second: &D,
    gate: &G,
    rest: &R,
) -> Result<Did, Spent>
    requires own { seat.old.table_id ≡ turn.now.table.shared.table_id }
    requires rests { Rests 9 seat.old.me }
    requires idle { (now (history_seen seat.old.me.0)).dumps.running ≡ None }
    requires knows { Knows store.now (history_seen seat.old.me.0) }
    ensures own { (seat.new.table_id ≡ seat.old.table_id) × (seat.new.id ≡ seat.old.id) }
    ensures ok { IfOk result (λ did. Watched D.tells D.seen D.moment D.images D.faults store.now first.now second.now did seat.old.me seat.new.me) }
    ensures err { OnErr result (Left 9 seat.new.me × Waited seat.old.me.0 seat.new.me.0 × (2 ^ 62 ≤ length seat.new.me.0.seen)) }
{
    let held = takes(rt, turn, seat, rest)?;
    let mut held = held;
    let did = watches(&mut held.state, task, store, first, second, gate);
    gives(turn, seat, held, rest);
    Ok(did)
}

// A turn in which a dump ends.
fn finish_turn<W: Wait, D: Disk, R: Rest>(
    rt: &W,
    turn: &Turn<World>,
    seat: &mut TurnSeat<World>,
    first: &D,
    second: &D,
    rest: &R,
    number: u64,
    stored: bool,
) -> Result<bool, Spent>
    requires own { seat.old.table_id ≡ turn.now.table.shared.table_id }
    requires rests { Rests 9 seat.old.me }
    requires runs { runs_dump number (now (history_seen seat.old.me.0)).dumps ≡ true }
    ensures own { (seat.new.table_id ≡ seat.old.table_id) × (seat.new.id ≡ seat.old.id) }
    ensures ok { IfOk result (λ told. Step (if told then ending_event number stored else Died) seat.old.me seat.new.me) }
    ensures idle { IfOk result (λ told. told ≡ true → (now (history_seen seat.new.me.0)).dumps.running ≡ None) }
    ensures last { stored ≡ false → IfOk result (λ told. told ≡ true → FailedLast number (history_seen seat.new.me.0)) }
    ensures rests { (mounted : ℕ) (log : Option LogState) (r : Result (Unit {0}) Answer) → D.tells ≡ true → IsWritten D.seen D.moment D.images D.faults log first.now second.now mounted (history_seen seat.old.me.0) r → EndsAs r stored
        → IfOk result (λ told. told ≡ true → HasRests D.seen D.moment D.images D.faults log first.now second.now mounted (history_seen seat.new.me.0)) }
    ensures safe { (mounted : ℕ) (log : Option LogState) (r : Result (Unit {0}) Answer) → D.tells ≡ true → IsWritten D.seen D.moment D.images D.faults log first.now second.now mounted (history_seen seat.old.me.0) r
        → IfOk result (λ told. told ≡ false → IsSafe D.moment D.images D.faults first.now second.now (history_seen seat.new.me.0).start mounted (history_seen seat.new.me.0).entries (history_seen seat.new.me.0).notes) }
    ensures err { OnErr result (Left 9 seat.new.me × Waited seat.old.me.0 seat.new.me.0 × (2 ^ 62 ≤ length seat.new.me.0.seen)) }
{
    let held = takes(rt, turn, seat, rest)?;
    let mut held = held;
    let told = finishes(&mut held.state, first, second, number, stored);
    gives(turn, seat, held, rest);
    Ok(told)
}

// A turn in which it tells that memory was wanted outside of the world.
fn die_turn<W: Wait, R: Rest>(
    rt: &W,
    turn: &Turn<World>,
    seat: &mut TurnSeat<World>,
    rest: &R,
) -> Result<(), Spent>
    requires own { seat.old.table_id ≡ turn.now.table.shared.table_id }
    requires rests { Rests 9 seat.old.me }
    ensures own { (seat.new.table_id ≡ seat.old.table_id) × (seat.new.id ≡ seat.old.id) }
    ensures ok { OnOk result ((s : Step Died seat.old.me seat.new.me) × (history_seen seat.new.me.0 ≡ entered s.world (by 9 Died))) }
    ensures err { OnErr result (Left 9 seat.new.me × Waited seat.old.me.0 seat.new.me.0 × (2 ^ 62 ≤ length seat.new.me.0.seen)) }
{
    let held = takes(rt, turn, seat, rest)?;
    let mut held = held;
    held.state.died(DUMPER);
    gives(turn, seat, held, rest);
    Ok(())
}

// Memory was wanted outside of the world, and the dumper says so there.
fn dies<W: Wait, D: Disk, R: Rest>(
    rt: &W,
    turn: &Turn<World>,
    seat: &mut TurnSeat<World>,
    first: &D,
    second: &D,
    rest: &R,
) -> Fault
    requires own { seat.old.table_id ≡ turn.now.table.shared.table_id }
    requires rests { Rests 9 seat.old.me }
    ensures own { (seat.new.table_id ≡ seat.old.table_id) × (seat.new.id ≡ seat.old.id) }
    ensures stops { (log : Option LogState) (from : Stage) → died_next from ≡ Some Stage.ended
        → Stops D.tells D.moment D.images D.faults first.now second.now result from (λ mounted. Keeps D.seen D.moment D.images D.faults log first.now second.now mounted (history_seen seat.old.me.0)) seat.old.me seat.new.me }
{
    match die_turn(rt, turn, seat, rest) {
        Ok(()) => Fault::NoMemory,
        Err(_) => Fault::Spent,
    }
}

// The dump that was handed to the log ends.
fn ends<W: Wait, D: Disk, R: Rest>(
    rt: &W,
    turn: &Turn<World>,
    seat: &mut TurnSeat<World>,
    store: &Store,
    first: &D,
    second: &D,
    rest: &R,
    number: u64,
    stored: bool,
) -> Result<(), Fault>
    requires own { seat.old.table_id ≡ turn.now.table.shared.table_id }
    requires rests { Rests 9 seat.old.me }
    requires runs { runs_dump number (now (history_seen seat.old.me.0)).dumps ≡ true }
    ensures own { (seat.new.table_id ≡ seat.old.table_id) × (seat.new.id ≡ seat.old.id) }
    ensures marks { GoesByMarks store.now.marks store.now.log (history_seen seat.old.me.0) → OnOk result (GoesByMarks store.now.marks store.now.log (history_seen seat.new.me.0)) }
    ensures last { stored ≡ false → OnOk result (FailedLast number (history_seen seat.new.me.0)) }
    ensures ok { (r : Result (Unit {0}) Answer) → EndsAs r stored → OnOk result (Settles D.tells D.seen D.moment D.images D.faults store.now.log first.now second.now (Stage.dumping number)
        (λ mounted. IsWritten D.seen D.moment D.images D.faults store.now.log first.now second.now mounted (history_seen seat.old.me.0) r) seat.old.me seat.new.me) }
    ensures err { (r : Result (Unit {0}) Answer) → EndsAs r stored → IfErr result (λ fault. Stops D.tells D.moment D.images D.faults first.now second.now fault (Stage.dumping number)
        (λ mounted. IsWritten D.seen D.moment D.images D.faults store.now.log first.now second.now mounted (history_seen seat.old.me.0) r) seat.old.me seat.new.me) }
{
    match finish_turn(rt, turn, seat, first, second, rest, number, stored) {
        Ok(true) => Ok(()),
        Ok(false) => Err(Fault::NoMemory),
        Err(_) => Err(Fault::Spent),
    }
}

// The log is mounted again, behind a dump that failed. Where a disk fails at that it is tried behind the next one.
fn mounts<W: Wait, D: Disk, R: Rest>(
    rt: &W,
    alloc: Global,
    turn: &Turn<World>,
    seat: &mut TurnSeat<World>,
    store: &mut Store,
    first: &mut D,
    second: &mut D,
    rest: &R,
) -> Result<(), Fault>
    requires own { seat.old.table_id ≡ turn.now.table.shared.table_id }
    requires rests { Rests 9 seat.old.me }
    ensures own { (seat.new.table_id ≡ seat.old.table_id) × (seat.new.id ≡ seat.old.id) }
    ensures same { OnOk result (seat.new.me ≡ seat.old.me) }
    ensures knows { (h : History) → Knows store.old h → Knows store.new h }
    ensures ready { (mounted : ℕ) (h : History) → D.tells ≡ true → Keeps D.seen D.moment D.images D.faults store.old.log first.old second.old mounted h
        → OnOk result (IsReady D.seen D.moment D.images D.faults store.new.log first.new second.new mounted h) }
    ensures err { IfErr result (λ fault. Stops D.tells D.moment D.images D.faults first.new second.new fault Stage.unbound
        (λ mounted. Keeps D.seen D.moment D.images D.faults store.old.log first.old second.old mounted (history_seen seat.old.me.0)) seat.old.me seat.new.me) }
    ensures first_later { D.faults first.old ≤ D.faults first.new }
    ensures second_later { D.faults second.old ≤ D.faults second.new }
    ensures first_attached { D.attached first.new ≡ D.attached first.old }
    ensures second_attached { D.attached second.new ≡ D.attached second.old }
{
    match store.mount(alloc, first, second) {
        Ok(()) => Ok(()),
        Err(fault) => match fault {
            LogFault::NoMemory => Err(dies(rt, turn, seat, first, second, rest)),
            _ => Ok(()),
        },
    }
}

// The dump ends as one that failed, and the log is mounted again.
fn fails<W: Wait, D: Disk, R: Rest>(
    rt: &W,
    alloc: Global,
    turn: &Turn<World>,
    seat: &mut TurnSeat<World>,
    store: &mut Store,
    first: &mut D,
    second: &mut D,
    rest: &R,
    number: u64,
) -> Result<(), Fault>
    requires own { seat.old.table_id ≡ turn.now.table.shared.table_id }
    requires rests { Rests 9 seat.old.me }
    requires runs { runs_dump number (now (history_seen seat.old.me.0)).dumps ≡ true }
    ensures own { (seat.new.table_id ≡ seat.old.table_id) × (seat.new.id ≡ seat.old.id) }
    ensures knows { GoesByMarks store.old.marks store.old.log (history_seen seat.old.me.0) → store.old.number ≡ number → OnOk result (Knows store.new (history_seen seat.new.me.0)) }
    ensures ok { (r : Result (Unit {0}) Answer) → EndsAs r false → OnOk result (Watches D.tells D.seen D.moment D.images D.faults store.new.log first.new second.new (Stage.dumping number)
        (λ mounted. IsWritten D.seen D.moment D.images D.faults store.old.log first.old second.old mounted (history_seen seat.old.me.0) r) seat.old.me seat.new.me) }
    ensures err { (r : Result (Unit {0}) Answer) → EndsAs r false → IfErr result (λ fault. Stops D.tells D.moment D.images D.faults first.new second.new fault (Stage.dumping number)
        (λ mounted. IsWritten D.seen D.moment D.images D.faults store.old.log first.old second.old mounted (history_seen seat.old.me.0) r) seat.old.me seat.new.me) }
    ensures first_later { D.faults first.old ≤ D.faults first.new }
    ensures second_later { D.faults second.old ≤ D.faults second.new }
    ensures first_attached { D.attached first.new ≡ D.attached first.old }
    ensures second_attached { D.attached second.new ≡ D.attached second.old }
{
    ends(rt, turn, seat, store, first, second, rest, number, false)?;
    mounts(rt, alloc, turn, seat, store, first, second, rest)
}

/// The batch of a dump that began is written, while others go on, and the dump ends. Where it failed the log is mounted again.
pub(crate) fn makes<W: Wait, D: Disk, R: Rest>(
    rt: &W,
    alloc: Global,
    turn: &Turn<World>,
    seat: &mut TurnSeat<World>,
    store: &mut Store,
    first: &mut D,
    second: &mut D,
    rest: &R,
    pending: Pending,
) -> Result<(), Fault>
    requires own { seat.old.table_id ≡ turn.now.table.shared.table_id }
    requires rests { Rests 9 seat.old.me }
    requires runs { runs_dump pending.number (now (history_seen seat.old.me.0)).dumps ≡ true }
    requires number { pending.number ≡ next_number store.old }
    requires batch { IsBatchAtCut (base_in store.old.log) (history_seen seat.old.me.0) pending }
    requires mounted { D.tells ≡ true → (mounted : ℕ) × IsPending D.seen D.moment D.images D.faults store.old.log first.old second.old mounted (history_seen seat.old.me.0) pending }
    ensures own { (seat.new.table_id ≡ seat.old.table_id) × (seat.new.id ≡ seat.old.id) }
    ensures knows { OnOk result (Knows store.new (history_seen seat.new.me.0)) }
    ensures ok { OnOk result (Watches D.tells D.seen D.moment D.images D.faults store.new.log first.new second.new (Stage.dumping pending.number)
        (λ mounted. IsPending D.seen D.moment D.images D.faults store.old.log first.old second.old mounted (history_seen seat.old.me.0) pending) seat.old.me seat.new.me) }
    ensures err { IfErr result (λ fault. Stops D.tells D.moment D.images D.faults first.new second.new fault (Stage.dumping pending.number)
        (λ mounted. IsPending D.seen D.moment D.images D.faults store.old.log first.old second.old mounted (history_seen seat.old.me.0) pending) seat.old.me seat.new.me) }
    ensures first_later { D.faults first.old ≤ D.faults first.new }
    ensures second_later { D.faults second.old ≤ D.faults second.new }
    ensures first_attached { D.attached first.new ≡ D.attached first.old }
    ensures second_attached { D.attached second.new ≡ D.attached second.old }
{
    let number = pending.number;
    match write(store, first, second, pending) {
        Ok(()) => ends(rt, turn, seat, store, first, second, rest, number, true),
        Err(fault) => match fault {
            LogFault::NoMemory => Err(dies(rt, turn, seat, first, second, rest)),
            _ => fails(rt, alloc, turn, seat, store, first, second, rest, number),
        },
    }
}
