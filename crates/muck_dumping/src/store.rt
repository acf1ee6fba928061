// The log of a store, and the number that its next dump has.
ghost use Rattle.std.specs.Prelude.{◌≡◌, ◌⊎◌, ◌<◌, ◌≤◌, ℕ, true, false, length, List, Option, Some, None, All, OnOk, OnErr, IfErr, IsErrOf, IsSome};
ghost use Rattle.muck_codec.specs.inner.Stored.{IsStored};
ghost use Rattle.muck_io.specs.Faults.{Rose};
ghost use Rattle.muck_log.specs.Store.{LogState, IsMounted};
ghost use Rattle.muck_model.specs.declared.tune.Tune.{Tune};
ghost use Rattle.muck_model.specs.Parameters.{tune_fits};
ghost use Rattle.muck_log.specs.Append.{base_of, payload_of};
ghost use Rattle.muck_store.specs.inner.Changes.{LeavesOut};
ghost use Rattle.muck_store.specs.Forms.{persist, world_batch};
ghost use Rattle.spec_dumps.specs.Fronts.{at_cut};
ghost use Rattle.spec_dumps.specs.inner.Holding.{Keeps};
ghost use Rattle.spec_events.specs.Histories.{History};
ghost use Rattle.spec_live.specs.Objects.{Entry};
ghost use Rattle.muck_dumping.specs.inner.Dumps.{HasRisen, IsMountingFault, Appended};
ghost use Rattle.muck_dumping.specs.inner.Between.{IsReady, IsBatchOf, HoldsThese, GoesByMarks, Knows, base_in, next_number};

use crate::parts::Pending;
use muck_codec::Stored;
use muck_disk::Disk;
use muck_log::{Log, LogFault};
use std::alloc::Global;

/// The most bytes of a file of the store.
pub const FILE_MOST: u64 = 1 << 40;

/// The store of a world: its log, where it is mounted; the number that the next dump has where it isn't; and whether dumps go by the marks of
/// the objects. They do once a dump of this world is stored in the log as it is mounted: what isn't due is then what the log keeps.
#[derive(Drop)]
pub struct Store {
    pub log: Option<Log>,
    pub number: u64,
    pub marks: bool,
}

// Whether the log keeps no more objects than the world has of which the batch is. No world has fewer than it had, so what keeps more isn't of this
// one: that never comes from disks that tell their bytes.
fn is_of_world(log: &Log, pending: &Pending) -> bool
    ensures covers { result ≡ true → length log.now.chosen.held.world.objects ≤ pending.now.size }
    ensures more { result ≡ false → pending.now.size < length log.now.chosen.held.world.objects }
    ensures kept { All IsStored log.now.chosen.held.world.objects }
{
    let kept = log.kept().objects();
    kept.len() <= pending.size as usize
}

impl Store {
    /// The store of a log that was mounted. It knows nothing yet of how the world differs from what the log keeps.
    pub fn new(log: Log) -> Store
        ensures log { result.log ≡ Some log }
        ensures marks { result.marks ≡ false }
    {
        let number = log.next();
        Store {
            log: Some(log),
            number,
            marks: false,
        }
    }

    /// Mounts the log again, where a fault left none. It may be tried as often as one likes, at any time between two dumps.
    #[tactic(auto, unfolding(spec_dumps::specs::Fronts::file_most))]
    pub fn mount<D: Disk>(
        &mut self,
        alloc: Global,
        first: &mut D,
        second: &mut D,
    ) -> Result<(), LogFault>
        ensures some { OnOk result (IsSome self.new.log) }
        ensures none { OnErr result (self.new.log ≡ None) }
        ensures knows { (h : History) → Knows self.old h → Knows self.new h }

        // Nothing is lost by it. What the disks show is no damaged store; it can't be mounted where a count of faults rose since the last note, or
        // memory is wanted.
        ensures keeps { (mounted : ℕ) (h : History) → D.tells ≡ true → Keeps D.seen D.moment D.images D.faults self.old.log first.old second.old mounted h
            → Keeps D.seen D.moment D.images D.faults self.new.log first.new second.new mounted h }
        ensures fault { (mounted : ℕ) (h : History) → D.tells ≡ true → Keeps D.seen D.moment D.images D.faults self.old.log first.old second.old mounted h → IfErr result IsMountingFault }
        ensures risen { (mounted : ℕ) (h : History) → D.tells ≡ true → Keeps D.seen D.moment D.images D.faults self.old.log first.old second.old mounted h
            → IsErrOf result LogFault.DiskFault → HasRisen D.faults first.new second.new h }
        ensures first_attached { D.attached first.new ≡ D.attached first.old }
        ensures second_attached { D.attached second.new ≡ D.attached second.old }
        ensures first_later { D.faults first.old ≤ D.faults first.new }
        ensures second_later { D.faults second.old ≤ D.faults second.new }
        ensures cause { IsErrOf result LogFault.DiskFault → Rose (D.faults first.old) (D.faults first.new) ⊎ Rose (D.faults second.old) (D.faults second.new) }
    {
        if self.log.is_none() {
            self.log = Some(Log::mount(alloc, first, second, FILE_MOST)?);
            self.marks = false;
        }
        Ok(())
    }

    // The number of the next dump.
    pub(crate) fn next(&self) -> u64
        ensures { result ≡ next_number self.now }
    {
        match &self.log {
            Some(log) => log.next(),
            None => self.number,
        }
    }

    // What the next dump may leave out of the records of the world.
    pub(crate) fn base(&self) -> &[Stored]
        ensures { result.now ≡ base_in self.now.log }
    {
        match &self.log {
            Some(log) => log.base(),
            None => &[],
        }
    }

    // Whether the next dump may go by the marks of the objects: a dump of this world is stored in the log, which opens no new generation.
    pub(crate) fn goes_by_marks(&self) -> bool
        ensures { (h : History) → GoesByMarks self.now.marks self.now.log h → result ≡ true → base_in self.now.log ≡ persist (at_cut h.start h.entries).live.objects }
    {
        let Some(log) = &self.log else {
            return false;
        };
        if log.opens_new() {
            return false;
        }
        self.marks
    }

    // The log has to be mounted again, and the next dump has this number.
    fn close(&mut self, number: u64)
        ensures none { self.new.log ≡ None }
        ensures number { self.new.number ≡ number }
    {
        self.number = number;
        self.log = None;
        self.marks = false;
    }

    // Writes the batch of a dump that began, which leaves out what the log keeps. Where that fails the log has to be mounted
    // again; so it has to be where it keeps more objects than the world has.
    pub(crate) fn append<D: Disk>(
        &mut self,
        first: &mut D,
        second: &mut D,
        pending: Pending,
    ) -> Result<(), LogFault>
        requires batch { (objects : List Entry) × (tune : Tune) × IsBatchOf (base_in self.old.log) objects tune pending }
        requires mounted { (log : LogState) → D.tells ≡ true → self.old.log ≡ Some log → IsMounted D.seen D.moment D.images log first.old second.old }
        ensures some { OnOk result (IsSome self.new.log) }
        ensures none { OnErr result (self.new.log ≡ None) }
        ensures number { OnErr result (self.new.number ≡ next_number self.old) }
        ensures marks { (es : List Entry) (tune : Tune) → IsBatchOf (base_in self.old.log) es tune pending → HoldsThese self.new.marks self.new.log es }
        ensures wrote { (log : LogState) (es : List Entry) (tune : Tune) → D.tells ≡ true → self.old.log ≡ Some log → LeavesOut (base_of log) (persist es) pending.batch.records → pending.batch.tune ≡ tune → pending.size ≡ length es
            → tune_fits tune ≡ true → 2 ≤ length es → length log.chosen.held.world.objects ≤ length es
            → Appended D.seen D.moment D.images (payload_of log (world_batch es tune)) (record { objects = persist es; tune = tune }) log self.new.log first.old second.old first.new second.new result }
        ensures stale { self.old.log ≡ None → (result ≡ Err LogFault.Stale) × ((first.new ≡ first.old) × (second.new ≡ second.old)) }
        ensures first_attached { D.attached first.new ≡ D.attached first.old }
        ensures second_attached { D.attached second.new ≡ D.attached second.old }
        ensures first_later { D.faults first.old ≤ D.faults first.new }
        ensures second_later { D.faults second.old ≤ D.faults second.new }
        ensures cause { IsErrOf result LogFault.DiskFault → Rose (D.faults first.old) (D.faults first.new) ⊎ Rose (D.faults second.old) (D.faults second.new) }
    {
        let Some(log) = &mut self.log else {
            return Err(LogFault::Stale);
        };
        let number = log.next();
        if !is_of_world(log, &pending) {
            self.close(number);
            return Err(LogFault::Stale);
        }
        match log.append(first, second, pending.batch) {
            Ok(_) => {
                self.marks = true;
                Ok(())
            }
            Err(fault) => {
                self.close(number);
                Err(fault)
            }
        }
    }
}
