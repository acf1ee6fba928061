// Dumps of the world.
ghost use Rattle.std.specs.Prelude.{◌≡◌, true, false, is_some, length, All, IfOk, OnOk, OnErr};
ghost use Rattle.muck_codec.specs.inner.Stored.{IsStored};
ghost use Rattle.muck_model.specs.declared.event.Event.{Event};
ghost use Rattle.spec_live.specs.Consistent.{IsConsistent};
ghost use Rattle.muck_db.specs.inner.Limits.{IsWithinLimits};
ghost use Rattle.muck_store.specs.inner.Changes.{LeavesOut, KeepsUndue};
ghost use Rattle.muck_store.specs.Forms.{persist};
ghost use Rattle.muck_model.specs.Parameters.{IsInRange};
ghost use Rattle.spec_events.specs.Steps.{is_lawful};
ghost use Rattle.spec_events.specs.Histories.{now, entered, noted};

use crate::world::World;
use muck_codec::{Batch, Stored};
use muck_disk::Disk;
use muck_model::{Entry, Event, NoMemory};
use std::marker::Brand;

impl World {
    /// What both disks have counted is noted behind the entries so far, for contracts alone. It takes no memory.
    pub fn note<D: Disk>(&mut self, first: &D, second: &D)
        ensures { self.new ≡ noted self.old (record { entries = length self.old.entries; first_moment = D.moment first.now; second_moment = D.moment second.now; first_faults = D.faults first.now; second_faults = D.faults second.now }) }
    {
        self.past.note::<Brand, D>(first, second);
    }

    /// Whether a dump is asked. On a dead world nothing is said of the answer.
    pub fn dump_asked(&self) -> bool
        ensures { (now self.now).dead ≡ false → result ≡ is_some (now self.now).dumps.asked }
    {
        let state = &self.state;
        state.dumps.is_asked()
    }

    /// One above the highest number of an object. On a dead world nothing is said of it. It takes no memory.
    pub fn size(&self) -> u32
        ensures { (now self.now).dead ≡ false → result ≡ length (now self.now).live.objects }
    {
        let state = &self.state;
        state.db.count()
    }

    /// A dump of this number begins: what it hands to the log, over what is kept already. The records leave out what is kept so,
    /// and each has a spelling. The world is consistent then, every object within the limits, and what is tuned in its range. It
    /// goes by the marks of the objects, since what isn't due is kept: it looks at what is due alone. After `NoMemory` the world is dead.
    pub fn cut(&mut self, party: u8, k: u64, base: &[Stored]) -> Result<Batch, NoMemory>
        requires lawful { is_lawful (now self.old) (record { party = party; event = Event.Cut k }) ≡ true }
        requires kept { KeepsUndue base.now (now self.old).live.objects }
        ensures records { IfOk result (λ batch. LeavesOut base.now (persist (now self.old).live.objects) batch.records) }
        ensures storable { IfOk result (λ batch. All IsStored batch.records) }
        ensures tune { IfOk result (λ batch. batch.tune ≡ (now self.old).live.board.tune) }
        ensures consistent { OnOk result (IsConsistent (now self.old).live.objects) }
        ensures limits { OnOk result (IsWithinLimits (now self.old).live.objects) }
        ensures tuned { OnOk result (IsInRange (now self.old).live.board.tune) }
        ensures step { OnOk result (self.new ≡ entered self.old (record { party = party; event = Event.Cut k })) }
        ensures died { OnErr result (self.new ≡ entered self.old (record { party = party; event = Event.Died })) }
    {
        self.begin_dump(party, k, base, true)
    }

    /// The same over whatever is kept: it compares every object with that, and copies only those that differ.
    pub fn cut_full(&mut self, party: u8, k: u64, base: &[Stored]) -> Result<Batch, NoMemory>
        requires { is_lawful (now self.old) (record { party = party; event = Event.Cut k }) ≡ true }
        ensures records { IfOk result (λ batch. LeavesOut base.now (persist (now self.old).live.objects) batch.records) }
        ensures storable { IfOk result (λ batch. All IsStored batch.records) }
        ensures tune { IfOk result (λ batch. batch.tune ≡ (now self.old).live.board.tune) }
        ensures consistent { OnOk result (IsConsistent (now self.old).live.objects) }
        ensures limits { OnOk result (IsWithinLimits (now self.old).live.objects) }
        ensures tuned { OnOk result (IsInRange (now self.old).live.board.tune) }
        ensures step { OnOk result (self.new ≡ entered self.old (record { party = party; event = Event.Cut k })) }
        ensures died { OnErr result (self.new ≡ entered self.old (record { party = party; event = Event.Died })) }
    {
        self.begin_dump(party, k, base, false)
    }

    // For contracts alone: a world that isn't dead is consistent, every object is within the limits, and what is tuned in its range.
    fn judge(&self)
        ensures consistent { (now self.now).dead ≡ false → IsConsistent (now self.now).live.objects }
        ensures limits { (now self.now).dead ≡ false → IsWithinLimits (now self.now).live.objects }
        ensures tuned { (now self.now).dead ≡ false → IsInRange (now self.now).live.board.tune }
    {
        let state = &self.state;
        let _count = state.db.count();
    }

    // A dump of this number begins, by the marks or by a look at each object.
    fn begin_dump(
        &mut self,
        party: u8,
        k: u64,
        base: &[Stored],
        by_marks: bool,
    ) -> Result<Batch, NoMemory>
        requires lawful { is_lawful (now self.old) (record { party = party; event = Event.Cut k }) ≡ true }
        requires kept { by_marks ≡ true → KeepsUndue base.now (now self.old).live.objects }
        ensures records { IfOk result (λ batch. LeavesOut base.now (persist (now self.old).live.objects) batch.records) }
        ensures storable { IfOk result (λ batch. All IsStored batch.records) }
        ensures tune { IfOk result (λ batch. batch.tune ≡ (now self.old).live.board.tune) }
        ensures consistent { OnOk result (IsConsistent (now self.old).live.objects) }
        ensures limits { OnOk result (IsWithinLimits (now self.old).live.objects) }
        ensures tuned { OnOk result (IsInRange (now self.old).live.board.tune) }
        ensures step { OnOk result (self.new ≡ entered self.old (record { party = party; event = Event.Cut k })) }
        ensures died { OnErr result (self.new ≡ entered self.old (record { party = party; event = Event.Died })) }
    {
        self.judge();
        let Ok(batch) = self.state.begin_dump(k, base, by_marks) else {
            self.past.lose(party);
            return Err(NoMemory);
        };
        self.past.enter(Entry {
            party,
            event: Event::Cut { k },
        });
        Ok(batch)
    }

    /// The dump of this number is stored: who asked for it is told so. After `NoMemory` the world is dead.
    pub fn stored(&mut self, party: u8, k: u64) -> Result<(), NoMemory>
        requires { is_lawful (now self.old) (record { party = party; event = Event.Stored k }) ≡ true }
        ensures step { OnOk result (self.new ≡ entered self.old (record { party = party; event = Event.Stored k })) }
        ensures died { OnErr result (self.new ≡ entered self.old (record { party = party; event = Event.Died })) }
    {
        let done = self.state.end_dump(k, true);
        let entry = Entry {
            party,
            event: Event::Stored { k },
        };
        self.past.conclude(entry, done)
    }

    /// The dump of this number failed: who asked for it is told so. After `NoMemory` the world is dead.
    pub fn dump_failed(&mut self, party: u8, k: u64) -> Result<(), NoMemory>
        requires { is_lawful (now self.old) (record { party = party; event = Event.DumpFailed k }) ≡ true }
        ensures step { OnOk result (self.new ≡ entered self.old (record { party = party; event = Event.DumpFailed k })) }
        ensures died { OnErr result (self.new ≡ entered self.old (record { party = party; event = Event.Died })) }
    {
        let done = self.state.end_dump(k, false);
        let entry = Entry {
            party,
            event: Event::DumpFailed { k },
        };
        self.past.conclude(entry, done)
    }
}
