// Dumps that begin and end.
ghost use Rattle.std.specs.Prelude.{◌≡◌, true, All, IfOk, OnOk, if◌then◌else◌};
ghost use Rattle.muck_codec.specs.inner.Stored.{IsStored};
ghost use Rattle.muck_model.specs.declared.event.Event.{Event};
ghost use Rattle.muck_store.specs.inner.Changes.{LeavesOut, KeepsUndue};
ghost use Rattle.muck_store.specs.Forms.{persist};
ghost use Rattle.spec_live.specs.Saving.{pending, all_saving};
ghost use Rattle.spec_events.specs.World.{on_dumps, on_live, askers_of, dump_over};
ghost use Rattle.spec_events.specs.Dumping.{told_each, resaved};
ghost use Rattle.spec_events.specs.Steps.{happened};

use crate::state::State;
use muck_codec::{Batch, Stored};
use muck_model::NoMemory;
use spec_events::dump_stored;

impl State {
    /// The dump of this number begins, for the connections that ask now: what it hands to the log, over what is kept already. It goes by
    /// the marks of the objects, where what isn't due is kept; else it looks at each object. Where memory is wanted nothing happened.
    pub fn begin_dump(&mut self, k: u64, base: &[Stored], by_marks: bool) -> Result<Batch, NoMemory>
        requires { by_marks ≡ true → KeepsUndue base.now self.old.live.objects }
        ensures records { IfOk result (λ batch. LeavesOut base.now (persist self.old.live.objects) batch.records) }
        ensures storable { IfOk result (λ batch. All IsStored batch.records) }
        ensures tune { IfOk result (λ batch. batch.tune ≡ self.old.live.board.tune) }
        ensures step { OnOk result (self.new ≡ happened self.old 0 (Event.Cut k)) }
    {
        let batch = self.batch(base, by_marks)?;
        self.dumps.begin(self.alloc, k, self.moment);
        Ok(batch)
    }

    // What a dump hands to the log, by the marks or by a look at each object. What was due is pending then.
    fn batch(&mut self, base: &[Stored], by_marks: bool) -> Result<Batch, NoMemory>
        requires { by_marks ≡ true → KeepsUndue base.now self.old.live.objects }
        ensures records { IfOk result (λ batch. LeavesOut base.now (persist self.old.live.objects) batch.records) }
        ensures storable { IfOk result (λ batch. All IsStored batch.records) }
        ensures tune { IfOk result (λ batch. batch.tune ≡ self.old.live.board.tune) }
        ensures step { OnOk result (self.new ≡ on_live (resaved pending) self.old) }
    {
        let tune = self.board.tune();
        if by_marks {
            self.db.cut(self.alloc, base, &tune)
        } else {
            self.db.full(self.alloc, base, &tune)
        }
    }

    /// The dump that runs is over: who asked for it is told that it is stored, by this number, or that it failed; and so it is with the
    /// marks of the objects.
    pub fn end_dump(&mut self, k: u64, stored: bool) -> Result<(), NoMemory>
        ensures { OnOk result (self.new ≡ happened self.old 0 (if stored then Event.Stored k else Event.DumpFailed k)) }
    {
        if stored {
            self.db.stored();
            let text = dump_stored(self.alloc, k)?;
            self.tell_askers(text.as_slice())
        } else {
            self.db.failed();
            self.tell_askers(b"Dump failed.")
        }
    }

    // The dump that runs is over, and a text is sent to each connection that asked for it.
    #[tactic(auto, unfolding(spec_events::specs::Dumping::told_each))]
    fn tell_askers(&mut self, text: &[u8]) -> Result<(), NoMemory>
        ensures { OnOk result (self.new ≡ on_dumps dump_over (on_live (told_each (askers_of self.old.dumps) text.now) self.old)) }
    {
        match self.dumps.end() {
            Some(askers) => self.tell_each(askers.as_slice(), text),
            None => Ok(()),
        }
    }

    // A text is sent to each of these connections.
    fn tell_each(&mut self, connections: &[u32], text: &[u8]) -> Result<(), NoMemory>
        ensures { OnOk result (self.new ≡ on_live (told_each connections.now text.now) self.old) }
    {
        for d in connections {
            self.tell(*d, text)?;
        }
        Ok(())
    }
}
