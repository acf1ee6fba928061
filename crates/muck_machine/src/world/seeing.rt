// Slices of whose units a watch is told.
ghost use Rattle.std.specs.Prelude.{◌≡◌, IfOk, OnErr, false, true, if◌then◌else◌};
ghost use Rattle.muck_model.specs.declared.event.Event.{Event};
ghost use Rattle.muf_debug.specs.Watching.{SeesAll};
ghost use Rattle.spec_events.specs.Histories.{now, entered, EntryLicensed};
ghost use Rattle.spec_events.specs.Sections.{IsWhole};
ghost use Rattle.spec_events.specs.Slices.{process_awake, units_of};
ghost use Rattle.spec_events.specs.Steps.{has_claim, is_process_there};
ghost use Rattle.muck_turns.specs.Views.{views_of};
ghost use Rattle.muck_machine.specs.declared.world.Sliced.TheVariants.{Ran, Lost};
ghost use Rattle.muck_machine.specs.inner.Claims.{slice_event};

use crate::world::{Sliced, World};
use muck_model::{Entry, Event, NoMemory};
use muf_debug::Watch;

impl World {
    /// The same slice as [`World::slice`] makes, of each of whose units the watch is told before it runs, whatever the watch is (`seen`).
    /// After `NoMemory` the world is dead.
    pub fn slice_seen<W: Watch>(
        &mut self,
        party: u8,
        pid: i32,
        watch: &mut W,
    ) -> Result<Sliced, NoMemory>
        requires alive { (now self.old).dead ≡ false }
        requires claim { has_claim party pid (now self.old) ≡ true }
        ensures ran { IfOk result (λ sliced. sliced ≡ (if is_process_there pid (now self.old) then Ran else Lost)) }
        ensures step { IfOk result (λ sliced. self.new ≡ entered self.old (record { party = party; event = slice_event pid sliced })) }
        ensures licensed { IfOk result (λ sliced. EntryLicensed (record { party = party; event = slice_event pid sliced }) (now self.old) (now self.new)) }
        ensures whole { IfOk result (λ sliced. sliced ≡ Ran → IsWhole (now self.old).live.board.tune pid (process_awake pid (now self.old)) (units_of pid (now self.old))) }
        ensures died { OnErr result (self.new ≡ entered self.old (record { party = party; event = Event.Died })) }
        ensures seen { IfOk result (λ _. SeesAll W.tells (views_of pid (now self.old)) watch.old watch.new) }
    {
        if !self.has_process(pid) {
            return self.slice(party, pid);
        }
        let done = self.state.slice_seen(pid, watch);
        let entry = Entry {
            party,
            event: Event::Slice { pid },
        };
        self.past.conclude(entry, done)?;
        Ok(Sliced::Ran)
    }
}
