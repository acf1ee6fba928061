// The world, where several parties share it.
ghost use Rattle.std.specs.Prelude.{◌≡◌, false, if◌then◌else◌, is_some, not};
ghost use Rattle.std.specs.List.{count_by};
ghost use Rattle.muck_model.specs.declared.event.Event.{Event};
ghost use Rattle.spec_live.specs.Objects.{is_garbage};
ghost use Rattle.spec_events.specs.Steps.{is_lawful, is_dump_due};
ghost use Rattle.spec_events.specs.Histories.{now, entered, links_noted};
ghost use Rattle.spec_talks.specs.Counts.{counts};

use crate::beginning::Beginning;
use crate::world::World;
use muck_links::Links;
use muck_model::{Entry, Event};
use spec_events::Logged;
use std::marker::Brand;
use turn_lock::Story;

// The lock sees the world as its items, each an entry with the notes before it; and beside these as what no entry has.
impl Story for World {
    ghost use Rattle.spec_events.specs.Logged.{logged, logged_by, IsOrderly};
    ghost use Rattle.muck_machine.specs.inner.Beginnings.{beginning};

    type Entry = Logged;

    type Start = Beginning;

    ghost start = { beginning };

    ghost history = { logged };

    ghost party = { logged_by };

    ghost allowed = { IsOrderly };
}

impl World {
    /// A party has seen that the world is stopping; `false` exactly where it isn't, or is dead, and then nothing happened. It takes no
    /// memory.
    pub fn stopped(&mut self, party: u8) -> bool
        ensures lawful { result ≡ is_lawful (now self.old) (record { party = party; event = Event.StopSeen }) }
        ensures step { self.new ≡ (if result then entered self.old (record { party = party; event = Event.StopSeen }) else self.old) }
    {
        if self.past.dead {
            return false;
        }
        let state = &self.state;
        let stopping = state.stopping;
        if !stopping {
            return false;
        }
        self.past.enter(Entry {
            party,
            event: Event::StopSeen,
        });
        true
    }

    /// What each link had refused is noted behind the entries so far, for contracts alone. It takes no memory.
    pub fn note_links<L: Links>(&mut self, links: &L)
        ensures { self.new ≡ links_noted self.old (counts (L.told links.now).sessions) }
    {
        self.past.note_links::<Brand, L>(links);
    }

    /// Whether a dump is asked, or so many seconds passed since the last one began that another is due. On a dead world nothing is said of
    /// the answer.
    pub fn dump_due(&self) -> bool
        ensures { (now self.now).dead ≡ false → result ≡ is_dump_due (now self.now) }
    {
        self.state.is_dump_due()
    }

    /// Whether a dump runs. On a dead world nothing is said of the answer.
    pub fn runs_dump(&self) -> bool
        ensures { (now self.now).dead ≡ false → result ≡ is_some (now self.now).dumps.running }
    {
        let state = &self.state;
        state.dumps.is_running()
    }

    /// How many objects there are, without garbage. On a dead world nothing is said of the answer. It looks at every number.
    pub fn objects(&self) -> usize
        ensures { (now self.now).dead ≡ false → result ≡ count_by (λ e. not (is_garbage e.object.kind)) (now self.now).live.objects }
    {
        let state = &self.state;
        state.db.objects()
    }
}
