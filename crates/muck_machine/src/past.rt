// What has happened in a world.
ghost use Rattle.std.specs.Prelude.{◌≡◌, true, length};
ghost use Rattle.muck_machine.specs.inner.Keeping.{told, remarked, counted_at_end, lost, Concludes};
ghost use Rattle.spec_talks.specs.Counts.{counts};

use muck_disk::Disk;
use muck_links::Links;
use muck_model::{Entry, Event, NoMemory, Noted, NotedLinks, Tale};
use muck_turns::Origin;

/// How a world began, each entry since, the notes between, and whether memory was wanted in the midst of something.
#[derive(Drop)]
pub struct Past {
    pub origin: Origin,
    pub tale: Tale,
    pub dead: bool,
}

impl Past {
    /// A party did something.
    pub fn enter(&mut self, entry: Entry)
        requires { self.old.tale.open_ended ≡ true }
        ensures { self.new ≡ told entry self.old }
    {
        self.tale.tell(&entry);
    }

    /// What both disks have counted is noted behind the entries so far; `N` names that note. It takes no memory.
    pub fn note<N: Noted, D: Disk>(&mut self, _first: &D, _second: &D)
        requires grows { self.old.tale.open_ended ≡ true }
        requires named { N.note ≡ record { entries = length self.old.tale.entries; first_moment = D.moment _first.now; second_moment = D.moment _second.now; first_faults = D.faults _first.now; second_faults = D.faults _second.now } }
        ensures { self.new ≡ remarked (record { entries = length self.old.tale.entries; first_moment = D.moment _first.now; second_moment = D.moment _second.now; first_faults = D.faults _first.now; second_faults = D.faults _second.now }) self.old }
    {
        self.tale.note::<N>();
    }

    /// What each link had refused is noted behind the entries so far; `N` names that note. It takes no memory.
    pub fn note_links<N: NotedLinks, L: Links>(&mut self, _links: &L)
        requires grows { self.old.tale.open_ended ≡ true }
        requires named { N.counted ≡ record { entries = length self.old.tale.entries; counts = counts (L.told _links.now).sessions } }
        ensures { self.new ≡ counted_at_end (counts (L.told _links.now).sessions) self.old }
    {
        self.tale.count::<N>();
    }

    /// Memory was wanted by a party.
    pub fn lose(&mut self, party: u8)
        requires { self.old.tale.open_ended ≡ true }
        ensures { self.new ≡ lost party self.old }
    {
        let event = Event::Died;
        self.enter(Entry { party, event });
        self.dead = true;
    }

    /// What a party did is entered; or, where memory was wanted for it, that. It hands on which of the two it was.
    pub fn conclude(&mut self, entry: Entry, done: Result<(), NoMemory>) -> Result<(), NoMemory>
        requires { self.old.tale.open_ended ≡ true }
        ensures past { Concludes entry result self.old self.new }
        ensures same { result ≡ done }
    {
        match done {
            Ok(()) => {
                self.enter(entry);
                Ok(())
            }
            Err(NoMemory) => {
                self.lose(entry.party);
                Err(NoMemory)
            }
        }
    }
}
