// The dumps of a world.
ghost use Rattle.std.specs.Prelude.{◌≡◌, ◌+◌, ◌||◌, [], is_some, nat_le, not, ◌==◌, OnOk};
ghost use Rattle.std.specs.List.{filter};
ghost use Rattle.std.specs.Option.{option_map_or};
ghost use Rattle.spec_events.specs.World.{no_dumps, others_than, asked_by, unasked, dump_begun, dump_over, askers_of};

use muck_model::NoMemory;
use std::alloc::Global;
use std::marker::Model;

// A dump that runs: its number, and the connections that asked for it.
#[derive(Drop)]
struct Dump {
    number: u64,
    askers: Vec<u32>,
}

/// The dump that runs, with the connections that asked for it; those that ask for the next one, where one is asked; and the
/// second at which the last one began.
#[derive(Drop)]
pub struct Dumps {
    running: Option<Dump>,
    asked: Option<Vec<u32>>,
    last: u64,
}

impl Model for Dumps {
    ghost use Rattle.std.specs.Option.{option_map};
    ghost use Rattle.spec_events.specs.World.{Dumps as Table};

    ghost Value = { Table };

    ghost view = { λ d. record { running = option_map (λ r. (r.number, r.askers.items)) d.running; asked = option_map (λ v. v.items) d.asked; last = d.last } };
}

impl Dumps {
    /// None runs or is asked, and the last one is taken to have begun at that second. It takes no memory.
    pub fn new(moment: u64) -> Dumps
        ensures { result ≡ no_dumps moment }
    {
        Dumps {
            running: None,
            asked: None,
            last: moment,
        }
    }

    /// A connection asks for the next dump, once for all its lines that do.
    pub fn ask(&mut self, alloc: Global, d: u32) -> Result<(), NoMemory>
        ensures { OnOk result (self.new ≡ asked_by d self.old) }
    {
        let mut askers = self.asked.take().unwrap_or(Vec::new(alloc));
        leave_out(&mut askers, d);
        askers.push(d)?;
        self.asked = Some(askers);
        Ok(())
    }

    /// A connection has gone: nothing of a dump is shown to it any more, and a dump that is asked stays asked.
    pub fn forget(&mut self, d: u32)
        ensures { self.new ≡ unasked d self.old }
    {
        if let Some(dump) = &mut self.running {
            leave_out(&mut dump.askers, d);
        }
        if let Some(askers) = &mut self.asked {
            leave_out(askers, d);
        }
    }

    /// The dump of this number begins at that second, for those that ask now. It takes no memory.
    pub fn begin(&mut self, alloc: Global, number: u64, moment: u64)
        ensures { self.new ≡ dump_begun number moment self.old }
    {
        let askers = self.asked.take().unwrap_or(Vec::new(alloc));
        self.running = Some(Dump { number, askers });
        self.last = moment;
    }

    /// The dump that runs is over: who asked for it, where one runs. It takes no memory.
    pub fn end(&mut self) -> Option<Vec<u32>>
        ensures askers { option_map_or (λ v. v.items) result [] ≡ askers_of self.old }
        ensures state { self.new ≡ dump_over self.old }
    {
        let dump = self.running.take()?;
        Some(dump.askers)
    }

    /// Whether a dump runs.
    pub fn is_running(&self) -> bool
        ensures { result ≡ is_some self.now.running }
    {
        self.running.is_some()
    }

    /// Whether a dump is asked.
    pub fn is_asked(&self) -> bool
        ensures { result ≡ is_some self.now.asked }
    {
        self.asked.is_some()
    }

    /// Whether one is asked, or so many seconds passed since the last one began.
    pub fn is_due(&self, moment: u64, interval: u32) -> bool
        ensures { result ≡ (is_some self.now.asked || nat_le (self.now.last + interval) moment) }
    {
        if self.is_asked() {
            return true;
        }
        match moment.checked_sub(self.last) {
            Some(passed) => passed >= u64::from(interval),
            None => false,
        }
    }
}

// A connection asks no more.
fn leave_out(askers: &mut Vec<u32>, d: u32)
    ensures { askers.new.items ≡ others_than d askers.old.items }
{
    askers.retain(|n| *n != d);
}
