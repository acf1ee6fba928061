// What a turn chooses.
ghost use Rattle.std.specs.Prelude.{◌≡◌, find, option_copied};
ghost use Rattle.std.specs.List.{list_any};
ghost use Rattle.spec_events.specs.Steps.{has_due, has_line, is_dump_due, has_line_to_do, may_idle};

use crate::state::State;
use muck_board::Connection;

/// The party that writes dumps; those of lower numbers do lines and run processes.
const DUMPER: u8 = 9;

impl State {
    /// The lowest connection with a line that may be done: no process keeps it busy. It goes over the connections, at most
    /// 256, and for each that has such a line over the processes, at most 400.
    pub fn first_free(&self) -> Option<&Connection>
        ensures { option_copied result ≡ find (has_line_to_do self.now) self.now.live.board.connections }
    {
        self.board.connections().iter().find(|c| self.is_free(c))
    }

    // Whether a line waits on a connection that may be done, and no process keeps it busy.
    fn is_free(&self, connection: &Connection) -> bool
        ensures { result ≡ has_line_to_do self.now connection.now }
    {
        connection.is_ready() && !self.queue.is_busy(connection.number())
    }

    /// Whether there is nothing for a party to do.
    pub fn may_idle(&self, party: u8) -> bool
        ensures { result ≡ may_idle self.now party }
    {
        if party < DUMPER {
            return !self.has_line() && !self.has_due();
        }
        party == DUMPER && !self.is_dump_due()
    }

    // Whether a line may be done.
    fn has_line(&self) -> bool
        ensures { result ≡ has_line self.now }
    {
        self.is_any_free() && !self.stopping
    }

    // Whether a line waits on some connection that may be done.
    fn is_any_free(&self) -> bool
        ensures { result ≡ list_any (has_line_to_do self.now) self.now.live.board.connections }
    {
        self.board.connections().iter().any(|c| self.is_free(c))
    }

    // Whether a process may be claimed.
    #[tactic(auto, using(crate::proofs::Idling::any_due))]
    fn has_due(&self) -> bool
        ensures { result ≡ has_due self.now }
    {
        self.queue.next_due(self.moment).is_some() && !self.stopping
    }

    /// Whether a dump is asked, or so many seconds passed since the last one began that another is due.
    pub fn is_dump_due(&self) -> bool
        ensures { result ≡ is_dump_due self.now }
    {
        let interval = self.board.tune().dump_interval;
        self.dumps.is_due(self.moment, interval)
    }
}
