// How a connection stands, seen in one look.
ghost use Rattle.std.specs.Prelude.{◌≡◌, ◌&&◌, not, false, Some};
ghost use Rattle.spec_events.specs.Histories.{now};
ghost use Rattle.muck_machine.specs.inner.Situations.{situated, situation_in};

use crate::world::World;
use muck_board::Connection;

/// How a connection stands.
#[derive(Clone, Copy)]
pub struct Situation {
    /// Whether it is there.
    pub there: bool,
    /// Whether it is leaving.
    pub leaving: bool,
    /// Whether a line waits on it that may be done.
    pub ready: bool,
    /// Whether a line may come on it.
    pub hears: bool,
    /// How many bytes wait to be sent to it.
    pub queued: usize,
}

// Whether a line may come where the connection takes one.
fn hears(takes: bool, stopping: bool) -> bool
    ensures { result ≡ (takes && not stopping) }
{
    takes && !stopping
}

// How a connection that is there stands.
fn situation_of(connection: &Connection, stopping: bool) -> Situation
    ensures { result ≡ situated (Some connection.now) stopping }
{
    Situation {
        there: true,
        leaving: connection.is_leaving(),
        ready: connection.is_ready(),
        hears: hears(connection.takes_line(), stopping),
        queued: connection.queued(),
    }
}

impl World {
    /// How the connection of this number stands: it is looked up once.
    pub fn situation(&self, d: u32) -> Situation
        requires { (now self.now).dead ≡ false }
        ensures { result ≡ situation_in d (now self.now) }
    {
        let stopping = self.is_stopping();
        match self.connection(d) {
            Some(connection) => situation_of(connection, stopping),
            None => Situation {
                there: false,
                leaving: false,
                ready: false,
                hears: false,
                queued: 0,
            },
        }
    }
}
