// What a primitive of processes is to do.
ghost use Rattle.std.specs.Prelude.{◌≡◌};
ghost use Rattle.prim_proc.specs.inner.Plans.{items_of};

use muck_model::Dbref;
use muck_queue::Mode;
use muf_model::{Text, Value};

/// What a primitive of processes is to do, once all that may refuse it is asked.
#[derive(Drop)]
pub(crate) enum Plan {
    /// Nothing.
    Nothing,
    /// Giving an item.
    Give(Value),
    /// Giving a random number.
    Draw,
    /// Ending the process of that number, and giving a 1.
    Kill(i32),
    /// Going on in that mode.
    SetMode(Mode),
    /// Sending an event to the process of that number.
    Send {
        pid: i32,
        name: Text,
        item: Value,
    },
    /// Giving the oldest event, or waiting for one.
    Receive,
    /// Waiting until that second.
    Sleep(u64),
    /// Waiting for a line.
    Read,
    /// Having a child.
    Fork,
    /// Entering a word.
    Enter {
        program: Dbref,
        word: Option<Text>,
    },
    /// Starting a program.
    Start {
        program: Dbref,
        delay: u32,
        argument: Text,
    },
}

impl Plan {
    /// How many items come upon the stack, now or later.
    pub(crate) fn items(&self) -> usize
        ensures { result ≡ items_of self.now }
    {
        match self {
            Plan::Give(_) | Plan::Draw | Plan::Kill(_) | Plan::Read | Plan::Fork => 1,
            Plan::Receive => 2,
            _ => 0,
        }
    }
}
