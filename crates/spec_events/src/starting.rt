// For whom a program runs, and how.
use muck_model::{Dbref, Line};
use muck_queue::Mode;

/// By whom and by what a program is started, with its command and what it finds on its stack.
#[derive(Drop)]
pub struct Call {
    /// The player for whom it runs.
    pub player: Dbref,
    /// The program.
    pub program: Dbref,
    /// What started it: the program itself, or an exit that leads to it.
    pub trigger: Dbref,
    /// The line that did.
    pub command: Line,
    /// What the program finds on its stack.
    pub argument: Line,
}

/// How a process is to run.
#[derive(Clone, Copy, Debug, PartialEq, Eq)]
pub struct Manner {
    /// The connection to which it is tied.
    pub descr: Option<u32>,
    /// Whether it is in the foreground.
    pub mode: Mode,
    /// The second from which it may go on.
    pub due: u64,
}

/// For whom a process acts, and how far it is.
#[derive(Clone, Copy, Debug, PartialEq, Eq)]
pub struct Agent {
    /// Its player.
    pub player: Dbref,
    /// What started it; `#-1` where that is gone.
    pub trigger: Dbref,
    /// The connection to which it is tied.
    pub descr: Option<u32>,
    /// How it runs.
    pub mode: Mode,
    /// The units that it took since its start or its last wait.
    pub units: u64,
    /// In preempt, the units of its section.
    pub section: u64,
}
