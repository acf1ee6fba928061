// How a process runs, and what it waits for.
ghost use Rattle.std.specs.Prelude.{◌≡◌};
ghost use Rattle.muck_queue.specs.Queues.{is_background, is_preempt};

/// How a process runs.
#[derive(Clone, Copy, PartialEq, Eq, Debug)]
pub enum Mode {
    /// Nothing else happens until it waits or ends.
    Preempt,
    /// In slices, and what its player types waits for it.
    Foreground,
    /// In slices, beside what its player does.
    Background,
}

impl Mode {
    /// Whether nothing else happens while a process is in it.
    pub fn is_preempt(self) -> bool
        ensures { result ≡ is_preempt self }
    {
        self == Mode::Preempt
    }

    /// Whether a process has no connection in it.
    pub fn is_background(self) -> bool
        ensures { result ≡ is_background self }
    {
        self == Mode::Background
    }
}

/// What a process waits for, beside its second.
#[derive(Clone, Copy, PartialEq, Eq, Debug)]
pub enum Wait {
    /// Nothing.
    Nothing,
    /// The next line of its connection.
    ForLine,
    /// An event.
    ForEvent,
}
