// Places that a running server passes.

/// A place that a server with threads passes. A test may hold a thread there; nothing else depends on it.
pub mod place {
    /// Before a process runs outside the hold.
    pub const BEFORE_RUN: u32 = 1;

    /// After a process ran outside the hold.
    pub const AFTER_RUN: u32 = 2;

    /// Before a dump is begun.
    pub const BEFORE_DUMP: u32 = 3;

    /// Before a party ends.
    pub const BEFORE_END: u32 = 4;

    /// Before a program is compiled outside the hold.
    pub const BEFORE_BUILD: u32 = 5;
}

/// What the threads of a server pass at the places of [`place`].
pub trait Gate {
    /// Passes a place. It changes nothing that a contract sees.
    fn pass(&self, place: u32);
}

/// A gate that holds nobody.
#[derive(Clone, Copy)]
pub struct OpenGate;

impl Gate for OpenGate {
    fn pass(&self, _place: u32) {}
}
