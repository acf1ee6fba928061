// What a thread does while it waits, and what it tells those who wait for it.

/// What the threads of a server do while they wait, and what they tell each other of it. No call changes anything that a contract sees, and
/// each may return at any time: who comes back looks again.
pub trait Rest {
    /// Rests: this party found nothing to do. It may last until another did something.
    fn rest(&self, party: u8);

    /// This party did something: there may be something to do for who rests.
    fn did(&self, party: u8);

    /// This party ends: who rests looks whether it is to end too.
    fn ended(&self, party: u8);

    /// Waits for a moment: the turn of this number hasn't come yet. It may last until the one before it is over.
    fn pause(&self, turn: u64);

    /// The turn of this number is over: who waits for the next one looks again.
    fn passed(&self, turn: u64);
}

/// No rest at all: the thread looks again at once.
#[derive(Clone, Copy)]
pub struct NoRest;

impl Rest for NoRest {
    fn rest(&self, _party: u8) {}

    fn did(&self, _party: u8) {}

    fn ended(&self, _party: u8) {}

    fn pause(&self, _turn: u64) {}

    fn passed(&self, _turn: u64) {}
}

/// The rest of a thread that leaves the processor to others, and tells them nothing.
#[derive(Clone, Copy)]
pub struct YieldRest;

impl Rest for YieldRest {
    fn rest(&self, _party: u8) {
        std::thread::yield_now();
    }

    fn did(&self, _party: u8) {}

    fn ended(&self, _party: u8) {}

    fn pause(&self, _turn: u64) {
        std::thread::yield_now();
    }

    fn passed(&self, _turn: u64) {}
}
