// The rest of a thread that has nothing to do.
use muck_io::{Rest, YieldRest};
use std::rt::Clock;
use std::thread;
use std::time::Duration;

/// The rest of a thread that sleeps for a millisecond.
#[derive(Drop)]
pub struct NapRest<C: Clock + Drop> {
    clock: C,
}

impl<C: Clock + Drop> NapRest<C> {
    /// A rest by this handle of the system's clock.
    pub fn new(clock: C) -> Self {
        NapRest { clock }
    }
}

impl<C: Clock + Drop> Rest for NapRest<C> {
    fn rest(&self, _party: u8) {
        let _ = thread::sleep(&self.clock, Duration::from_millis(1));
    }

    fn did(&self, _party: u8) {}

    fn ended(&self, _party: u8) {}

    fn pause(&self, turn: u64) {
        YieldRest.pause(turn);
    }

    fn passed(&self, _turn: u64) {}
}
