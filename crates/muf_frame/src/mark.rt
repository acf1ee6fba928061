// What encloses a place.
use muck_model::Dbref;
use muf_model::{ValueList, ValueMap};
use std::sync::Arc;

/// What a loop counts.
#[derive(Drop)]
pub enum Turns {
    /// Nothing.
    Plain,
    /// The next index, which is none where it left 32 bits, the last one and the step.
    Indices {
        next: Option<i32>,
        last: i32,
        step: i32,
    },
    /// The values of a list, from this place on.
    Values {
        of: Arc<ValueList>,
        at: usize,
    },
    /// The pairs of a dictionary, from this place on.
    Pairs {
        of: Arc<ValueMap>,
        at: usize,
    },
}

/// What encloses a place.
#[derive(Drop)]
pub enum Mark {
    /// A loop: what it counts, the place of a turn, and the place behind it.
    Loop {
        turns: Turns,
        again: usize,
        after: usize,
    },
    /// A TRY: how many items it locks, how many are locked outside it, and the place behind its CATCH.
    Guard {
        locked: usize,
        outer: usize,
        handler: usize,
    },
    /// A call of a word: where the variables of the call begin that it came from, and the place to go back to.
    Back {
        base: usize,
        place: usize,
    },
    /// A call of this program: the program that it came from, and the same there.
    Leave {
        caller: Dbref,
        base: usize,
        place: usize,
    },
}
