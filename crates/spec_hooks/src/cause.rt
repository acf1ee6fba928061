// What programs are hooked to, and what is to start.
use muck_model::{Dbref, Line};

/// What programs hear of that are hooked to it.
#[derive(Drop)]
pub enum Cause {
    /// A player came to a place.
    Arrive {
        /// The player.
        player: Dbref,
        /// The place.
        place: Dbref,
    },
    /// A player left a place.
    Depart {
        /// The player.
        player: Dbref,
        /// The place.
        place: Dbref,
    },
    /// The first connection of a player came.
    Connect {
        /// The player.
        player: Dbref,
    },
    /// The last connection of a player went.
    Disconnect {
        /// The player.
        player: Dbref,
    },
    /// A player said or posed something.
    Listen {
        /// The player.
        player: Dbref,
        /// Where it did.
        place: Dbref,
        /// The text, as others hear it.
        text: Line,
    },
}

/// A program that is to be started.
#[derive(Drop)]
pub struct Fire {
    /// The program.
    pub program: Dbref,
    /// The object that carries the hook.
    pub trigger: Dbref,
    /// What the program finds on its stack.
    pub arg: Line,
}
