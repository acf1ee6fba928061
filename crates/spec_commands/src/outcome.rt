// What is to follow a command.
use muck_model::{Dbref, Line, Tune};

/// How a command ended, and what the world has to do then.
#[derive(Drop)]
pub enum Outcome {
    /// It is done.
    Done,
    /// It was said, or posed, and the others who are there heard it.
    Said {
        /// It was posed.
        pose: bool,
        /// The text that was given.
        text: Line,
    },
    /// The first word is none of this crate's; nothing happened.
    NotMine,
    /// A program is to be started.
    Start {
        /// The program.
        program: Dbref,
        /// What started it.
        trigger: Dbref,
        /// The line that did.
        command: Line,
        /// What the program finds on its stack.
        arg: Line,
    },
    /// The editor is to be opened on a program.
    Edit(Dbref),
    /// The connection is leaving.
    Leave,
    /// A dump is asked.
    Dump,
    /// The world is to stop.
    Stop,
    /// The world is to be tuned.
    Retune(Tune),
}
