//! Scripts: their grammar, the story that one prescribes and its text, and the turns after a line.
#![tactic(auto)]

mod act;
mod lines;
mod parsing;
mod script;
mod sending;
mod shown;
mod turns;

pub use act::Act;
pub use lines::cut_line;
// the world that a script is played on, and what a slice of a process comes to
pub use muck_machine::{Sliced, World};
pub use parsing::act_of;
pub use script::{Script, ScriptFault, read};
pub use shown::{farewell_text, lines_text};
pub use turns::settle;

/// The most bytes of a script.
pub const SCRIPT_MOST: usize = 16_777_216;

/// The most bytes of a line that comes on a connection.
pub const INPUT_MOST: usize = 2048;

/// The most seconds of a wait.
pub const WAIT_MOST: u64 = 86_400;

/// The most turns after a line.
pub const TURNS_MOST: u32 = 4096;
