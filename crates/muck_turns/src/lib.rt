//! The world as it is now, and what is done to its parts: a line, a slice of a process, a connection that goes.
#![tactic(auto)]

mod commands;
mod dumps;
mod origin;
mod state;

pub use dumps::Dumps;
pub use origin::{Begun, Origin};
pub use state::{State, WELCOME};
