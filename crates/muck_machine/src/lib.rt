//! The world with its history: each public call of [`World`] is one entry of it.
#![tactic(auto)]

mod beginning;
mod past;
mod world;

pub use beginning::Beginning;
// what a world holds, for whoever says that it may go to another thread
pub use muck_turns::{Dumps, State};
pub use world::{Situation, Sliced, World};
