//! The primitives of the stack.
#![tactic(auto)]

mod copies;
mod kinds;
mod marks;
mod moves;
mod names;
mod table;

pub use table::{Done, apply};
