//! The primitives of processes, over a world and its processes that are lent, and the frame of the program that uses them.
#![tactic(auto)]

mod after;
mod asking;
mod carrying;
mod events;
mod plan;
mod rows;
mod table;

pub use after::After;
pub use table::apply;
