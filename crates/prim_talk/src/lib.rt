//! The primitives that talk to players, over a world that is lent and the frame of the program that uses them.
#![tactic(auto)]

mod items;
mod rows;
mod table;

pub use table::apply;
