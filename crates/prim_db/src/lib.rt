//! The primitives of objects, over a world that is lent and the frame of the program that uses them.
#![tactic(auto)]

mod changing;
mod finding;
mod flags;
mod locking;
mod looking;
mod table;
mod writing;

pub use table::apply;
