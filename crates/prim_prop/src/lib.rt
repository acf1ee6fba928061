//! The primitives of properties, over a world that is lent and the frame of the program that uses them.
#![tactic(auto)]

mod asked;
mod formulas;
mod looking;
mod seeking;
mod table;
mod walking;
mod writing;

pub use table::apply;
