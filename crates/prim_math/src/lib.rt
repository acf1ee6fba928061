//! The primitives of numbers, which need nothing but the stack and take no memory.
#![tactic(auto)]

mod rows;
mod shapes;
mod table;

pub use table::apply;
