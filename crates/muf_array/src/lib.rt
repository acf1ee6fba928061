//! The primitives of lists and dictionaries.
#![tactic(auto)]

mod changers;
mod changes;
mod entries;
mod joining;
mod making;
mod rows;
mod shapes;
mod table;
mod tops;

pub use changers::Changer;
pub use table::apply;
