//! The primitives of texts.
#![tactic(auto)]

mod made;
mod numbers;
mod places;
mod rows;
mod shapes;
mod table;

pub use made::{Made, give, number, sized};
pub use table::apply;
