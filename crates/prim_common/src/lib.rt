//! What every primitive that reaches the world begins with, over a world that is lent and the frame of the program that uses it.
#![tactic(auto)]

mod items;
mod made;
mod order;
mod parts;

pub use made::{Made, give};
pub use order::{ready, ready_needing};
