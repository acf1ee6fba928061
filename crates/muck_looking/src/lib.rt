//! What is seen of an object by who only looks into a world: its long form, its description and what it holds, or its long form, its owner and its lock.
#![tactic(auto)]

mod lines;
mod looking;

pub use looking::{examine, look};
