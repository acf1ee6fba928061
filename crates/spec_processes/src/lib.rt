//! What the primitives of processes do, as definitions: `specs/` holds a row for each; `proofs/` holds the laws about them.
#![tactic(auto)]

mod place;
mod rows;

pub use place::Place;
pub use rows::rows_hold;
