//! What the primitives do that reach the world, as definitions: `specs/` holds a row for each, what it asks of the world
//! before that, and what is made of both; `proofs/` holds the laws about them.
#![tactic(auto)]

mod rows;

pub use rows::rows_hold;
