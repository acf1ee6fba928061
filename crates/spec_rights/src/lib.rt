//! Who may do what: the level and the user of a running program, the first rule of permission that denies an act, and
//! which differences between two worlds are open to an actor. `specs/` holds these definitions and `proofs/` the laws
//! about them; the code is the types that they speak of.
#![tactic(auto)]

mod act;
mod rows;
mod rule;

pub use act::{Act, Actor};
pub use rows::rows_hold;
pub use rule::Rule;
