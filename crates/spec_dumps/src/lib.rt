//! What the store holds of a run at any moment, whatever a crash leaves of its two files, as definitions and laws.
#![tactic(auto)]

mod rows;

pub use rows::rows_hold;
