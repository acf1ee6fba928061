//! What is seen of the slices of processes, and what of that is shown, as definitions and laws.
#![tactic(auto)]

mod laws;
mod rows;

pub use laws::views_shown;
pub use rows::rows_hold;
