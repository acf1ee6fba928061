//! Why a call of the program ends as it does: one table of all causes, with the status of each, the name by which it is shown, and what it admits.
#![tactic(auto)]

mod why;

pub use why::{Row, Why, why_of};
