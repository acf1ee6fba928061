//! Messages in code: formulas over the world that a guard lends, evaluated for who acts.
#![tactic(auto)]

mod answers;
mod deeds;
mod objects;
mod properties;
mod signs;
mod speaker;
mod texts;

pub use speaker::{hear, speak, variables};
