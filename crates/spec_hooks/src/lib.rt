//! What programs are hooked to, and which of them fire, as definitions in `specs/`.
#![tactic(auto)]

mod cause;
mod rows;
mod turned;

pub use cause::{Cause, Fire};
pub use rows::rows_hold;
pub use turned::Turned;
