//! What the messages of objects mean: their formulas, over the world in which a player acts. `specs/` says what they read, do and
//! show, and `proofs/` holds the laws about that. The code here is the types that these definitions need.
#![tactic(auto)]

mod laws;
mod rows;
mod seen;

pub use laws::{messages_open, messages_touch};
pub use rows::rows_hold;
pub use seen::Seen;
