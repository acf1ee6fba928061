//! What the keepers of a world do by a line, as definitions: `specs/` has the words, the parameters that are tuned and what each word does; `proofs/`
//! holds the laws about them.
#![tactic(auto)]

mod rows;
mod word;

pub use rows::rows_hold;
pub use word::AdminWord;
