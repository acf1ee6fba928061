//! What a history says of each connection, as definitions: the lines that it was given and the bytes that were taken for it. The laws are
//! in `proofs/`.
#![tactic(auto)]

mod rows;

pub use rows::rows_hold;
