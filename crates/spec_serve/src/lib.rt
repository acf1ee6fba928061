//! What the links of a server carried against what its history says of each connection, as definitions: the account of each link, and the
//! books of them all. The laws are in `proofs/`.
#![tactic(auto)]

mod rows;

pub use rows::rows_hold;
