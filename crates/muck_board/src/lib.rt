//! The connections of a world with what waits on each, the random numbers, and what a wizard tuned.
#![tactic(auto)]

mod board;
mod connection;
mod lines;
mod output;
mod places;
mod sent;
mod split;

pub use board::Board;
pub use connection::Connection;
