//! The porter of a server: it lets links in, carries their bytes, tells the time, and does one turn of work a round.
#![tactic(auto)]

mod deeds;
mod desk;
mod holds;
mod porting;
mod rounds;
mod serving;
mod tending;

pub use porting::{Why, porter};
