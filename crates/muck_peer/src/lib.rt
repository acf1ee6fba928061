//! One link of a server and the connection that it became: what is kept of it, which calls of the links are made for it, and which entry of
//! the world it wants next.
#![tactic(auto)]

mod causes;
mod peer;
mod steps;
mod time;

pub use peer::Peer;
pub use steps::{Chose, Want};
pub use time::tells_time;
