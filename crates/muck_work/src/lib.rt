//! What each party of a world that several share does alike: it takes the world, makes one entry, and gives it back; and its turn of work.
#![tactic(auto)]

mod holds;
mod jobs;

pub use holds::{gives, takes};
pub use jobs::{Job, does_job};
// the world that parties share, for each of them
pub use muck_machine::{Beginning, Sliced, World};
