//! A worker: it does lines and runs processes of a world that several parties share, until the run is stopped.
#![tactic(auto)]

mod deeds;
mod working;

pub use working::{Why, worker};
