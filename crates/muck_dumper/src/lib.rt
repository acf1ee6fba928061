//! The dumper: it makes the dumps of a world that several parties share, and writes them while others go on.
#![tactic(auto)]

mod deeds;
mod dumping;
mod holds;

pub use dumping::{Why, dumper};
// the store to which dumps are made, and a dump at once, for when no dumper goes on
pub use muck_dumping::{Store, dump};
