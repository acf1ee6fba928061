//! What `run` and `drill` play: a script is run on the world of a store, in which dumps are made, and a fixed script on the starting world; and how such a call
//! ends. The store is mounted, and its world made, for whoever goes on with it; the parts of a run are there for one that is told of more.
#![tactic(auto)]

mod drilling;
mod dumping;
mod mounting;
mod playing;
mod running;

pub use drilling::drill;
pub use mounting::{awake, mount};
// the world of a run, and the store to which it is dumped
pub use muck_dumping::{Store, World};
pub use playing::{RunFault, act, greatest, make_asked, serve_all};
pub use running::{begin, last_dump, run, stop};
