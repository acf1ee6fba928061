//! What a text or a typed line names: objects by name or number, exits by their aliases, players by name. Nothing
//! here takes memory.
#![tactic(auto)]

mod exits;
mod glances;
mod memory;
mod naming;
mod scene;
mod sights;
mod words;

pub use exits::{ExitHit, exit_for};
pub use memory::{MemObject, MemScene};
pub use naming::{Found, find, find_among, player, player_among, player_named};
pub use scene::{HOME, NOTHING, Scene};
