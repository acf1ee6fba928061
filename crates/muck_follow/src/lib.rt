//! A mirror that follows a store by the lines of a script: it is fed batches of the store by their numbers, and the answers are written.
#![tactic(auto)]

mod act;
mod fault;
mod following;
mod laws;
mod lines;
mod number;
mod parsing;
mod reply;
mod script;

pub use act::Act;
pub use fault::FollowFault;
pub use following::follow;
pub use laws::follows_front;
pub use script::{SCRIPT_MOST, Script, ScriptFault, read};
