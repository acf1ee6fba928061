//! The processes of a world: those that run or wait, in the order of their numbers, and which one goes on next.
#![tactic(auto)]

mod claim;
mod events;
mod fault;
mod mode;
mod process;
mod processes;
mod queue;

pub use claim::Claim;
pub use events::{Events, ProcessEvent};
pub use fault::QueueFault;
pub use mode::{Mode, Wait};
pub use process::Process;
pub use queue::Queue;
