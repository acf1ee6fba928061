//! The bodies of the batches of a store, read from its disks by walking the gates of the file that counts.
#![tactic(auto)]

mod beginning;
mod fault;
mod head;
mod laws;
mod walk;

pub use beginning::{Start, start_of};
pub use fault::BodyFault;
pub use laws::leads;
pub use walk::body;
