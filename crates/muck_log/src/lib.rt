//! The log of a store: batches over two disks, mounted, and appended to so that a crash at any moment leaves the world
//! before a batch or the one with it.
#![tactic(auto)]

mod body;
mod fault;
mod kept;
mod log;
mod mount;
mod reader;
mod same;
mod write;

pub use fault::LogFault;
pub use kept::Kept;
pub use log::Log;
