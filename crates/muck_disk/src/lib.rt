//! Disks, with what a crash at each moment may leave: the trait, a disk in memory, one that fails a chosen call, and a
//! file of the system.
#![tactic(auto)]

mod disk;
mod fail;
mod file;
mod memory;
mod opened;
mod rows;
mod unsynced;

pub use disk::{Disk, DiskFault};
pub use fail::FailDisk;
pub use file::FileDisk;
pub use memory::{Call, MemDisk};
pub use rows::laws_hold;
