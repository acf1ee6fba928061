//! The stored form of the objects of a world, and whether stored forms make a world that hangs together.
#![tactic(auto)]

mod again;
mod kinds;
mod limits;
mod met;
mod records;
mod tied;
mod tree;
mod whole;

pub use again::world_loads_again;
pub use kinds::{may_link, may_live, may_stand};
pub use limits::fits;
pub use whole::is_whole;
