//! How a world is dumped to the two files of its store: a dump begins in the world, its batch is written without the world, and it ends in the
//! world. Between the parts others may go on with the world.
#![tactic(auto)]

mod parts;
mod store;
mod whole;

// the world that is dumped
pub use muck_machine::World;
pub use parts::{Pending, begin, end, write};
pub use store::{FILE_MOST, Store};
pub use whole::dump;
