//! A mirror of a store, which follows it by its batches: with loss, with repeats and in any order.
#![tactic(auto)]

mod body;
mod fault;
mod feeding;
mod laws;
mod looks;
mod mirror;
mod start;
mod world;

pub use fault::MirrorFault;
pub use laws::holds_front;
pub use mirror::{Fed, Mirror};
pub use world::World;
