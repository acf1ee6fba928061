//! The frame of a running program: its stacks, its variables, and what encloses the place where it stands.
#![tactic(auto)]

mod bind;
mod calls;
mod copies;
mod fault;
mod frame;
mod items;
mod mark;
mod stack;
mod variables;
mod words;

pub use fault::PrimFault;
pub use frame::{Frame, Owned};
pub use mark::{Mark, Turns};
