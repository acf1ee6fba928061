//! Programs of the world: the code of a program is built from its source lines and from the definitions that other
//! objects lend to it, as they are at that moment.
#![tactic(auto)]

mod building;
mod flaw;
mod lending;
mod library;

pub use building::build;
pub use flaw::{BuildFault, Flaw};
pub use library::Library;
