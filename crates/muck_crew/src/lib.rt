//! A server: the porter, the workers and the dumper beside each other over one world, and the last dump.
#![tactic(auto)]

mod beside;
mod finishing;
mod seats;
mod serving;
mod whole;

// the world of a server, the store to which it is dumped, and a dump at once
pub use muck_dumper::{Store, dump};
pub use muck_machine::World;
pub use seats::{Parts, room};
pub use serving::{Way, run};
pub use whole::serve_links;
