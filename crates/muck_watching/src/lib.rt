//! What `debug` plays: a script is run on the world of a store as by `run`, a tracer is told of each unit before it runs, and the lines of those that it shows are
//! written.
#![tactic(auto)]

mod debugging;
mod watching;

pub use debugging::debug;
