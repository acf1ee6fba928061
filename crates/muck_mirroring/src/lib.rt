//! A call for `mirror`: the store of a name is mounted, a mirror follows it by the lines of a script, and the replies are written.
#![tactic(auto)]

mod mirroring;
mod reading;

pub use mirroring::mirror;
