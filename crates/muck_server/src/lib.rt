//! A server over one world: it listens, and then serves all who come, until it is stopped and the last dump is made.
#![tactic(auto)]

mod serving;

pub use serving::serve;
