//! The objects of the world: a table of slots, in which the contents and the exits of each object are a chain. Contracts
//! see it as the entries of `spec_live`, and nothing of the chains.
#![tactic(auto)]

mod blocks;
mod chain;
mod creation;
mod cut;
mod db;
mod hearing;
mod kept;
mod links;
mod load;
mod marking;
mod moves;
mod password;
mod paths;
mod persisted;
mod players;
mod recycling;
mod seen;
mod setting;
mod slot;
mod slots;
mod start;
mod stood;
mod telling;
mod ties;
mod typed;
mod walks;

pub use chain::Chain;
pub use db::Db;
pub use paths::KnownPaths;
pub use persisted::Persisted;
pub use seen::value_text;
pub use spec_live::{Changed, DbFault, Mark, Move, Object, Saving};
