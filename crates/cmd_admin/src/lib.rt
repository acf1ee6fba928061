//! What the keepers of a world do by a line: listing and ending processes, which players do with their own; setting parameters, making players and giving them
//! other passwords, sending connections away, talking to all, asking for a dump and stopping. Each function changes the world that a guard lends just as the
//! definition of `spec_admin` of that name says, and a line changes no more than is open to who typed it.
#![tactic(auto)]

mod asking;
mod command;
mod parameters;
mod players;
mod processes;
mod talking;

pub use command::run;
