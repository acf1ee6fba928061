//! What builders do by a line: making rooms, things and exits, linking and naming them, their messages, locks, flags and properties, moving,
//! recycling and giving them away; and making, editing, listing and running programs. Each function changes the world that a guard lends just as the definition of
//! `spec_commands` of that name says, and a line changes no more than is open to who typed it.
#![tactic(auto)]

mod command;
mod locks;
mod making;
mod messages;
mod programs;
mod searching;
mod settings;
mod writing;

pub use command::run;
