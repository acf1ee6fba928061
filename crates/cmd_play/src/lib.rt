//! What players do. Each function changes the world that a guard lends just as the definition of `spec_commands` of that
//! name says.
#![tactic(auto)]

mod command;
mod going;
mod looking;
mod messages;
mod taking;
mod talking;
mod texts;
mod typed;

pub use command::run;
pub use going::walk;
pub use looking::look_first;
pub use talking::who;
