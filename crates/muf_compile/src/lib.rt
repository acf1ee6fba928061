//! The compiler of MUF: from the words of a source to code that stands for its tree.
#![tactic(auto)]

mod act;
mod builder;
mod control;
mod fault;
mod hole;
mod known;
mod lines;
mod names;
mod pass;

pub use fault::{CompileFault, CompileKind, Refusal};
pub use lines::HasLines;
pub use pass::compile;
