//! The reader of MUF: from the lines of a source to its words, with comments left out, directives done and defined
//! words replaced by the words that they stand for.
#![tactic(auto)]

mod branch;
mod definition;
mod directive;
mod expansion;
mod fault;
mod includes;
mod layers;
mod memory;
mod number;
mod output;
mod piece;
mod place;
mod reader;
mod source;
mod token;

pub use fault::{FaultKind, Refusal, TokenFault};
pub use includes::{DefList, Definition, Includes};
pub use memory::{Lender, MemIncludes};
pub use source::tokens;
pub use token::{Token, TokenKind, TokenList};
