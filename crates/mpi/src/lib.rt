//! Formulas in messages: text with `{function:arg,arg}` and `{&variable}`, evaluated over what a host finds, tells and does.
#![tactic(auto)]

mod acting;
mod alike;
mod argument;
mod brackets;
mod evaluator;
mod fault;
mod functions;
mod host;
mod lists;
mod memory;
mod mind;
mod rows;
mod texts;
mod values;
mod variables;

pub use evaluator::eval;
pub use fault::MpiFault;
pub use functions::{Function, Group, How, Keep, Row, Scope, Way};
pub use host::{Ask, Deed, Host};
pub use memory::{MemHost, MemProp};
pub use variables::VarMap;
