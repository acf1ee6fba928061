//! What the world is and what happens in it, as definitions: `specs/` holds the record of the world with its programs and
//! processes, which entries are lawful and what each does, and whole histories; `proofs/` holds the laws about them. The
//! code here is a few small types that those definitions speak of, and what players are told of programs that go wrong
//! and of dumps.
#![tactic(auto)]

mod agents;
mod hooks;
mod logged;
mod rows;
mod starting;
mod texts;

pub use agents::ends_what_runs_it;
pub use hooks::only_starts;
pub use logged::Logged;
pub use rows::rows_hold;
pub use starting::{Agent, Call, Manner};
pub use texts::{dump_stored, error_text, flaw_text};
