//! Scripts of `debug`: their grammar, what a run of one writes, and the turns after a line, of whose units a watch is told.
#![tactic(auto)]

mod act;
mod laws;
mod parsing;
mod script;
mod shown;
mod turns;

pub use act::DebugAct;
pub use laws::shows_apart;
pub use script::{DebugScript, read_debug};
pub use shown::units_text;
pub use turns::settle_seen;
