//! Links that carry bytes to and from those who are connected, and bytes as lines. `ScriptLinks` plays a script in
//! memory, and `MioLinks` are the system's sockets.
#![tactic(auto)]

mod bell;
mod cutter;
mod links;
mod script;
mod session;
mod sockets;

pub use bell::{Bell, BellRest};
pub use cutter::{LineCutter, Mode};
pub use links::{Accepted, LinkRead, LinkWrite, Links, Listened};
pub use script::{LinkStep, LinkWhat, ScriptLinks};
pub use sockets::MioLinks;
