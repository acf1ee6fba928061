//! What a debugger sees of a program: the state before each unit, and a watch that keeps what it is asked to show.
#![tactic(auto)]

mod laws;
mod places;
mod printing;
mod tracer;
mod values;
mod view;
mod watch;

pub use laws::{keeps_shown, rows_hold};
pub use places::Spot;
pub use tracer::Tracer;
pub use values::ValueRow;
pub use view::View;
pub use watch::Watch;
