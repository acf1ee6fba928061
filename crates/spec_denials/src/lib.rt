//! For which acts leave is asked, and which rule each denial names, as definitions and laws: of the primitives that reach the world, and of
//! the units of slices in whole histories.
#![tactic(auto)]

mod laws;

pub use laws::{
    denials_named, lines_ask, messages_name, primitives_ask, processes_ask, rows_hold,
    words_deny_nothing,
};
