//! Whose each process is, what it is tied to, and what others keep of theirs: laws of all histories, as definitions. `specs/` says them, `proofs/` proves them, and the
//! functions here have them as their clauses.
#![tactic(auto)]

mod laws;

pub use laws::{clears_what_is_gone, keeps_origins, keeps_seats, keeps_stops, keeps_what_is_there};
