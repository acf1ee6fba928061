//! Lemmas that name nothing of this project, for the proofs of all crates.
#![tactic(auto)]
