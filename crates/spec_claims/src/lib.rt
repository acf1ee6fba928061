//! What becomes of the claims of parties that share a world, as definitions and laws.
#![tactic(auto)]
