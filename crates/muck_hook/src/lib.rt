//! Which programs are hooked to what happened: those that the directories `_arrive`, `_depart`, `_connect`, `_disconnect` and `_listen` of objects name.
#![tactic(auto)]

mod carriers;
mod firing;

pub use firing::fires;
