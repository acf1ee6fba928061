//! A lock that hands a state from thread to thread, and with it the history of what was done to it. Who has the turn may make the
//! state one entry longer. Each seat knows how far it has seen the history, and which entries of it are its own; once all seats
//! are taken in, the whole history is known, and whose each entry is.
//!
//! Turns are drawn as tickets and served in order. That a thread is ever served isn't claimed.
#![tactic(auto)]

mod story;
mod turn;
mod view;

pub use story::Story;
pub use turn::{Held, Spent, Turn};
pub use view::{First, Free, Law, Place, Taken, TurnSeat, View};
