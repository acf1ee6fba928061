// The desk of the porter.

use muck_peer::Peer;
use muck_work::World;
use std::alloc::Global;
use turn_lock::{Turn, TurnSeat};

/// What is lent to the porter, and what it keeps from round to round.
#[derive(Drop)]
pub struct Desk<'a, 'w, 't, 's, 'l, 'c, 'g, 'r, W, L, C, G, R> {
    pub(crate) rt: &'w W,
    pub(crate) alloc: Global,
    pub(crate) turn: &'t Turn<World>,
    pub(crate) seat: &'s mut TurnSeat<World>,
    pub(crate) links: &'l mut L,
    pub(crate) clock: &'c mut C,
    pub(crate) gate: &'g G,
    pub(crate) rest: &'r R,
    /// Room for what is read at once.
    pub(crate) room: &'a mut [u8],
    /// Whether the note of the links was made.
    pub(crate) noted: bool,
    /// Whether listening failed.
    pub(crate) broke: bool,
    /// Whether anything was carried in this round.
    pub(crate) moved: bool,
    /// The links that are open.
    pub(crate) peers: &'a mut Vec<Peer>,
    /// A link that came, whose connection isn't opened yet.
    pub(crate) coming: &'a mut Option<Peer>,
}

/// Why the porter ended early.
#[derive(Drop)]
pub enum Fault {
    NoMemory,
    Spent,
}
