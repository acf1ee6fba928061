// How a history began, for contracts alone.
use muck_model::{Count, Note};
use muck_turns::Origin;
use std::collections::LinkedList;

/// What of a history none of its entries has: the world as it began, and the notes that stand before no entry, which is that of the
/// mounting, and those that were made behind all entries. No value of it is ever made.
pub struct Beginning {
    /// The world.
    pub world: Origin,
    /// The notes of the disks.
    pub notes: LinkedList<Note>,
    /// The note of the links.
    pub counted: Option<LinkedList<Count>>,
}
