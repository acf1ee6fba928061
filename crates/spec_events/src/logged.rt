// What stands in the history of a world that several parties share. No value of these types is ever made: contracts see them.
use muck_model::{Count, Entry, Note};
use std::collections::LinkedList;

/// An entry with the notes that were made just before it: of the disks, and of the links.
pub struct Logged {
    /// The entry.
    pub entry: Entry,
    /// What the disks had counted.
    pub notes: LinkedList<Note>,
    /// What each link had refused, the latest one first.
    pub counted: Option<LinkedList<Count>>,
}
