// What the tale keeps of the disks and of the links, for contracts alone.
use std::collections::LinkedList;

/// What both disks had counted as something was entered: how many moments each knew, and how many faults it had met. `entries`
/// is how many entries stand before it. A note is no entry, and has no bytes: contracts see it.
#[derive(Drop)]
pub struct Note {
    pub entries: u64,
    pub first_moment: u64,
    pub second_moment: u64,
    pub first_faults: u64,
    pub second_faults: u64,
}

/// How many writes a link had refused when that was noted, by its number. No value of this type is ever made: contracts see it.
#[derive(Drop)]
pub struct Count {
    pub number: u32,
    pub refused: u64,
}

/// The note of the links: what each of them had refused, the latest one first, as it was made behind so many entries. No value of this type is
/// ever made: contracts see it.
#[derive(Drop)]
pub struct Counted {
    pub entries: u64,
    pub counts: LinkedList<Count>,
}
