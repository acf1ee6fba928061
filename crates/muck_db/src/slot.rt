// An object with its chain fields.
use muck_model::Dbref;
use spec_live::{Mark, Object, Saving};

// What is kept of one number: the object, which is none where it is garbage, where its lists begin, what stands behind it in the list that it is in,
// what is to be told of it, how it stands to the dumps, and where it stood when the event began, where it was a player then. The chain field of an object that is in no list means nothing. Whoever writes the object or a
// chain field makes the slot due for the next dump.
#[derive(Drop)]
pub struct Slot {
    pub object: Option<Object>,
    pub first_content: Option<u32>,
    pub first_exit: Option<u32>,
    pub next: Option<u32>,
    pub mark: Option<Mark>,
    pub saving: Saving,
    pub stood: Option<Dbref>,
}
