// What builders make.
use muck_model::Dbref;

/// What is to be made, and the field that is set at once.
#[derive(Clone, Copy)]
pub enum New {
    /// A room.
    Room,
    /// A thing with this home.
    Thing(Dbref),
    /// An exit that leads there, or with `#-1` nowhere.
    Exit(Dbref),
}
