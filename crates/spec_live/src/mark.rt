// What is to be told of an object.
use muck_model::Dbref;

/// What happened to an object since it was last handed out, and wants work elsewhere.
#[derive(Clone, Copy, Debug, PartialEq, Eq)]
pub enum Mark {
    /// Its source lines changed.
    Lines,
    /// It became garbage.
    Gone,
}

/// An object that changed so that others have to follow: processes, editors and built forms.
#[derive(Clone, Copy, Debug, PartialEq, Eq)]
pub enum Changed {
    /// The source lines of this one changed.
    Lines(Dbref),
    /// This one became garbage.
    Gone(Dbref),
}
