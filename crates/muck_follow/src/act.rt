// What a line of a script asks for.

use muck_model::Dbref;

/// What a line of a mirror's script asks for.
#[derive(Clone, Copy, Drop)]
pub enum Act {
    /// Nothing: the empty line, or one that begins with `#`.
    Nothing,
    /// That the mirror is fed the batch of this number.
    Feed(u64),
    /// That an object is shown as who looks at it sees it.
    Look(Dbref),
    /// That it is shown as who examines it sees it.
    Examine(Dbref),
}
