// Who acts, and what may be denied.
use muck_model::{Dbref, Flags};
use muck_prop::Path;

/// Who acts: at which level, by whose rights, and for which player. A command acts by the rights of its player, a
/// running program by those of its user.
#[derive(Clone, Copy, Debug, PartialEq, Eq)]
pub struct Actor {
    pub level: u8,
    pub user: Dbref,
    pub player: Dbref,
}

/// What somebody is about to do, as the rules of permission speak of it.
#[derive(Drop)]
pub enum Act {
    /// Using a shared primitive of that level.
    Shared { level: u8 },
    /// Starting a program.
    Start { program: Dbref },
    /// Naming an object in a primitive that reaches only what is near.
    Near { object: Dbref },
    /// Reading a property.
    Read { object: Dbref, path: Path },
    /// Writing a property.
    Write { object: Dbref, path: Path },
    /// Moving an object; `#-3` as the place is its home.
    Move { object: Dbref, to: Dbref },
    /// Walking through an exit.
    Walk { exit: Dbref },
    /// Taking a thing or a program.
    Take { object: Dbref },
    /// Linking an object, or giving it a home; `#-1` clears the link.
    Link { object: Dbref, to: Dbref },
    /// Making a room.
    NewRoom { place: Dbref },
    /// Making a thing.
    NewThing { place: Dbref },
    /// Making an exit; `#-1` is no link.
    NewExit { place: Dbref, link: Dbref },
    /// Making a program.
    NewProgram,
    /// Editing a program.
    Edit { program: Dbref },
    /// Changing a lock or a message, or listing a source.
    Change { object: Dbref },
    /// Changing a name.
    Rename { object: Dbref },
    /// Changing a password.
    Password { player: Dbref },
    /// Another command for wizards alone.
    Wizard,
    /// Setting or clearing that flag.
    SetFlag { object: Dbref, flag: Flags },
    /// Giving a level.
    SetLevel { object: Dbref, level: u8 },
    /// Recycling an object.
    Recycle { object: Dbref },
    /// Changing an owner.
    SetOwner { object: Dbref, owner: Dbref },
    /// Ending a process of that player and program.
    EndProcess { player: Dbref, program: Dbref },
    /// Calling, queueing or running a program.
    Call { program: Dbref },
}
