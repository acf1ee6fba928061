// Why the objects refuse a change.

/// Why a change of the objects is refused. Where several causes hold, the first in the order `NoSuchObject`,
/// `WrongKind`, `WouldLoop`, `WorldFull` is answered; want of memory may come at any place. Nothing has changed then.
#[derive(Clone, Copy, Debug, PartialEq, Eq)]
pub enum DbFault {
    /// An object that the call names isn't there, or is garbage.
    NoSuchObject,
    /// The place is the object itself, or lies inside it.
    WouldLoop,
    /// The kinds don't allow it.
    WrongKind,
    /// There are as many objects as a world has.
    WorldFull,
    /// Memory was wanted.
    NoMemory,
}
