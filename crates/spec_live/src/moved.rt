// Who stands elsewhere than before.
use muck_model::Dbref;

/// A player stands elsewhere than when the event began.
#[derive(Clone, Copy, Debug, PartialEq, Eq)]
pub struct Move {
    /// The player.
    pub player: Dbref,
    /// Where it stood.
    pub from: Dbref,
    /// Where it stands.
    pub to: Dbref,
}
