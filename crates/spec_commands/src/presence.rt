// Who is connected.
use muck_model::Dbref;

/// A player who is connected, and the number of the connection.
#[derive(Clone, Copy)]
pub struct Presence {
    /// The number of the connection.
    pub number: u32,
    /// Its player.
    pub player: Dbref,
}
