// What became of the connections.
use muck_model::Dbref;

/// Of which player the first connection came in an event, or the last one went: of one at the most.
#[derive(Clone, Copy)]
pub enum Turned {
    /// Of none.
    Nobody,
    /// The first one of this player came.
    Came(Dbref),
    /// The last one of this player went.
    Went(Dbref),
}
