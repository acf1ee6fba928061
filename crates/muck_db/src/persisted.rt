// What is kept of a world.
use crate::db::Db;
use muck_model::Tune;

/// What of a world outlives a run: its objects, and what a wizard tuned.
#[derive(Drop)]
pub struct Persisted {
    /// The objects.
    pub db: Db,
    /// The parameters.
    pub tune: Tune,
}
