// What was typed, as messages see it.
use muck_model::Line;

/// What was typed, as the functions `&cmd` and `&arg` of messages see it.
#[derive(Drop)]
pub struct Typed {
    /// The first word of a line, or the alias of an exit as its name spells it.
    pub word: Line,
    /// What stands behind it.
    pub rest: Line,
}
