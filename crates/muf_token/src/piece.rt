// What a text is made of, before words are looked up.
use crate::FaultKind;
use muck_model::Line;

/// One piece of a text: a word in lower case, the bytes of a text between quotes, or a fault, behind which nothing
/// is read.
#[derive(Drop)]
pub(crate) enum Piece {
    Word(Line),
    Text(Line),
    Broken(FaultKind),
}
