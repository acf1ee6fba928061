// What a source is read into.
use muck_model::{Dbref, Line, Row};

/// What a word of a source is. Words and names are in lower case, since case doesn't count in them.
#[derive(Drop)]
pub enum TokenKind {
    /// A word that is none of the others.
    Word(Line),
    /// The bytes of a text, without its quotes.
    Text(Line),
    Number(i32),
    Ref(Dbref),
    /// The address of the word that has this name.
    Address(Line),
}

/// A word of a source, with the number of the line at which it stands, from 1. What a definition stands for has the
/// line of the word that was replaced.
#[derive(Drop)]
pub struct Token {
    pub line: u32,
    pub kind: TokenKind,
}

/// The words of a source, in order.
pub type TokenList = Row<Token>;
