// The words that give a program its structure, and the variables of the process.
ghost use Rattle.std.specs.Prelude.{◌≡◌, map};
ghost use Rattle.muf_compile.specs.Names.{word_row, control_words, control_of, standing_of};

use muf_model::VarId;

/// A word of the structure, which is never a name.
#[derive(Clone, Copy)]
pub(crate) enum Control {
    Colon,
    Semicolon,
    Var,
    VarStore,
    LVar,
    Public,
    WizCall,
    If,
    Else,
    Then,
    Try,
    Catch,
    EndCatch,
    Begin,
    For,
    ForEach,
    Repeat,
    Until,
    While,
    Break,
    Continue,
    Exit,
}

// The words of the structure, in lower case.
static WORDS: [(&[u8], Control); 22] = [
    (b":", Control::Colon),
    (b";", Control::Semicolon),
    (b"var", Control::Var),
    (b"var!", Control::VarStore),
    (b"lvar", Control::LVar),
    (b"public", Control::Public),
    (b"wizcall", Control::WizCall),
    (b"if", Control::If),
    (b"else", Control::Else),
    (b"then", Control::Then),
    (b"try", Control::Try),
    (b"catch", Control::Catch),
    (b"endcatch", Control::EndCatch),
    (b"exit", Control::Exit),
    (b"begin", Control::Begin),
    (b"for", Control::For),
    (b"foreach", Control::ForEach),
    (b"repeat", Control::Repeat),
    (b"until", Control::Until),
    (b"while", Control::While),
    (b"break", Control::Break),
    (b"continue", Control::Continue),
];

// All of them.
#[tactic(auto, unfolding(crate::specs::Names::control_words))]
fn words() -> &'static [(&'static [u8], Control)]
    ensures { map word_row result.now ≡ control_words }
{
    &WORDS
}

/// The word of the structure that a word in lower case is.
#[tactic(auto, unfolding(crate::specs::Names::control_of))]
pub(crate) fn control_of(word: &[u8]) -> Option<Control>
    ensures { result ≡ control_of word.now }
{
    for row in words() {
        if row.0 == word {
            return Some(row.1);
        }
    }
    None
}

/// The variable of the process that a word in lower case names.
#[tactic(auto, unfolding(crate::specs::Names::standing_of))]
pub(crate) fn standing_of(word: &[u8]) -> Option<VarId>
    ensures { result ≡ standing_of word.now }
{
    if word == b"me".as_slice() {
        Some(VarId(0))
    } else if word == b"loc".as_slice() {
        Some(VarId(1))
    } else if word == b"trigger".as_slice() {
        Some(VarId(2))
    } else if word == b"command".as_slice() {
        Some(VarId(3))
    } else {
        None
    }
}
