// The messages of objects, by one table.
ghost use Rattle.std.specs.Prelude.{◌≡◌, None};
ghost use Rattle.muck_model.specs.Bytes.{text_fault};
ghost use Rattle.muck_prop.specs.Paths.{path_fault, segments_of};
ghost use Rattle.spec_live.specs.Messages.{row_of, path_of, messages};

/// A message of an object.
#[derive(Clone, Copy, Debug, PartialEq, Eq)]
pub enum Message {
    Describe,
    Success,
    OthersSuccess,
    Fail,
    OthersFail,
    Drop,
    OthersDrop,
}

/// What is so of a message: the word that sets it, the path at which it is kept, and how it is called where it is spoken.
#[derive(Clone, Copy)]
pub struct MessageRow {
    pub word: &'static [u8],
    pub path: &'static [u8],
    pub how: &'static [u8],
}

// One row of the table.
macro_rules! row {
    ($word:literal, $path:literal, $how:literal) => {
        MessageRow {
            word: $word,
            path: $path,
            how: $how,
        }
    };
}

// All messages.
const ALL: [Message; 7] = [
    Message::Describe,
    Message::Success,
    Message::OthersSuccess,
    Message::Fail,
    Message::OthersFail,
    Message::Drop,
    Message::OthersDrop,
];

impl Message {
    /// Its row in the table of all messages.
    #[inline(always)]
    pub fn row(self) -> MessageRow
        ensures word { result.word.now ≡ (row_of self).word }
        ensures path { segments_of result.path.now ≡ path_of self }
        ensures how { result.how.now ≡ (row_of self).how }
        ensures writes { path_fault result.path.now ≡ None }
        ensures path_text { text_fault result.path.now ≡ None }
        ensures how_text { text_fault result.how.now ≡ None }
    {
        match self {
            Message::Describe => row!(b"@describe", b"_/de", b"(@desc)"),
            Message::Success => row!(b"@success", b"_/sc", b"(@succ)"),
            Message::OthersSuccess => row!(b"@osuccess", b"_/osc", b"(@osucc)"),
            Message::Fail => row!(b"@fail", b"_/fl", b"(@fail)"),
            Message::OthersFail => row!(b"@ofail", b"_/ofl", b"(@ofail)"),
            Message::Drop => row!(b"@drop", b"_/dr", b"(@drop)"),
            Message::OthersDrop => row!(b"@odrop", b"_/odr", b"(@odrop)"),
        }
    }

    /// All of them.
    #[tactic(auto, unfolding(crate::specs::Messages::messages))]
    pub fn all() -> &'static [Message]
        ensures { result.now ≡ messages }
    {
        &ALL
    }
}
