// The value of an argument.
ghost use Rattle.std.specs.Prelude.{◌≡◌, ◌≤◌, Some, None, IfSome, length};
ghost use Rattle.muck_model.specs.Bytes.{text_fault, text_most};
ghost use Rattle.mpi.specs.Brackets.{formula_pieces};
ghost use Rattle.mpi.specs.inner.Alike.{said};
ghost use Rattle.mpi.specs.inner.Written.{is_plain};

use muck_model::Line;
use std::marker::Model;

/// Where the bytes of a value are.
#[derive(Drop)]
pub(crate) enum Holder<'a> {
    /// In the formula, where they stand for themselves.
    Written(&'a [u8]),
    /// In a text that was made.
    Made(Line),
}

/// The value of an argument. Contracts see it as its bytes.
#[derive(Drop)]
pub(crate) struct Argument<'a> {
    holder: Holder<'a>,
}

impl<'a> Model for Argument<'a> {
    ghost use Rattle.std.specs.Prelude.{◌≡◌, List, ℕ, None};
    ghost use Rattle.muck_model.specs.Bytes.{text_fault};
    ghost use Rattle.mpi.specs.inner.Written.{bytes_held};

    ghost Value = { List ℕ };

    ghost view = { λ a. bytes_held a.holder };

    ghost invariant = { λ a. text_fault (bytes_held a.holder) ≡ None };
}

// Whether each byte of a text stands for itself.
fn is_plain(text: &[u8]) -> bool
    ensures { result ≡ is_plain text.now }
{
    text.iter().all(|b| *b != b'\\' && *b != b'{')
}

impl<'a> Argument<'a> {
    /// The value of a text that stands for itself, which takes no memory; `None` where the text has a `{` or a `\`.
    #[tactic(auto, using(crate::proofs::AlikeItems::plain_said))]
    pub(crate) fn written(text: &'a [u8]) -> Option<Argument<'a>>
        requires { text_fault text.now ≡ None }
        ensures { IfSome result (λ value. (value ≡ text.now) × (said (formula_pieces text.now) ≡ Some text.now)) }
    {
        if !is_plain(text) {
            return None;
        }
        Some(Argument {
            holder: Holder::Written(text),
        })
    }

    /// A value that was made.
    pub(crate) fn made(line: Line) -> Argument<'a>
        ensures { result ≡ line }
    {
        let _bytes = line.as_slice();
        Argument {
            holder: Holder::Made(line),
        }
    }

    /// Its bytes.
    pub(crate) fn as_slice(&self) -> &[u8]
        ensures bytes { result.now ≡ self.now }
        ensures most { length result.now ≤ text_most }
        ensures text { text_fault result.now ≡ None }
    {
        match &self.holder {
            Holder::Written(text) => text,
            Holder::Made(line) => line.as_slice(),
        }
    }
}
