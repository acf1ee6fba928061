// Loops over items whose text is the same for each, since nothing stands between brackets in it.
ghost use Rattle.std.specs.Prelude.{◌≡◌, ◌<◌, None, IfOk, length};
ghost use Rattle.muck_model.specs.Bytes.{text_fault};
ghost use Rattle.mpi.specs.Brackets.{formula_pieces};
ghost use Rattle.mpi.specs.Hosting.{Means};
ghost use Rattle.mpi.specs.Values.{items};
ghost use Rattle.mpi.specs.declared.functions.Keep.TheVariants as keep;
ghost use Rattle.mpi.specs.inner.Alike.{said, alike_items, answer_alike, transposed};

use crate::argument::Argument;
use crate::brackets::{Piece, piece_ahead};
use crate::fault::MpiFault;
use crate::functions::{Keep, Scope};
use crate::lists::longer;
use crate::values::{is_true, nth};
use muck_model::{Line, NoMemory};
use std::alloc::Global;

// What a text says in which nothing stands between brackets; `None` where something does.
fn said(alloc: Global, text: &[u8]) -> Result<Option<Line>, NoMemory>
    requires { text_fault text.now ≡ None }
    ensures { IfOk result (λ line. line ≡ said (formula_pieces text.now)) }
{
    let mut out = Vec::with_capacity(alloc, text.len())?;
    let mut rest = text;
    while let Some((first, more)) = rest.split_first() {
        let ahead = piece_ahead(*first, more);
        match ahead.piece {
            Piece::Byte(byte) => out.push(byte)?,
            Piece::Call(_) => return Ok(None),
        }
        rest = ahead.rest;
    }
    Ok(Some(Line::of_text_vec(out)))
}

// The list of the text, as often as the list has items, of which there is one at least.
fn repeated(alloc: Global, list: &[u8], text: &Line) -> Result<Line, MpiFault>
    requires { 0 < length list.now }
    ensures { Means (alike_items keep.Texts text.now None (items list.now)) result }
{
    let mut bytes = text.as_slice().to_vec(alloc)?;
    for byte in list {
        if *byte == 13 {
            bytes = longer(alloc, Some(bytes), text.as_slice())?;
        }
    }
    Ok(Line::of_text_vec(bytes))
}

// What a loop over the items of a list gives whose text is this for each.
#[tactic(auto, using(crate::proofs::AlikeItems::alike_steps))]
fn alike_items(alloc: Global, keep: Keep, list: &[u8], text: &Line) -> Result<Line, MpiFault>
    requires { text_fault list.now ≡ None }
    ensures { Means (alike_items keep text.now None (items list.now)) result }
{
    if list.is_empty() {
        return Ok(Line::of_text(alloc, &[])?);
    }
    match keep {
        Keep::Last => Ok(text.copy(alloc)?),
        Keep::Texts => repeated(alloc, list, text),
        Keep::Items if is_true(text.as_slice()) => Ok(Line::of_text(alloc, list)?),
        Keep::Items => Ok(Line::of_text(alloc, &[])?),
    }
}

/// What a loop over items gives whose text is the same for each; `None` where the scope is another, or something stands between brackets
/// in the text.
pub(crate) fn answer_alike(
    alloc: Global,
    scope: Scope,
    values: &[Argument<'_>],
    body: &[u8],
) -> Result<Option<Line>, MpiFault>
    requires { text_fault body.now ≡ None }
    ensures { Means (transposed (answer_alike scope values.now body.now)) result }
{
    match scope {
        Scope::Once | Scope::Numbers => Ok(None),
        Scope::Items(keep) => match said(alloc, body)? {
            Some(text) => Ok(Some(alike_items(alloc, keep, nth(values, 1), &text)?)),
            None => Ok(None),
        },
    }
}
