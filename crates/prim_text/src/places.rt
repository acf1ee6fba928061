// Where a text stands in another.
ghost use Rattle.std.specs.Prelude.{◌≡◌, ◌≤◌, ◌<◌, ◌+◌, ◌++◌, ◌∷◌, [], None, length, map, take, drop, IfOk, OnOk, IfSome, IsTrue};
ghost use Rattle.muck_model.specs.Bytes.{text_fault};
ghost use Rattle.muf_model.specs.Texts.{first_place, last_place, text_pieces, texts_joined};
ghost use Rattle.muf_model.specs.Datum.{text};
ghost use Rattle.muf_model.specs.TextRows.{text_within};
ghost use Rattle.muf_model.specs.inner.View.{view};
ghost use Rattle.muf_model.proofs.FaultTexts.{IsInside};

use crate::made::text_of;
use memchr::memmem;
use muck_model::{NoMemory, TEXT_MOST};
use muf_model::Value;
use std::alloc::Global;

/// The first place of a text in another.
#[tactic(auto, using(crate::proofs::Found::place_steps))]
pub(crate) fn first_place(sought: &[u8], bytes: &[u8]) -> Option<usize>
    ensures value { result ≡ first_place sought.now bytes.now }
    ensures within { IfSome result (λ k. k + length sought.now ≤ length bytes.now) }
{
    memmem::find(bytes, sought)
}

/// The last place of a text in another.
#[tactic(auto, using(crate::proofs::Found::place_steps))]
pub(crate) fn last_place(sought: &[u8], bytes: &[u8]) -> Option<usize>
    ensures value { result ≡ last_place sought.now bytes.now }
    ensures within { IfSome result (λ k. k + length sought.now ≤ length bytes.now) }
{
    memmem::rfind(bytes, sought)
}

// What stands before so many bytes at a place, and behind them.
#[tactic(auto, using(crate::proofs::Parts::cut_steps))]
pub(crate) fn cut_out(bytes: &[u8], at: usize, count: usize) -> (&[u8], &[u8])
    requires { at + count ≤ length bytes.now }
    ensures front { result.0.now ≡ take at bytes.now }
    ensures behind { result.1.now ≡ drop (at + count) bytes.now }
{
    (bytes.split_at(at).0, bytes.split_at(at + count).1)
}

// One more text behind others.
#[tactic(auto, using(crate::proofs::Parts::piece_steps))]
fn push_piece(alloc: Global, items: &mut Vec<Value>, piece: &[u8]) -> Result<(), NoMemory>
    requires { text_fault piece.now ≡ None }
    ensures value { OnOk result (map view items.new.items ≡ map view items.old.items ++ (text piece.now ∷ [])) }
    ensures len { OnOk result (length items.new.items ≡ length items.old.items + 1) }
{
    let value = text_of(alloc, piece)?;
    items.push(value)?;
    Ok(())
}

/// What stands between the texts that are sought, left to right.
#[tactic(auto, using(crate::proofs::Texts::part_steps))]
pub(crate) fn pieces(alloc: Global, sought: &[u8], bytes: &[u8]) -> Result<Vec<Value>, NoMemory>
    requires some { 0 < length sought.now }
    requires text { text_fault bytes.now ≡ None }
    ensures value { IfOk result (λ items. map view items.items ≡ map text (text_pieces sought.now bytes.now)) }
    ensures most { IfOk result (λ items. length items.items ≤ length bytes.now + 1) }
{
    let mut items = Vec::new(alloc);
    let mut rest = bytes;
    while let Some(at) = first_place(sought, rest) {
        let (front, behind) = cut_out(rest, at, sought.len());
        push_piece(alloc, &mut items, front)?;
        rest = behind;
    }
    push_piece(alloc, &mut items, rest)?;
    Ok(items)
}

/// Whether more than so many pieces stand between the texts that are sought.
pub(crate) fn has_more_pieces(sought: &[u8], bytes: &[u8], most: usize) -> bool
    requires { 0 < length sought.now }
    ensures { IsTrue result → most < length (text_pieces sought.now bytes.now) }
{
    let mut count = 0;
    let mut rest = bytes;
    while let Some(at) = first_place(sought, rest) {
        if count >= most {
            return true;
        }
        rest = cut_out(rest, at, sought.len()).1;
        count += 1;
    }
    false
}

// The bytes with two texts behind them.
#[tactic(auto, using(crate::proofs::Parts::join_steps))]
fn append_both(made: &mut Vec<u8>, front: &[u8], other: &[u8]) -> Result<(), NoMemory>
    ensures { OnOk result (made.new.items ≡ (made.old.items ++ front.now) ++ other.now) }
{
    made.extend_from_slice(front)?;
    made.extend_from_slice(other)?;
    Ok(())
}

/// The text with another one for each that is sought, left to right, or the beginning of it where it is too long.
#[tactic(auto, using(crate::proofs::Parts::join_steps))]
pub(crate) fn substituted(
    alloc: Global,
    bytes: &[u8],
    other: &[u8],
    sought: &[u8],
) -> Result<Vec<u8>, NoMemory>
    requires some { 0 < length sought.now }
    requires text { text_fault bytes.now ≡ None }
    requires other { text_fault other.now ≡ None }
    ensures value { IfOk result (λ made. text_within made.items ≡ text_within (texts_joined other.now (text_pieces sought.now bytes.now))) }
    ensures inside { IfOk result (λ made. IsInside made.items) }
{
    let mut made = Vec::new(alloc);
    let mut rest = bytes;
    while let Some(at) = first_place(sought, rest) {
        let (front, behind) = cut_out(rest, at, sought.len());
        append_both(&mut made, front, other)?;
        if made.len() > TEXT_MOST {
            return Ok(made);
        }
        rest = behind;
    }
    made.extend_from_slice(rest)?;
    Ok(made)
}
