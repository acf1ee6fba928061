// The shapes of the primitives of texts: what each takes, and that its answer takes its place.
ghost use Rattle.std.specs.Prelude.{◌≡◌, ◌≤◌, ◌∷◌, [], drop, length, IsTrue};
ghost use Rattle.muf_model.specs.Answer.{items_put, refuses};
ghost use Rattle.muf_model.specs.declared.fault.MufFault.TheVariants.{StackFull};
ghost use Rattle.muf_model.specs.Needs.{takes_items, a_text, an_int, int_or_object};
ghost use Rattle.muf_model.specs.TextRows as row;
ghost use Rattle.muf_model.specs.declared.prims.Primitive.TheVariants.{StrNCmp, StrCut, MidStr, Subst, IntToStr, IntToChar};
ghost use Rattle.muf_frame.specs.inner.Shown.{Shown, flat};
ghost use Rattle.muf_frame.specs.inner.Answers.{UsedOr};
ghost use Rattle.prim_text.specs.inner.Made.{number_at_top, sought_in};

use crate::made::give;
use crate::places::has_more_pieces;
use crate::rows;
use muf_frame::{Frame, PrimFault};
use muf_model::{MufFault, Prim, STACK_MOST};
use std::alloc::Global;

/// The primitives of one text.
#[tactic(auto, using(crate::proofs::Reading::text_steps))]
pub(crate) fn one_text(alloc: Global, prim: Prim, frame: &mut Frame) -> Result<(), PrimFault>
    ensures { UsedOr prim (takes_items (a_text ∷ [])) (row.one_text (row.of_text prim)) frame.old frame.new result }
{
    frame.need(1)?;
    match frame.text_at(0) {
        Some(text) => {
            let made = rows::of_text(alloc, prim, text.as_slice())?;
            give(frame, 1, made)
        }
        _ => Err(PrimFault::Fault(MufFault::BadType)),
    }
}

/// The primitives of two texts, the second one on the top.
#[tactic(auto, using(crate::proofs::Reading::text_steps))]
pub(crate) fn two_texts(alloc: Global, prim: Prim, frame: &mut Frame) -> Result<(), PrimFault>
    ensures { UsedOr prim (takes_items (a_text ∷ a_text ∷ [])) (row.two_texts (row.of_texts prim)) frame.old frame.new result }
{
    frame.need(2)?;
    match (frame.text_at(0), frame.text_at(1)) {
        (Some(second), Some(first)) => {
            let made = rows::of_texts(alloc, prim, first.as_slice(), second.as_slice())?;
            give(frame, 2, made)
        }
        _ => Err(PrimFault::Fault(MufFault::BadType)),
    }
}

// Whether EXPLODE would put more pieces on the stack than that has room for.
fn overflows(prim: Prim, frame: &Frame, bytes: &[u8], sought: &[u8]) -> bool
    requires { 2 ≤ length frame.now.stack }
    ensures { IsTrue result → items_put 2 (sought_in prim bytes.now sought.now) (drop 2 (flat frame.now).stack) ≡ refuses StackFull }
{
    if sought.is_empty() {
        return false;
    }
    match prim {
        Prim::Explode => has_more_pieces(sought, bytes, STACK_MOST + 1 - frame.len()),
        _ => false,
    }
}

/// The primitives that seek a text, which is on the top, in another one.
#[tactic(auto, using(crate::proofs::Reading::text_steps))]
pub(crate) fn sought(alloc: Global, prim: Prim, frame: &mut Frame) -> Result<(), PrimFault>
    ensures { UsedOr prim (takes_items (a_text ∷ a_text ∷ [])) (row.two_texts (sought_in prim)) frame.old frame.new result }
{
    frame.need(2)?;
    match (frame.text_at(0), frame.text_at(1)) {
        (Some(sought), Some(text)) => {
            if overflows(prim, frame, text.as_slice(), sought.as_slice()) {
                return Err(PrimFault::Fault(MufFault::StackFull));
            }
            let made = rows::seeking(alloc, prim, text.as_slice(), sought.as_slice())?;
            give(frame, 2, made)
        }
        _ => Err(PrimFault::Fault(MufFault::BadType)),
    }
}

/// SUBST.
#[tactic(auto, using(crate::proofs::Reading::text_steps))]
pub(crate) fn subst(alloc: Global, frame: &mut Frame) -> Result<(), PrimFault>
    ensures { UsedOr Subst (takes_items (a_text ∷ a_text ∷ a_text ∷ [])) (row.three_texts row.subst) frame.old frame.new result }
{
    frame.need(3)?;
    match (frame.text_at(0), frame.text_at(1), frame.text_at(2)) {
        (Some(sought), Some(other), Some(text)) => {
            let made = rows::subst(alloc, text.as_slice(), other.as_slice(), sought.as_slice())?;
            give(frame, 3, made)
        }
        _ => Err(PrimFault::Fault(MufFault::BadType)),
    }
}

/// STRNCMP.
#[tactic(auto, using(crate::proofs::Reading::text_steps))]
pub(crate) fn first_compared(frame: &mut Frame) -> Result<(), PrimFault>
    ensures { UsedOr StrNCmp (takes_items (an_int ∷ a_text ∷ a_text ∷ [])) (row.texts_and_int row.first_compared) frame.old frame.new result }
{
    frame.need(3)?;
    match (frame.int_at(0), frame.text_at(1), frame.text_at(2)) {
        (Some(count), Some(second), Some(first)) => {
            let made = rows::first_compared(first.as_slice(), second.as_slice(), count)?;
            give(frame, 3, made)
        }
        _ => Err(PrimFault::Fault(MufFault::BadType)),
    }
}

/// STRCUT.
#[tactic(auto, using(crate::proofs::Reading::text_steps))]
pub(crate) fn cut_behind(alloc: Global, frame: &mut Frame) -> Result<(), PrimFault>
    ensures { UsedOr StrCut (takes_items (an_int ∷ a_text ∷ [])) (row.text_and_int row.text_cut_behind) frame.old frame.new result }
{
    frame.need(2)?;
    match (frame.int_at(0), frame.text_at(1)) {
        (Some(count), Some(text)) => {
            let made = rows::cut_behind(alloc, text.as_slice(), count)?;
            give(frame, 2, made)
        }
        _ => Err(PrimFault::Fault(MufFault::BadType)),
    }
}

/// MIDSTR.
#[tactic(auto, using(crate::proofs::Reading::text_steps))]
pub(crate) fn middle(alloc: Global, frame: &mut Frame) -> Result<(), PrimFault>
    ensures { UsedOr MidStr (takes_items (an_int ∷ an_int ∷ a_text ∷ [])) (row.text_and_ints row.text_middle) frame.old frame.new result }
{
    frame.need(3)?;
    match (frame.int_at(0), frame.int_at(1), frame.text_at(2)) {
        (Some(count), Some(place), Some(text)) => {
            let made = rows::middle(alloc, text.as_slice(), place, count)?;
            give(frame, 3, made)
        }
        _ => Err(PrimFault::Fault(MufFault::BadType)),
    }
}

// The integer at the top, or the number of the object there.
#[tactic(auto, using(crate::proofs::Reading::number_steps))]
fn number_at_top(frame: &Frame) -> Option<i32>
    ensures { result ≡ number_at_top (flat frame.now).stack }
{
    match frame.int_at(0) {
        Some(number) => Some(number),
        None => match frame.object_at(0) {
            Some(object) => Some(object.0),
            None => None,
        },
    }
}

/// INTOSTR.
#[tactic(auto, using(crate::proofs::Reading::text_steps))]
pub(crate) fn in_decimal(alloc: Global, frame: &mut Frame) -> Result<(), PrimFault>
    ensures { UsedOr IntToStr (takes_items (int_or_object ∷ [])) (row.one_number row.in_decimal) frame.old frame.new result }
{
    frame.need(1)?;
    match number_at_top(frame) {
        Some(number) => {
            let made = rows::in_decimal(alloc, number)?;
            give(frame, 1, made)
        }
        _ => Err(PrimFault::Fault(MufFault::BadType)),
    }
}

/// ITOC.
#[tactic(auto, using(crate::proofs::Reading::text_steps))]
pub(crate) fn character(alloc: Global, frame: &mut Frame) -> Result<(), PrimFault>
    ensures { UsedOr IntToChar (takes_items (an_int ∷ [])) (row.one_integer row.character) frame.old frame.new result }
{
    frame.need(1)?;
    match frame.int_at(0) {
        Some(number) => {
            let made = rows::character(alloc, number)?;
            give(frame, 1, made)
        }
        _ => Err(PrimFault::Fault(MufFault::BadType)),
    }
}
