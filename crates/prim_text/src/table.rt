// Every primitive of texts, by the shape of what it takes.
ghost use Rattle.std.specs.Prelude.{◌≡◌, ℕ};
ghost use Rattle.muf_model.specs.declared.prims.Family.TheVariants.{Text};
ghost use Rattle.muf_model.specs.Prims.{family_of};
ghost use Rattle.muf_model.specs.Rows.{primitive};
ghost use Rattle.muf_frame.specs.inner.Shown.{Shown, flat};
ghost use Rattle.muf_frame.specs.inner.Moves.{scope_of};
ghost use Rattle.muf_frame.specs.inner.Answers.{AppliedOr};

use crate::shapes;
use muf_frame::{Frame, PrimFault};
use muf_model::Prim;
use std::alloc::Global;

/// Uses a primitive of texts: the frame is as its row says, or unchanged and the fault is that of the row. After
/// `NoMemory` nothing is said of the frame.
#[tactic(auto, unfolding(crate::specs::inner::Made::sought_in))]
pub fn apply(alloc: Global, prim: Prim, frame: &mut Frame) -> Result<(), PrimFault>
    requires { family_of prim ≡ Text }
    ensures { (words : ℕ) → AppliedOr (primitive prim (scope_of words (flat frame.old)) (flat frame.old).stack) frame.old frame.new result }
{
    match prim {
        Prim::StrLen
        | Prim::ToUpper
        | Prim::ToLower
        | Prim::StripLead
        | Prim::StripTail
        | Prim::AToI
        | Prim::CharToInt => shapes::one_text(alloc, prim, frame),
        Prim::StrCat | Prim::StrCmp | Prim::StringCmp => shapes::two_texts(alloc, prim, frame),
        Prim::InStr
        | Prim::RInStr
        | Prim::InString
        | Prim::RInString
        | Prim::Explode
        | Prim::Split
        | Prim::RSplit => shapes::sought(alloc, prim, frame),
        Prim::Subst => shapes::subst(alloc, frame),
        Prim::StrNCmp => shapes::first_compared(frame),
        Prim::StrCut => shapes::cut_behind(alloc, frame),
        Prim::MidStr => shapes::middle(alloc, frame),
        Prim::IntToStr => shapes::in_decimal(alloc, frame),
        Prim::IntToChar => shapes::character(alloc, frame),
        _ => unreachable!(),
    }
}
