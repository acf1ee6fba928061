// Every primitive of lists and dictionaries, by the shape of what it takes.
ghost use Rattle.std.specs.Prelude.{◌≡◌, ℕ};
ghost use Rattle.muf_model.specs.declared.prims.Family.TheVariants.{Array};
ghost use Rattle.muf_model.specs.Prims.{family_of};
ghost use Rattle.muf_model.specs.Rows.{primitive};
ghost use Rattle.muf_frame.specs.inner.Shown.{Shown, flat};
ghost use Rattle.muf_frame.specs.inner.Moves.{scope_of};
ghost use Rattle.muf_frame.specs.inner.Answers.{AppliedOr};

use crate::changes::Change;
use crate::{making, shapes};
use muf_frame::{Frame, PrimFault};
use muf_model::Prim;
use std::alloc::Global;

/// Uses a primitive of lists and dictionaries: the frame is as its row says, or unchanged and the fault is that of the row. A list or
/// dictionary that nobody else shares is changed where it is. After `NoMemory` nothing is said of the frame.
#[tactic(auto, unfolding(crate::specs::inner::Shapes::row_of_held))]
pub fn apply(alloc: Global, prim: Prim, frame: &mut Frame) -> Result<(), PrimFault>
    requires { family_of prim ≡ Array }
    ensures { (words : ℕ) → AppliedOr (primitive prim (scope_of words (flat frame.old)) (flat frame.old).stack) frame.old frame.new result }
{
    match prim {
        Prim::ArrayMake => making::list(alloc, frame),
        Prim::ArrayMakeDict => making::dictionary(alloc, frame),
        Prim::ArrayCount
        | Prim::ArrayFirst
        | Prim::ArrayKeys
        | Prim::ArrayVals
        | Prim::ArrayExplode => shapes::one_held(alloc, prim, frame),
        Prim::ArrayGetItem => shapes::item_got(frame),
        Prim::ArraySetItem => shapes::change(alloc, prim, Change::Set, frame),
        Prim::ArrayInsertItem => shapes::change(alloc, prim, Change::Insert, frame),
        Prim::ArrayAppendItem => shapes::append(alloc, frame),
        Prim::ArrayDelItem => shapes::delete(alloc, frame),
        Prim::ArrayNext => shapes::next(alloc, frame),
        Prim::ArrayJoin => shapes::joins(alloc, frame),
        _ => unreachable!(),
    }
}
