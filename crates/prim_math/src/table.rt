// Every primitive of numbers.
ghost use Rattle.std.specs.Prelude.{◌≡◌, ℕ};
ghost use Rattle.muf_model.specs.declared.prims.Family.TheVariants.{Number};
ghost use Rattle.muf_model.specs.Rows.{primitive};
ghost use Rattle.muf_model.specs.Prims.{family_of};
ghost use Rattle.muf_frame.specs.inner.Shown.{Shown, flat};
ghost use Rattle.muf_frame.specs.inner.Moves.{scope_of};
ghost use Rattle.muf_frame.specs.inner.Answers.{Answered, Applied};

use crate::shapes;
use muf_frame::{Frame, PrimFault};
use muf_model::{MufFault, Prim};

// One of the primitives of numbers: of two integers, unless it stands here.
#[inline(always)]
fn answer(prim: Prim, frame: &mut Frame) -> Result<(), MufFault>
    requires { family_of prim ≡ Number }
    ensures { (words : ℕ) → Answered (primitive prim (scope_of words (flat frame.old)) (flat frame.old).stack) frame.old frame.new result }
{
    match prim {
        Prim::Increment | Prim::Decrement | Prim::Abs | Prim::Sign => shapes::one_int(prim, frame),
        Prim::Equal
        | Prim::Unequal
        | Prim::Less
        | Prim::Greater
        | Prim::LessEqual
        | Prim::GreaterEqual => shapes::compared(prim, frame),
        Prim::Not => shapes::negated(frame),
        Prim::And | Prim::Or | Prim::Xor => shapes::two_truths(prim, frame),
        Prim::ToInt => shapes::to_int(frame),
        Prim::ToDbref => shapes::to_object(frame),
        Prim::DbCmp => shapes::objects_equal(frame),
        _ => shapes::two_ints(prim, frame),
    }
}

/// Uses a primitive of numbers: the frame is as its row says, or unchanged and the fault is that of the row. Takes no
/// memory, and so `NoMemory` never comes.
#[inline(always)]
pub fn apply(prim: Prim, frame: &mut Frame) -> Result<(), PrimFault>
    requires { family_of prim ≡ Number }
    ensures { (words : ℕ) → Applied (primitive prim (scope_of words (flat frame.old)) (flat frame.old).stack) frame.old frame.new result }
{
    match answer(prim, frame) {
        Ok(()) => Ok(()),
        Err(fault) => Err(PrimFault::Fault(fault)),
    }
}
