// Every primitive of the stack.
ghost use Rattle.std.specs.Prelude.{◌≡◌, true, false};
ghost use Rattle.muf_model.specs.declared.prims.Family.TheVariants.{Stack};
ghost use Rattle.muf_model.specs.Rows.{primitive};
ghost use Rattle.muf_model.specs.Prims.{family_of};
ghost use Rattle.muf_frame.specs.inner.Shown.{Shown, flat};
ghost use Rattle.muf_frame.specs.inner.Moves.{scope_of};
ghost use Rattle.muf_frame.specs.inner.Answers.{IsRow, IsRowOr};
ghost use Rattle.prim_stack.specs.inner.Does.{Does, HasMemory, moves, copies};

use crate::{copies, kinds, marks, moves, names};
use muf_frame::{Frame, PrimFault};
use muf_model::{MufFault, Prim};

/// What is left to do after a primitive of the stack.
#[derive(Clone, Copy, PartialEq, Eq, Debug)]
pub enum Done {
    /// Nothing.
    Kept,
    /// A call of the word of this number of the running program.
    Calls(u32),
}

// One of the primitives that take no memory.
#[inline(always)]
fn moved(prim: Prim, frame: &mut Frame) -> Result<(), MufFault>
    requires { moves prim ≡ true }
    ensures { IsRow prim frame.old frame.new result }
{
    match prim {
        Prim::Pop => moves::pop(frame),
        Prim::Swap => moves::swap(frame),
        Prim::Rot => moves::rot(frame),
        Prim::Rotate => moves::rotate(frame),
        Prim::Put => moves::put(frame),
        Prim::Nip => moves::nip(frame),
        Prim::PopN => moves::popn(frame),
        Prim::Reverse => moves::reverse(frame),
        Prim::Depth => moves::depth(frame),
        Prim::OpenMark => moves::open_mark(frame),
        Prim::CloseMark => marks::close_mark(frame),
        Prim::Store => names::store(frame),
        Prim::IsInt
        | Prim::IsString
        | Prim::IsDbref
        | Prim::IsArray
        | Prim::IsDictionary
        | Prim::IsAddress
        | Prim::IsLock => kinds::judge(prim, frame),
        _ => unreachable!(),
    }
}

// One of the primitives that copy.
fn copied(prim: Prim, frame: &mut Frame) -> Result<(), PrimFault>
    requires { copies prim ≡ true }
    ensures { IsRowOr prim frame.old frame.new result }
{
    match prim {
        Prim::Dup => copies::dup(frame),
        Prim::DupTrue => copies::dup_true(frame),
        Prim::Over => copies::over(frame),
        Prim::Tuck => copies::tuck(frame),
        Prim::Pick => copies::pick(frame),
        Prim::DupN => copies::dupn(frame),
        Prim::LDup => copies::ldup(frame),
        Prim::Fetch => names::fetch(frame),
        Prim::Abort => names::abort(frame),
        _ => unreachable!(),
    }
}

/// Uses a primitive of the stack, where the running program has so many words: the frame is as the row of the primitive
/// says, or unchanged and the fault is that of the row. After `NoMemory` nothing is said of the frame; POP, SWAP, ROT,
/// ROTATE, PUT, NIP, POPN, REVERSE, DEPTH, the marks, `!`, the tests of kinds and EXECUTE take no memory.
#[tactic(auto, using(crate::proofs::Naming::same_row))]
#[inline(always)]
pub fn apply(prim: Prim, frame: &mut Frame, words: usize) -> Result<Done, PrimFault>
    requires { family_of prim ≡ Stack }
    ensures value { Does (primitive prim (scope_of words (flat frame.old)) (flat frame.old).stack) frame.old frame.new result }
    ensures memory { copies prim ≡ false → HasMemory result }
{
    match prim {
        Prim::Execute => names::execute(frame, words),
        Prim::Dup
        | Prim::DupTrue
        | Prim::Over
        | Prim::Tuck
        | Prim::Pick
        | Prim::DupN
        | Prim::LDup
        | Prim::Fetch
        | Prim::Abort => {
            copied(prim, frame)?;
            Ok(Done::Kept)
        }
        _ => {
            moved(prim, frame)?;
            Ok(Done::Kept)
        }
    }
}
