// Faults, and words that leave what encloses them.
ghost use Rattle.std.specs.Prelude.{◌≡◌, IfOk};
ghost use Rattle.muf_frame.specs.inner.Shown.{flat};
ghost use Rattle.muf_run.specs.inner.Machine as machine;
ghost use Rattle.muf_run.specs.inner.Machine.{next_of};

use crate::ran::Ran;
use muck_model::NoMemory;
use muf_frame::{Frame, Mark};
use muf_model::MufFault;
use std::alloc::Global;

// Back to the nearest TRY, or the end of the process.
pub(crate) fn fault(alloc: Global, frame: &mut Frame, fault: MufFault) -> Result<Ran, NoMemory>
    ensures { IfOk result (λ ran. next_of ran (flat frame.new) ≡ machine.fault fault (flat frame.old)) }
{
    match frame.unwind(alloc, &fault)? {
        Some(programs) => Ok(Ran::Going(programs)),
        None => Ok(Ran::Faulted(fault)),
    }
}

// EXIT and `;`.
#[tactic(auto, using(muf_frame::proofs::Data::data_steps))]
pub(crate) fn leave_word(frame: &mut Frame) -> Ran
    ensures { next_of result (flat frame.new) ≡ machine.leave_word (flat frame.old) (flat frame.old).marks }
{
    while let Some(mark) = frame.pop_mark() {
        match mark {
            Mark::Back { place, .. } => {
                frame.go_to(place);
                return Ran::Going(0);
            }
            Mark::Leave { place, .. } => {
                frame.go_to(place);
                return Ran::Going(1);
            }
            Mark::Loop { .. } | Mark::Guard { .. } => {}
        }
    }
    Ran::Ended
}

// BREAK.
#[tactic(auto, using(muf_frame::proofs::Data::data_steps))]
pub(crate) fn leave_loop(frame: &mut Frame) -> Ran
    ensures { next_of result (flat frame.new) ≡ machine.leave_loop (flat frame.old) (flat frame.old).marks }
{
    while let Some(mark) = frame.pop_mark() {
        match mark {
            Mark::Loop { after, .. } => {
                frame.go_to(after);
                return Ran::Going(0);
            }
            Mark::Guard { .. } => {}
            Mark::Back { .. } | Mark::Leave { .. } => return Ran::Stuck,
        }
    }
    Ran::Stuck
}

// CONTINUE and REPEAT.
#[tactic(auto, using(muf_frame::proofs::Data::data_steps))]
#[inline(always)]
pub(crate) fn next_turn(frame: &mut Frame) -> Ran
    ensures { next_of result (flat frame.new) ≡ machine.next_turn (flat frame.old) (flat frame.old).marks }
{
    while let Some(mark) = frame.innermost() {
        match mark {
            Mark::Loop { again, .. } => {
                let again = *again;
                frame.go_to(again);
                return Ran::Going(0);
            }
            Mark::Guard { .. } => {
                let _left = frame.pop_mark();
            }
            Mark::Back { .. } | Mark::Leave { .. } => return Ran::Stuck,
        }
    }
    Ran::Stuck
}

// CATCH, when the block reaches it.
#[tactic(auto, using(muf_frame::proofs::Data::data_steps))]
pub(crate) fn end_try(frame: &mut Frame, to: usize) -> Ran
    ensures { next_of result (flat frame.new) ≡ machine.end_try to (flat frame.old) (flat frame.old).marks }
{
    match frame.pop_mark() {
        Some(Mark::Guard { .. }) => {
            frame.go_to(to);
            Ran::Going(0)
        }
        Some(Mark::Loop { .. }) | Some(Mark::Back { .. }) | Some(Mark::Leave { .. }) | None => {
            Ran::Stuck
        }
    }
}
