// Loops and TRYs.
ghost use Rattle.std.specs.Prelude.{◌≡◌, ◌<◌, ◌^◌, ℕ, IfOk, slice_get, length, map, Some, pos};
ghost use Rattle.muf_model.specs.inner.View.{view};
ghost use Rattle.muf_model.specs.Unit.{has_turn, next_index};
ghost use Rattle.muf_model.specs.inner.Flat.{Flat};
ghost use Rattle.muf_frame.specs.inner.Shown.{flat};
ghost use Rattle.muf_run.specs.inner.Machine as machine;
ghost use Rattle.muf_run.specs.inner.Machine.{next_of};

use crate::items::push;
use crate::marks::{fault, leave_loop};
use crate::ran::Ran;
use muck_model::NoMemory;
use muf_frame::{Frame, Mark, Turns};
use muf_model::{MufFault, OPEN_MOST, Value};
use std::alloc::Global;

// Whether a loop makes a turn at this index.
#[inline(always)]
pub(crate) fn has_turn(index: i32, last: i32, step: i32) -> bool
    ensures { result ≡ has_turn index last step }
{
    if step > 0 {
        index <= last
    } else {
        index >= last
    }
}

// The sum, where it fits.
#[inline(always)]
pub(crate) fn next_index(index: i32, step: i32) -> Option<i32>
    ensures { result ≡ next_index index step }
{
    index.checked_add(step)
}

// The test of a FOR's index.
#[tactic(auto, using(muf_frame::proofs::Data::data_steps))]
#[inline(always)]
pub(crate) fn index_test(alloc: Global, frame: &mut Frame) -> Result<Ran, NoMemory>
    ensures { IfOk result (λ ran. next_of ran (flat frame.new) ≡ machine.index_test (flat frame.old) (flat frame.old).marks) }
{
    match frame.innermost() {
        Some(
            Mark::Loop {
                turns: Turns::Indices {
                    next: Some(index),
                    last,
                    step,
                },
                ..
            },
        ) => {
            let (index, step) = (*index, *step);
            if has_turn(index, *last, step) {
                frame.set_next(next_index(index, step));
                push(alloc, frame, Value::Int(index))
            } else {
                Ok(leave_loop(frame))
            }
        }
        Some(
            Mark::Loop {
                turns: Turns::Indices { next: None, .. },
                ..
            },
        ) => Ok(leave_loop(frame)),
        _ => Ok(Ran::Stuck),
    }
}

// FOR, with the place behind the loop.
#[tactic(auto, using(muf_frame::proofs::Data::data_steps))]
pub(crate) fn open_for(alloc: Global, frame: &mut Frame, after: usize) -> Result<Ran, NoMemory>
    ensures { IfOk result (λ ran. next_of ran (flat frame.new) ≡ machine.open_for after (flat frame.old)) }
{
    if let Err(refused) = frame.need(3) {
        return fault(alloc, frame, refused);
    }
    match (frame.int_at(0), frame.int_at(1), frame.int_at(2)) {
        (Some(step), Some(last), Some(start)) => {
            if frame.opened() >= OPEN_MOST {
                return fault(alloc, frame, MufFault::CallsFull);
            }
            frame.drop_items(3);
            let again = frame.place();
            let next = Some(start);
            frame.push_loop(Turns::Indices { next, last, step }, again, after);
            Ok(Ran::Going(0))
        }
        _ => fault(alloc, frame, MufFault::BadType),
    }
}

// TRY, with the place behind its CATCH.
#[tactic(auto, using(muf_frame::proofs::Data::data_steps))]
pub(crate) fn open_try(alloc: Global, frame: &mut Frame, handler: usize) -> Result<Ran, NoMemory>
    ensures { IfOk result (λ ran. next_of ran (flat frame.new) ≡ machine.open_try handler (flat frame.old)) }
{
    if let Err(refused) = frame.need(1) {
        return fault(alloc, frame, refused);
    }
    match frame.int_at(0) {
        None => fault(alloc, frame, MufFault::BadType),
        Some(count) => match usize::try_from(count) {
            Err(_) => fault(alloc, frame, MufFault::BadArgument),
            Ok(count) => guard(alloc, frame, count, handler),
        },
    }
}

// TRY, with its count.
#[tactic(auto, using(muf_frame::proofs::Data::data_steps, crate::proofs::Stacks::count_steps))]
fn guard(alloc: Global, frame: &mut Frame, count: usize, handler: usize) -> Result<Ran, NoMemory>
    requires { count < 2147483648 }
    ensures { IfOk result (λ ran. next_of ran (flat frame.new) ≡ machine.try_count (Some (pos count)) handler (flat frame.old)) }
{
    if let Err(refused) = frame.need(count + 1) {
        return fault(alloc, frame, refused);
    }
    if frame.opened() >= OPEN_MOST {
        return fault(alloc, frame, MufFault::CallsFull);
    }
    let height = frame.len() - 1;
    frame.drop_items(1);
    frame.push_guard(height - count, handler);
    Ok(Ran::Going(0))
}
