// Words that take or push items.
ghost use Rattle.std.specs.Prelude.{◌≡◌, ℕ, IfOk, slice_get, length, map};
ghost use Rattle.muf_model.specs.inner.View.{view};
ghost use Rattle.muf_model.specs.inner.Flat.{Flat};
ghost use Rattle.muf_frame.specs.inner.Shown.{flat};
ghost use Rattle.muf_run.specs.inner.Machine as machine;
ghost use Rattle.muf_run.specs.inner.Machine.{Next, next_of, tested_as};

use crate::marks::fault;
use crate::ran::Ran;
use muck_model::NoMemory;
use muf_frame::Frame;
use muf_model::{CALLS_MOST, Code, MufFault, Value, VarId};
use std::alloc::Global;

// Takes the top item as a truth.
#[tactic(auto, using(muf_frame::proofs::Data::data_steps))]
#[inline(always)]
pub(crate) fn test(frame: &mut Frame) -> Result<bool, MufFault>
    ensures { (then_go : Flat → Next) (else_go : Flat → Next) → machine.test (flat frame.old) then_go else_go ≡ tested_as result (flat frame.new) then_go else_go }
{
    let item = frame.pop()?;
    Ok(item.is_true())
}

// Pushes an item.
#[tactic(auto, using(muf_frame::proofs::Data::data_steps))]
#[inline(always)]
pub(crate) fn push(alloc: Global, frame: &mut Frame, item: Value) -> Result<Ran, NoMemory>
    ensures { IfOk result (λ ran. next_of ran (flat frame.new) ≡ machine.pushed (view item) (flat frame.old)) }
{
    match frame.push(item) {
        Ok(()) => Ok(Ran::Going(0)),
        Err(refused) => fault(alloc, frame, refused),
    }
}

// Calls a word of the running program.
pub(crate) fn call(
    alloc: Global,
    code: &Code,
    frame: &mut Frame,
    word: u32,
) -> Result<Ran, NoMemory>
    ensures { IfOk result (λ ran. next_of ran (flat frame.new) ≡ machine.call (slice_get code.now.words word) (flat frame.old)) }
{
    match code.words.get(word as usize) {
        None => fault(alloc, frame, MufFault::BadAddress),
        Some(word) => {
            if frame.calls() >= CALLS_MOST - 1 {
                return fault(alloc, frame, MufFault::CallsFull);
            }
            frame.call(word.start, word.variables)?;
            Ok(Ran::Going(0))
        }
    }
}

// The top item goes into a variable.
#[tactic(auto, using(muf_frame::proofs::Data::data_steps))]
pub(crate) fn keep(alloc: Global, frame: &mut Frame, v: VarId) -> Result<Ran, NoMemory>
    ensures { IfOk result (λ ran. next_of ran (flat frame.new) ≡ machine.keeping v.0 (flat frame.old)) }
{
    if let Err(refused) = frame.need(1) {
        return fault(alloc, frame, refused);
    }
    if frame.variable(v).is_none() {
        return fault(alloc, frame, MufFault::BadArgument);
    }
    match frame.pop_item() {
        Some(item) => {
            let _set = frame.set_variable(v, item);
            Ok(Ran::Going(0))
        }
        None => fault(alloc, frame, MufFault::StackEmpty),
    }
}

// The arguments of a header become the first variables of the call.
#[tactic(auto, using(muf_frame::proofs::Data::data_steps))]
pub(crate) fn bind(alloc: Global, frame: &mut Frame, count: u32) -> Result<Ran, NoMemory>
    ensures { IfOk result (λ ran. next_of ran (flat frame.new) ≡ machine.bound count (flat frame.old)) }
{
    if let Err(refused) = frame.need(count as usize) {
        return fault(alloc, frame, refused);
    }
    frame.bind(alloc, count as usize)?;
    Ok(Ran::Going(0))
}
