// The primitives that copy items, and so may want memory.
ghost use Rattle.std.specs.Prelude.{◌≡◌, ◌+◌, ◌<◌, ◌≤◌, ◌++◌, ℕ, Some, length, take, slice_get, IfOk, OnOk};
ghost use Rattle.muf_model.specs.declared.prims.Primitive.TheVariants.{Dup, DupTrue, Over, Tuck, Pick, DupN, LDup};
ghost use Rattle.muf_model.specs.inner.View.{view};
ghost use Rattle.muf_frame.specs.inner.Shown.{Shown, flat};
ghost use Rattle.muf_frame.specs.inner.Answers.{IsRowOr};
ghost use Rattle.prim_stack.specs.inner.Does.{true_in};

use crate::moves::count;
use muck_model::NoMemory;
use muf_frame::{Frame, PrimFault};
use muf_model::{MufFault, STACK_MOST, Value};

// A copy of the item at a depth, which is there.
#[tactic(auto, using(crate::proofs::Tops::mark_steps))]
fn copy_at(frame: &Frame, depth: usize) -> Result<Value, NoMemory>
    requires { depth < length frame.now.stack }
    ensures { IfOk result (λ v. slice_get (flat frame.now).stack depth ≡ Some (view v)) }
{
    match frame.peek(depth) {
        Some(value) => Ok(value.copy()?),
        None => unreachable!(),
    }
}

// Whether the top item is true.
#[tactic(auto, using(crate::proofs::Tops::mark_steps))]
fn is_true_at_top(frame: &Frame) -> bool
    ensures { result ≡ true_in (slice_get (flat frame.now).stack 0) }
{
    match frame.peek(0) {
        Some(value) => value.is_true(),
        None => false,
    }
}

/// DUP.
#[tactic(auto, using(crate::proofs::Copying::copy_steps))]
pub(crate) fn dup(frame: &mut Frame) -> Result<(), PrimFault>
    ensures { IsRowOr Dup frame.old frame.new result }
{
    frame.need(1)?;
    let item = copy_at(frame, 0)?;
    frame.push(item)?;
    Ok(())
}

/// ?DUP.
#[tactic(auto, using(crate::proofs::Copying::copy_steps))]
pub(crate) fn dup_true(frame: &mut Frame) -> Result<(), PrimFault>
    ensures { IsRowOr DupTrue frame.old frame.new result }
{
    frame.need(1)?;
    if !is_true_at_top(frame) {
        return Ok(());
    }
    let item = copy_at(frame, 0)?;
    frame.push(item)?;
    Ok(())
}

/// OVER.
#[tactic(auto, using(crate::proofs::Copying::copy_steps))]
pub(crate) fn over(frame: &mut Frame) -> Result<(), PrimFault>
    ensures { IsRowOr Over frame.old frame.new result }
{
    frame.need(2)?;
    let item = copy_at(frame, 1)?;
    frame.push(item)?;
    Ok(())
}

/// TUCK.
#[tactic(auto, using(crate::proofs::Copying::tuck_steps))]
pub(crate) fn tuck(frame: &mut Frame) -> Result<(), PrimFault>
    ensures { IsRowOr Tuck frame.old frame.new result }
{
    frame.need(2)?;
    let item = copy_at(frame, 0)?;
    if frame.len() == STACK_MOST {
        return Err(PrimFault::Fault(MufFault::StackFull));
    }
    frame.put_item(2, item);
    Ok(())
}

/// PICK.
#[tactic(auto, using(crate::proofs::Copying::pick_steps))]
pub(crate) fn pick(frame: &mut Frame) -> Result<(), PrimFault>
    ensures { IsRowOr Pick frame.old frame.new result }
{
    let n = count(frame, 1)?;
    if n == 0 {
        return Err(PrimFault::Fault(MufFault::BadArgument));
    }
    let item = copy_at(frame, n)?;
    frame.drop_items(1);
    frame.push_item(item);
    Ok(())
}

// The n items at the top once more, where there is room.
#[tactic(auto, using(crate::proofs::Copying::many_steps))]
fn copy_items(frame: &mut Frame, n: usize) -> Result<(), NoMemory>
    requires there { n ≤ length frame.old.stack }
    requires room { length frame.old.stack + n ≤ 1024 }
    ensures { OnOk result (flat frame.new ≡ record (flat frame.old) { stack = take n (flat frame.old).stack ++ (flat frame.old).stack }) }
{
    let mut at = 0;
    while at < n {
        let item = copy_at(frame, n - 1)?;
        frame.push_item(item);
        at += 1;
    }
    Ok(())
}

/// DUPN.
#[tactic(auto, using(crate::proofs::Copying::dupn_steps))]
pub(crate) fn dupn(frame: &mut Frame) -> Result<(), PrimFault>
    ensures { IsRowOr DupN frame.old frame.new result }
{
    let n = count(frame, 1)?;
    if frame.len() - 1 + n > STACK_MOST {
        return Err(PrimFault::Fault(MufFault::StackFull));
    }
    frame.drop_items(1);
    copy_items(frame, n)?;
    Ok(())
}

/// LDUP.
#[tactic(auto, using(crate::proofs::Copying::ldup_steps))]
pub(crate) fn ldup(frame: &mut Frame) -> Result<(), PrimFault>
    ensures { IsRowOr LDup frame.old frame.new result }
{
    let n = count(frame, 1)?;
    if frame.len() + n + 1 > STACK_MOST {
        return Err(PrimFault::Fault(MufFault::StackFull));
    }
    copy_items(frame, n + 1)?;
    Ok(())
}
