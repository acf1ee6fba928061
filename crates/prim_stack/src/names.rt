// The primitives that use variables, addresses and texts.
ghost use Rattle.std.specs.Prelude.{true, ◌≡◌, ◌<◌, ℕ, Some, length, slice_get, option_map, is_some, IfOk};
ghost use Rattle.std.specs.Option.{option_and_then};
ghost use Rattle.muf_model.specs.declared.prims.Primitive.TheVariants.{Fetch, Store, Execute, Abort};
ghost use Rattle.muf_model.specs.Rows.{primitive};
ghost use Rattle.muf_model.specs.Answer.{variable_at};
ghost use Rattle.muf_model.specs.inner.View.{view};
ghost use Rattle.muf_frame.specs.inner.Shown.{Shown, flat};
ghost use Rattle.muf_frame.specs.inner.Moves.{scope_of, with_variable};
ghost use Rattle.muf_frame.specs.inner.Answers.{IsRow, IsRowOr, text_at};
ghost use Rattle.prim_stack.specs.inner.Does.{as_variable, as_address, Does, HasMemory};

use crate::Done;
use muck_model::{Dbref, NoMemory};
use muf_frame::{Frame, PrimFault};
use muf_model::{MufFault, Text, Value, VarId};

// The variable that a value is.
fn as_variable(value: &Value) -> Option<VarId>
    ensures { option_map (λ v. v.0) result ≡ as_variable (view value.now) }
{
    match value {
        Value::Var(v) => Some(*v),
        _ => None,
    }
}

// The program and the word of the address that a value is.
fn as_address(value: &Value) -> Option<(Dbref, u32)>
    ensures { option_map (λ a. (a.0.0, a.1)) result ≡ as_address (view value.now) }
{
    match value {
        Value::Addr { program, word } => Some((*program, *word)),
        _ => None,
    }
}

// The variable on the top.
#[tactic(auto, using(crate::proofs::Tops::mark_steps))]
fn variable_at_top(frame: &Frame) -> Option<VarId>
    ensures { option_map (λ v. v.0) result ≡ option_and_then as_variable (slice_get (flat frame.now).stack 0) }
{
    match frame.peek(0) {
        Some(value) => as_variable(value),
        None => None,
    }
}

// The address on the top.
#[tactic(auto, using(crate::proofs::Tops::mark_steps))]
fn address_at_top(frame: &Frame) -> Option<(Dbref, u32)>
    ensures { option_map (λ a. (a.0.0, a.1)) result ≡ option_and_then as_address (slice_get (flat frame.now).stack 0) }
{
    match frame.peek(0) {
        Some(value) => as_address(value),
        None => None,
    }
}

// The text on the top.
fn text_at_top(frame: &Frame) -> Result<Option<Text>, NoMemory>
    ensures { IfOk result (λ t. t ≡ text_at 0 (flat frame.now).stack) }
{
    match frame.text_at(0) {
        Some(text) => Ok(Some(text.share()?)),
        None => Ok(None),
    }
}

// A copy of a variable's value; none where there is no variable of that number.
fn copy_variable(frame: &Frame, v: VarId) -> Result<Option<Value>, NoMemory>
    ensures { IfOk result (λ x. option_map view x ≡ variable_at v.0 (scope_of 0 (flat frame.now))) }
{
    match frame.variable(v) {
        Some(value) => Ok(Some(value.copy()?)),
        None => Ok(None),
    }
}

/// `@`.
#[tactic(auto, using(crate::proofs::Naming::name_steps))]
pub(crate) fn fetch(frame: &mut Frame) -> Result<(), PrimFault>
    ensures { IsRowOr Fetch frame.old frame.new result }
{
    frame.need(1)?;
    match variable_at_top(frame) {
        Some(v) => match copy_variable(frame, v)? {
            Some(value) => {
                frame.drop_items(1);
                frame.push_item(value);
                Ok(())
            }
            None => Err(PrimFault::Fault(MufFault::BadArgument)),
        },
        None => Err(PrimFault::Fault(MufFault::BadType)),
    }
}

// Whether there is a variable of this number.
fn has_variable(frame: &Frame, v: VarId) -> bool
    ensures { result ≡ is_some (variable_at v.0 (scope_of 0 (flat frame.now))) }
{
    match frame.variable(v) {
        Some(_) => true,
        None => false,
    }
}

// Gives a variable that is there another value.
fn put_variable(frame: &mut Frame, v: VarId, item: Value)
    requires { is_some (variable_at v.0 (scope_of 0 (flat frame.old))) ≡ true }
    ensures { flat frame.new ≡ with_variable v.0 (view item) (flat frame.old) }
{
    let _there = frame.set_variable(v, item);
}

/// `!`.
#[tactic(auto, using(crate::proofs::Naming::store_steps))]
pub(crate) fn store(frame: &mut Frame) -> Result<(), MufFault>
    ensures { IsRow Store frame.old frame.new result }
{
    frame.need(2)?;
    match variable_at_top(frame) {
        Some(v) => {
            if !has_variable(frame, v) {
                return Err(MufFault::BadArgument);
            }
            frame.drop_items(1);
            match frame.pop_item() {
                Some(item) => {
                    put_variable(frame, v, item);
                    Ok(())
                }
                None => unreachable!(),
            }
        }
        None => Err(MufFault::BadType),
    }
}

/// ABORT.
#[tactic(auto, using(crate::proofs::Naming::name_steps))]
pub(crate) fn abort(frame: &mut Frame) -> Result<(), PrimFault>
    ensures { IsRowOr Abort frame.old frame.new result }
{
    frame.need(1)?;
    match text_at_top(frame)? {
        Some(text) => Err(PrimFault::Fault(MufFault::Aborted(text))),
        None => Err(PrimFault::Fault(MufFault::BadType)),
    }
}

/// EXECUTE, where the running program has so many words.
#[tactic(auto, using(crate::proofs::Naming::name_steps))]
pub(crate) fn execute(frame: &mut Frame, words: usize) -> Result<Done, PrimFault>
    ensures value { Does (primitive Execute (scope_of words (flat frame.old)) (flat frame.old).stack) frame.old frame.new result }
    ensures memory { HasMemory result }
{
    frame.need(1)?;
    match address_at_top(frame) {
        Some((program, word)) => {
            if program == frame.program() && (word as usize) < words {
                frame.drop_items(1);
                Ok(Done::Calls(word))
            } else {
                Err(PrimFault::Fault(MufFault::BadAddress))
            }
        }
        None => Err(PrimFault::Fault(MufFault::BadType)),
    }
}
