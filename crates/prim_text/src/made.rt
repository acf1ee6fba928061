// What a primitive of texts makes, and how that takes the place of what it took.
ghost use Rattle.std.specs.Prelude.{◌≡◌, ◌≤◌, ◌+◌, ◌++◌, None, length, drop, map, IfOk};
ghost use Rattle.muck_model.specs.Bytes.{text_fault};
ghost use Rattle.muf_model.specs.Answer.{items_put, makes};
ghost use Rattle.muf_model.specs.TextRows.{text_within, number, two_parts};
ghost use Rattle.muf_model.specs.inner.View.{view};
ghost use Rattle.muf_model.specs.Datum.{text};
ghost use Rattle.muf_frame.specs.inner.Shown.{Shown, flat};
ghost use Rattle.muf_frame.specs.inner.Answers.{Answered, AppliedOr};
ghost use Rattle.muf_model.proofs.FaultTexts.{IsInside};
ghost use Rattle.prim_text.specs.inner.Made.{Makes, made_of};

use muck_model::{Line, NoMemory, TEXT_MOST};
use muf_frame::{Frame, PrimFault};
use muf_model::{MufFault, STACK_MOST, Text, Value};
use std::alloc::Global;

/// The item that a primitive makes, or those, of which the first comes to the top.
#[derive(Drop)]
pub enum Made {
    One(Value),
    Many(Vec<Value>),
}

/// The answer that is a number.
#[tactic(auto, using(crate::proofs::Making::making_steps))]
pub fn number(i: i32) -> Made
    ensures { number i ≡ made_of result }
{
    Made::One(Value::Int(i))
}

/// The text of these bytes, where it isn't too long.
#[tactic(auto, using(crate::proofs::Making::making_steps))]
pub fn sized(alloc: Global, bytes: Vec<u8>) -> Result<Made, PrimFault>
    requires { IsInside bytes.items }
    ensures { Makes (text_within bytes.items) result }
{
    if bytes.len() > TEXT_MOST {
        return Err(PrimFault::Fault(MufFault::TextTooLong));
    }
    let line = Line::of_text_vec(bytes);
    Ok(Made::One(Value::Str(Text::new(alloc, line)?)))
}

/// The text of these bytes, which are one.
#[tactic(auto, using(crate::proofs::Making::making_steps))]
pub(crate) fn text_of(alloc: Global, bytes: &[u8]) -> Result<Value, NoMemory>
    requires { text_fault bytes.now ≡ None }
    ensures { IfOk result (λ v. view v ≡ text bytes.now) }
{
    let line = Line::of_text(alloc, bytes)?;
    Ok(Value::Str(Text::new(alloc, line)?))
}

/// Two texts, the second on the top.
#[tactic(auto, using(crate::proofs::Making::making_steps))]
pub(crate) fn two_parts(alloc: Global, first: &[u8], second: &[u8]) -> Result<Made, NoMemory>
    requires first { text_fault first.now ≡ None }
    requires second { text_fault second.now ≡ None }
    ensures { IfOk result (λ made. two_parts first.now second.now ≡ made_of made) }
{
    let mut parts = Vec::with_capacity(alloc, 2)?;
    parts.push(text_of(alloc, second)?)?;
    parts.push(text_of(alloc, first)?)?;
    Ok(Made::Many(parts))
}

// Puts items on the top, the last of them first, where there is room.
fn push_all(frame: &mut Frame, items: Vec<Value>)
    requires { length items.items + length frame.old.stack ≤ 1024 }
    ensures { frame.new ≡ record frame.old { stack = items.items ++ frame.old.stack } }
{
    let mut left = items;
    while let Some(item) = left.pop() {
        frame.push_item(item);
    }
}

// So many items at the top, which are there, give way to these.
#[tactic(auto, using(crate::proofs::Making::giving_steps))]
fn give_all(frame: &mut Frame, taken: usize, items: Vec<Value>) -> Result<(), MufFault>
    requires { taken ≤ length frame.old.stack }
    ensures { Answered (items_put taken (makes (map view items.items)) (drop taken (flat frame.old).stack)) frame.old frame.new result }
{
    if items.len() > STACK_MOST - (frame.len() - taken) {
        return Err(MufFault::StackFull);
    }
    frame.drop_items(taken);
    push_all(frame, items);
    Ok(())
}

/// So many items at the top, which are there, give way to what is made.
pub fn give(frame: &mut Frame, taken: usize, made: Made) -> Result<(), PrimFault>
    requires { taken ≤ length frame.old.stack }
    ensures { AppliedOr (items_put taken (made_of made) (drop taken (flat frame.old).stack)) frame.old frame.new result }
{
    match made {
        Made::One(item) => Ok(frame.give(taken, item)?),
        Made::Many(items) => Ok(give_all(frame, taken, items)?),
    }
}
