// Loops over collections.
ghost use Rattle.std.specs.Prelude.{◌≡◌, ◌<◌, ◌+◌, ℕ, IfOk, slice_get, length, map, is_some, drop, option_map, option_copied, IfSome, pos};
ghost use Rattle.std.specs.Arc.{arc_value};
ghost use Rattle.muf_model.specs.Datum.{int, data_of, pairs_of};
ghost use Rattle.muf_model.specs.inner.View.{view};
ghost use Rattle.muf_model.specs.Unit.{values_numbered, keyed};
ghost use Rattle.muf_model.specs.inner.Flat.{Flat};
ghost use Rattle.muf_frame.specs.inner.Shown.{flat, flat_turns, opened_by};
ghost use Rattle.muf_run.specs.inner.Keys.{pull, pulled_data, turn_with};
ghost use Rattle.muf_run.specs.inner.Machine as machine;
ghost use Rattle.muf_run.specs.inner.Machine.{next_of};

use crate::marks::fault;
use crate::ran::Ran;
use muck_model::NoMemory;
use muf_frame::{Frame, Mark, Turns};
use muf_model::{MufFault, OPEN_MOST, Pair, STACK_MOST, Value, ValueList, ValueMap};
use std::alloc::Global;
use std::sync::Arc;

// What a turn pushes, and the turns behind it.
#[derive(Drop)]
struct Pulled {
    key: Value,
    value: Value,
    turns: Turns,
}

// What a loop over an item counts.
fn turns_over(item: Value) -> Option<Turns>
    ensures { option_map flat_turns result ≡ machine.keys_of (view item) }
{
    match item {
        Value::Items(of) => Some(Turns::Values { of, at: 0 }),
        Value::Dict(of) => Some(Turns::Pairs { of, at: 0 }),
        _ => None,
    }
}

// Whether a loop can go over an item.
fn is_keyed(item: &Value) -> bool
    ensures { result ≡ is_some (machine.keys_of (view item.now)) }
{
    matches!(item, Value::Items(_) | Value::Dict(_))
}

// Whether the top item is one.
#[tactic(auto, using(muf_frame::proofs::Data::list_steps))]
fn has_keys(frame: &Frame) -> bool
    ensures { result ≡ is_some (machine.keys_at (flat frame.now).stack) }
{
    match frame.peek(0) {
        Some(item) => is_keyed(item),
        None => false,
    }
}

// FOREACH, with the place behind the loop.
pub(crate) fn open_each(alloc: Global, frame: &mut Frame, after: usize) -> Result<Ran, NoMemory>
    ensures { IfOk result (λ ran. next_of ran (flat frame.new) ≡ machine.open_each after (flat frame.old)) }
{
    if let Err(refused) = frame.need(1) {
        return fault(alloc, frame, refused);
    }
    if !has_keys(frame) {
        return fault(alloc, frame, MufFault::BadType);
    }
    if frame.opened() >= OPEN_MOST {
        return fault(alloc, frame, MufFault::CallsFull);
    }
    let again = frame.place();
    match frame.pop_item() {
        None => unreachable!(),
        Some(item) => match turns_over(item) {
            None => unreachable!(),
            Some(turns) => {
                frame.push_loop(turns, again, after);
                Ok(Ran::Going(0))
            }
        },
    }
}

// The value at a place.
fn value_in(values: &[Value], at: usize) -> Option<&Value>
    ensures value { option_copied result ≡ slice_get values.now at }
    ensures within { IfSome result (λ _. at < length values.now) }
{
    values.get(at)
}

// The pair at a place.
fn pair_in(pairs: &[Pair], at: usize) -> Option<&Pair>
    ensures value { option_copied result ≡ slice_get pairs.now at }
    ensures within { IfSome result (λ _. at < length pairs.now) }
{
    pairs.get(at)
}

// The number of a place in a list as a value.
fn number_value(number: usize) -> Value
    requires { number < 65536 }
    ensures { view result ≡ int (pos number) }
{
    Value::Int(number as i32)
}

// A value of a list, with its number.
fn value_at(of: Arc<ValueList>, at: usize) -> Result<Option<Pulled>, NoMemory>
    ensures { IfOk result (λ pulled. option_map pulled_data pulled ≡ pull (drop at (values_numbered 0 (data_of (arc_value of))))) }
{
    let value = match value_in(of.as_slice(), at) {
        None => return Ok(None),
        Some(value) => value.copy()?,
    };
    Ok(Some(Pulled {
        key: number_value(at),
        value,
        turns: Turns::Values { of, at: at + 1 },
    }))
}

// A key of a dictionary, with its value.
fn entry_at(of: Arc<ValueMap>, at: usize) -> Result<Option<Pulled>, NoMemory>
    ensures { IfOk result (λ pulled. option_map pulled_data pulled ≡ pull (drop at (keyed (pairs_of (arc_value of))))) }
{
    let (key, value) = match pair_in(of.as_slice(), at) {
        None => return Ok(None),
        Some(pair) => (pair.key.to_value()?, pair.value.copy()?),
    };
    Ok(Some(Pulled {
        key,
        value,
        turns: Turns::Pairs { of, at: at + 1 },
    }))
}

// A turn with a pair, or the end of the loop.
#[tactic(auto, using(muf_frame::proofs::Data::data_steps))]
fn turn(
    alloc: Global,
    frame: &mut Frame,
    pulled: Option<Pulled>,
    again: usize,
    after: usize,
) -> Result<Ran, NoMemory>
    requires { opened_by (flat frame.old).marks < 512 }
    ensures { IfOk result (λ ran. next_of ran (flat frame.new) ≡ turn_with (option_map pulled_data pulled) again after (flat frame.old)) }
{
    match pulled {
        None => {
            frame.go_to(after);
            Ok(Ran::Going(0))
        }
        Some(pair) => {
            frame.push_loop(pair.turns, again, after);
            if frame.len() + 2 > STACK_MOST {
                return fault(alloc, frame, MufFault::StackFull);
            }
            frame.push_item(pair.key);
            frame.push_item(pair.value);
            Ok(Ran::Going(0))
        }
    }
}

// The test of a FOREACH's keys.
#[tactic(auto, using(muf_frame::proofs::Data::data_steps, crate::proofs::Turning::pair_turn))]
pub(crate) fn pair_test(alloc: Global, frame: &mut Frame) -> Result<Ran, NoMemory>
    ensures { IfOk result (λ ran. next_of ran (flat frame.new) ≡ machine.pair_test (flat frame.old) (flat frame.old).marks) }
{
    match frame.pop_mark() {
        Some(
            Mark::Loop {
                turns,
                again,
                after,
            },
        ) => match turns {
            Turns::Plain | Turns::Indices { .. } => Ok(Ran::Stuck),
            Turns::Values { of, at } => {
                let pulled = value_at(of, at)?;
                turn(alloc, frame, pulled, again, after)
            }
            Turns::Pairs { of, at } => {
                let pulled = entry_at(of, at)?;
                turn(alloc, frame, pulled, again, after)
            }
        },
        Some(Mark::Guard { .. }) | Some(Mark::Back { .. }) | Some(Mark::Leave { .. }) | None => {
            Ok(Ran::Stuck)
        }
    }
}
