// The texts of values, joined.
ghost use Rattle.std.specs.Prelude.{◌≡◌, ◌<◌, ◌++◌, None, length, map, drop, is_some, IfOk, OnOk};
ghost use Rattle.muck_model.specs.Bytes.{text_fault};
ghost use Rattle.muf_model.specs.ArrayRows.{item_word, words_of, entries_in, joined_held};
ghost use Rattle.muf_model.specs.Texts.{texts_joined};
ghost use Rattle.muf_model.specs.TextRows.{text_within};
ghost use Rattle.muf_model.specs.inner.View.{view};
ghost use Rattle.muf_model.proofs.FaultTexts.{IsInside};
ghost use Rattle.std.specs.Fmt.{signed_decimal};
ghost use Rattle.muf_array.specs.inner.Shapes.{of_held, text_in, values_in, lead};
ghost use Rattle.prim_text.specs.inner.Made.{Makes};

use crate::entries::{count, is_held, value_there};
use muck_model::{NoMemory, TEXT_MOST};
use muf_frame::PrimFault;
use muf_model::{MufFault, Value};
use prim_text::{Made, sized};
use std::alloc::Global;

// Whether a value has a text.
fn has_text(value: &Value) -> bool
    ensures { result ≡ is_some (item_word (view value.now)) }
{
    matches!(value, Value::Str(_) | Value::Int(_) | Value::Ref(_))
}

// Whether all values have one.
#[tactic(auto, using(crate::proofs::Texts::all_steps))]
fn all_have_texts(held: &Value) -> bool
    ensures { result ≡ is_some (words_of (entries_in (view held.now))) }
{
    let count = count(held);
    let mut at = 0;
    while at < count {
        if !has_text(value_there(held, at)) {
            return false;
        }
        at += 1;
    }
    true
}

// A number in decimal behind other bytes.
#[tactic(auto, using(crate::proofs::Texts::number_steps))]
fn push_number(alloc: Global, made: &mut Vec<u8>, number: i32) -> Result<(), NoMemory>
    requires { IsInside made.old.items }
    ensures value { OnOk result (made.new.items ≡ made.old.items ++ signed_decimal number) }
    ensures inside { OnOk result (IsInside made.new.items) }
{
    let digits = number.to_string(alloc)?;
    made.extend_from_slice(digits.as_bytes())?;
    Ok(())
}

// The text of a value behind other bytes.
#[tactic(auto, using(crate::proofs::Texts::text_steps))]
fn push_text(alloc: Global, made: &mut Vec<u8>, value: &Value) -> Result<(), NoMemory>
    requires { IsInside made.old.items }
    ensures value { OnOk result (made.new.items ≡ made.old.items ++ text_in (view value.now)) }
    ensures inside { OnOk result (IsInside made.new.items) }
{
    match value {
        Value::Str(text) => Ok(made.extend_from_slice(text.as_slice())?),
        Value::Int(number) => push_number(alloc, made, *number),
        Value::Ref(object) => {
            made.push(b'#')?;
            push_number(alloc, made, object.0)
        }
        _ => Ok(()),
    }
}

// The text of the value at a place behind other bytes, with another one before it but at the first place.
#[tactic(auto, using(crate::proofs::Texts::join_steps))]
fn push_next(
    alloc: Global,
    made: &mut Vec<u8>,
    between: &[u8],
    at: usize,
    value: &Value,
) -> Result<(), NoMemory>
    requires inside { IsInside made.old.items }
    requires text { text_fault between.now ≡ None }
    ensures value { OnOk result (made.new.items ≡ made.old.items ++ (lead between.now at ++ text_in (view value.now))) }
    ensures inside { OnOk result (IsInside made.new.items) }
{
    if at > 0 {
        made.extend_from_slice(between)?;
    }
    push_text(alloc, made, value)
}

// The texts of all values with one between each two, or the beginning of it where it is too long.
#[tactic(auto, using(crate::proofs::Texts::join_steps))]
fn join_texts(alloc: Global, between: &[u8], held: &Value) -> Result<Vec<u8>, NoMemory>
    requires { text_fault between.now ≡ None }
    ensures value { IfOk result (λ made. text_within made.items ≡ text_within (texts_joined between.now (map text_in (values_in (view held.now))))) }
    ensures inside { IfOk result (λ made. IsInside made.items) }
{
    let count = count(held);
    let mut made = Vec::new(alloc);
    let mut at = 0;
    while at < count {
        if made.len() > TEXT_MOST {
            return Ok(made);
        }
        push_next(alloc, &mut made, between, at, value_there(held, at))?;
        at += 1;
    }
    Ok(made)
}

/// The texts of all values of a list or dictionary, with one between each two.
#[tactic(auto, using(crate::proofs::Texts::held_steps))]
pub(crate) fn joined(alloc: Global, between: &[u8], held: &Value) -> Result<Made, PrimFault>
    requires { text_fault between.now ≡ None }
    ensures { Makes (of_held (joined_held between.now) (view held.now)) result }
{
    if !is_held(held) || !all_have_texts(held) {
        return Err(PrimFault::Fault(MufFault::BadType));
    }
    sized(alloc, join_texts(alloc, between, held)?)
}
