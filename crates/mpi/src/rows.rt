// What the functions of texts make.
ghost use Rattle.std.specs.Prelude.{◌≡◌, IfOk, map as mapped};
ghost use Rattle.std.specs.Fmt.{decimal, signed_decimal};
ghost use Rattle.std.specs.Char.{to_ascii_uppercase};
ghost use Rattle.mpi.specs.Hosting.{Means};
ghost use Rattle.mpi.specs.Values.{function_text, sublist, values_listed};
ghost use Rattle.mpi.specs.Made.{Inside, found_text};

use crate::argument::Argument;
use crate::fault::MpiFault;
use crate::functions::Function;
use crate::lists::{cut, found_in, items, listed, middle, place_of_item, stripped, substituted};
use crate::texts::line_of;
use crate::values::{lowered, nth, number_of};
use muck_model::{Line, NoMemory};
use std::alloc::Global;

// A number in decimal.
#[tactic(auto, using(crate::proofs::Parts::part_steps))]
fn decimal(alloc: Global, n: usize) -> Result<Vec<u8>, NoMemory>
    ensures value { IfOk result (λ bytes. bytes.items ≡ decimal n) }
    ensures inside { IfOk result (λ bytes. Inside bytes.items) }
{
    let digits = n.to_string(alloc)?;
    Ok(digits.into_bytes())
}

// In upper case.
fn raised(alloc: Global, text: &[u8]) -> Result<Vec<u8>, NoMemory>
    ensures { IfOk result (λ high. high.items ≡ mapped to_ascii_uppercase text.now) }
{
    let high = text.iter().map(|b| b.to_ascii_uppercase()).collect(alloc)?;
    Ok(high)
}

// The list of the values.
fn list_of(alloc: Global, values: &[Argument<'_>]) -> Result<Vec<u8>, NoMemory>
    ensures value { IfOk result (λ bytes. bytes.items ≡ values_listed values.now) }
    ensures inside { IfOk result (λ bytes. Inside bytes.items) }
{
    let mut bytes = Vec::new(alloc);
    for at in 0..values.len() {
        if 0 < at {
            bytes.push(13)?;
        }
        bytes.extend_from_slice(values[at].as_slice())?;
    }
    Ok(bytes)
}

// The items from place p through place q.
fn sublist(alloc: Global, list: &[u8], p: i32, q: i32) -> Result<Vec<u8>, NoMemory>
    ensures { IfOk result (λ bytes. bytes.items ≡ sublist list.now p q) }
{
    let parts = items(alloc, list)?;
    listed(alloc, cut(p, q, &parts))
}

/// What a function of texts makes of its arguments: `BadValue` where they aren't what it takes, and `TooLong` where that would be too
/// long.
#[tactic(auto, using(crate::proofs::Parts::part_steps))]
pub(crate) fn text_of(
    alloc: Global,
    function: Function,
    values: &[Argument<'_>],
) -> Result<Line, MpiFault>
    ensures { Means (found_text (function_text function values.now)) result }
{
    let first = nth(values, 0);
    let second = nth(values, 1);
    match function {
        Function::Length => line_of(decimal(alloc, first.len())?),
        Function::Upper => line_of(raised(alloc, first)?),
        Function::Lower => line_of(lowered(alloc, first)?),
        Function::Strip => line_of(stripped(first).to_vec(alloc)?),
        Function::Find => match found_in(first, second) {
            Some(place) => line_of(decimal(alloc, place)?),
            None => Err(MpiFault::BadValue),
        },
        Function::Substitute => substituted(alloc, first, second, nth(values, 2)),
        Function::Middle => match middle(values) {
            Some(part) => line_of(part.to_vec(alloc)?),
            None => Err(MpiFault::BadValue),
        },
        Function::MakeList => line_of(list_of(alloc, values)?),
        Function::Count => line_of(decimal(alloc, items(alloc, first)?.len())?),
        Function::Member => {
            let parts = items(alloc, first)?;
            line_of(decimal(alloc, place_of_item(&parts, second))?)
        }
        Function::Sublist => {
            let list = sublist(alloc, first, number_of(second), number_of(nth(values, 2)))?;
            line_of(list)
        }
        _ => Ok(Line::of_text(alloc, &[])?),
    }
}
