// What each primitive of texts makes of the bytes and numbers that it takes.
ghost use Rattle.std.specs.Prelude.{◌≡◌, ◌≤◌, ◌<◌, ◌+◌, None, length, map, take, drop, ◌++◌, IfOk, IfSome};
ghost use Rattle.std.specs.Char.{to_ascii_uppercase};
ghost use Rattle.std.specs.Fmt.{signed_decimal};
ghost use Rattle.muck_model.specs.Bytes.{text_fault, text_most};
ghost use Rattle.muf_model.proofs.FaultTexts.{IsInside};
ghost use Rattle.muf_model.specs.Texts.{text_pieces, one_byte};
ghost use Rattle.muf_model.specs.TextRows as row;
ghost use Rattle.prim_text.specs.inner.Made.{Makes, made_of, sought_in};

use crate::made::{Made, number, sized, two_parts};
use crate::numbers::{difference, first_byte, lead_stripped, number_in, tail_stripped};
use crate::places::{cut_out, first_place, last_place, pieces, substituted};
use muck_model::NoMemory;
use muf_frame::PrimFault;
use muf_model::{MufFault, Prim, Value};
use std::alloc::Global;

// In capitals.
fn upper(alloc: Global, bytes: &[u8]) -> Result<Vec<u8>, NoMemory>
    ensures { IfOk result (λ made. made.items ≡ map to_ascii_uppercase bytes.now) }
{
    Ok(bytes.to_ascii_uppercase(alloc)?)
}

// In lower case.
fn lower(alloc: Global, bytes: &[u8]) -> Result<Vec<u8>, NoMemory>
    ensures { IfOk result (λ made. made.items ≡ row.lower bytes.now) }
{
    Ok(bytes.to_ascii_lowercase(alloc)?)
}

// The bytes once more.
fn copied(alloc: Global, bytes: &[u8]) -> Result<Vec<u8>, NoMemory>
    ensures { IfOk result (λ made. made.items ≡ bytes.now) }
{
    Ok(bytes.to_vec(alloc)?)
}

/// The primitives of one text.
#[tactic(auto, using(crate::proofs::Texts::row_steps))]
pub(crate) fn of_text(alloc: Global, prim: Prim, bytes: &[u8]) -> Result<Made, PrimFault>
    requires short { length bytes.now ≤ text_most }
    requires text { text_fault bytes.now ≡ None }
    ensures { Makes (row.of_text prim bytes.now) result }
{
    match prim {
        Prim::StrLen => Ok(number(bytes.len() as i32)),
        Prim::ToUpper => sized(alloc, upper(alloc, bytes)?),
        Prim::ToLower => sized(alloc, lower(alloc, bytes)?),
        Prim::StripLead => sized(alloc, copied(alloc, lead_stripped(bytes))?),
        Prim::StripTail => sized(alloc, copied(alloc, tail_stripped(bytes))?),
        Prim::AToI => Ok(number(number_in(bytes))),
        Prim::CharToInt => Ok(number(first_byte(bytes))),
        _ => Err(PrimFault::Fault(MufFault::BadArgument)),
    }
}

// A place from 1, or 0 for none.
fn place(at: Option<usize>) -> Made
    requires { IfSome at (λ k. k ≤ text_most) }
    ensures { row.place at ≡ made_of result }
{
    match at {
        Some(at) => number(at as i32 + 1),
        None => number(0),
    }
}

// What stands before so many bytes at a place and behind them, or all and the empty text.
#[tactic(auto, using(crate::proofs::Texts::part_steps))]
fn around(alloc: Global, bytes: &[u8], count: usize, at: Option<usize>) -> Result<Made, NoMemory>
    requires text { text_fault bytes.now ≡ None }
    requires within { IfSome at (λ k. k + count ≤ length bytes.now) }
    ensures { IfOk result (λ made. row.around bytes.now count at ≡ made_of made) }
{
    match at {
        Some(at) => {
            let (front, behind) = cut_out(bytes, at, count);
            two_parts(alloc, front, behind)
        }
        None => two_parts(alloc, bytes, b""),
    }
}

// The pieces between the texts that are sought, with their count, which comes to the top.
fn exploded(alloc: Global, bytes: &[u8], sought: &[u8]) -> Result<Made, NoMemory>
    requires some { 0 < length sought.now }
    requires short { length bytes.now ≤ text_most }
    requires text { text_fault bytes.now ≡ None }
    ensures { IfOk result (λ made. row.counted_texts (text_pieces sought.now bytes.now) ≡ made_of made) }
{
    let mut items = pieces(alloc, sought, bytes)?;
    let count = Value::Int(items.len() as i32);
    items.insert(0, count)?;
    Ok(Made::Many(items))
}

// The primitives that seek a text, which isn't empty, in another one.
fn of_sought(alloc: Global, prim: Prim, bytes: &[u8], sought: &[u8]) -> Result<Made, PrimFault>
    requires some { 0 < length sought.now }
    requires short { length bytes.now ≤ text_most }
    requires text { text_fault bytes.now ≡ None }
    ensures { Makes (row.of_sought prim bytes.now sought.now) result }
{
    match prim {
        Prim::InStr => Ok(place(first_place(sought, bytes))),
        Prim::RInStr => Ok(place(last_place(sought, bytes))),
        Prim::InString => Ok(place(first_place(&lower(alloc, sought)?, &lower(alloc, bytes)?))),
        Prim::RInString => Ok(place(last_place(&lower(alloc, sought)?, &lower(alloc, bytes)?))),
        Prim::Split => Ok(around(alloc, bytes, sought.len(), first_place(sought, bytes))?),
        Prim::RSplit => Ok(around(alloc, bytes, sought.len(), last_place(sought, bytes))?),
        Prim::Explode => Ok(exploded(alloc, bytes, sought)?),
        _ => Err(PrimFault::Fault(MufFault::BadArgument)),
    }
}

/// The primitives that seek a text in another one.
#[tactic(auto, unfolding(crate::specs::inner::Made::sought_in))]
pub(crate) fn seeking(
    alloc: Global,
    prim: Prim,
    bytes: &[u8],
    sought: &[u8],
) -> Result<Made, PrimFault>
    requires short { length bytes.now ≤ text_most }
    requires text { text_fault bytes.now ≡ None }
    ensures { Makes (sought_in prim bytes.now sought.now) result }
{
    if sought.is_empty() {
        return Err(PrimFault::Fault(MufFault::BadArgument));
    }
    of_sought(alloc, prim, bytes, sought)
}

// One text behind another.
#[tactic(auto, using(crate::proofs::Texts::row_steps))]
fn joined(alloc: Global, first: &[u8], second: &[u8]) -> Result<Vec<u8>, NoMemory>
    requires first { text_fault first.now ≡ None }
    requires second { text_fault second.now ≡ None }
    ensures value { IfOk result (λ made. made.items ≡ first.now ++ second.now) }
    ensures inside { IfOk result (λ made. IsInside made.items) }
{
    let mut bytes = Vec::with_capacity(alloc, first.len() + second.len())?;
    bytes.extend_from_slice(first)?;
    bytes.extend_from_slice(second)?;
    Ok(bytes)
}

/// The primitives of two texts, the second one on the top.
pub(crate) fn of_texts(
    alloc: Global,
    prim: Prim,
    first: &[u8],
    second: &[u8],
) -> Result<Made, PrimFault>
    requires first { text_fault first.now ≡ None }
    requires second { text_fault second.now ≡ None }
    ensures { Makes (row.of_texts prim first.now second.now) result }
{
    match prim {
        Prim::StrCat => sized(alloc, joined(alloc, first, second)?),
        Prim::StrCmp => Ok(number(difference(first, second))),
        Prim::StringCmp => Ok(number(difference(&lower(alloc, first)?, &lower(alloc, second)?))),
        _ => Err(PrimFault::Fault(MufFault::BadArgument)),
    }
}

/// SUBST.
#[tactic(auto, using(crate::proofs::Texts::row_steps))]
pub(crate) fn subst(
    alloc: Global,
    bytes: &[u8],
    other: &[u8],
    sought: &[u8],
) -> Result<Made, PrimFault>
    requires text { text_fault bytes.now ≡ None }
    requires other { text_fault other.now ≡ None }
    ensures { Makes (row.subst bytes.now other.now sought.now) result }
{
    if sought.is_empty() {
        return sized(alloc, copied(alloc, bytes)?);
    }
    sized(alloc, substituted(alloc, bytes, other, sought)?)
}

// So many bytes at the front, or all.
#[tactic(auto, using(crate::proofs::Texts::end_steps))]
fn front(bytes: &[u8], count: usize) -> &[u8]
    ensures { result.now ≡ take count bytes.now }
{
    if count < bytes.len() {
        &bytes[..count]
    } else {
        bytes
    }
}

// What stands behind so many bytes.
#[tactic(auto, using(crate::proofs::Texts::end_steps))]
fn behind(bytes: &[u8], count: usize) -> &[u8]
    ensures { result.now ≡ drop count bytes.now }
{
    if count < bytes.len() {
        &bytes[count..]
    } else {
        b""
    }
}

/// STRCUT.
#[tactic(auto, using(crate::proofs::Texts::part_steps))]
pub(crate) fn cut_behind(alloc: Global, bytes: &[u8], count: i32) -> Result<Made, PrimFault>
    requires { text_fault bytes.now ≡ None }
    ensures { Makes (row.text_cut_behind bytes.now count) result }
{
    if count < 0 {
        return Err(PrimFault::Fault(MufFault::BadArgument));
    }
    let count = count as usize;
    Ok(two_parts(alloc, front(bytes, count), behind(bytes, count))?)
}

/// STRNCMP.
pub(crate) fn first_compared(first: &[u8], second: &[u8], count: i32) -> Result<Made, PrimFault>
    ensures { Makes (row.first_compared first.now second.now count) result }
{
    if count < 0 {
        return Err(PrimFault::Fault(MufFault::BadArgument));
    }
    let count = count as usize;
    Ok(number(difference(front(first, count), front(second, count))))
}

/// MIDSTR.
#[tactic(auto, using(crate::proofs::Texts::row_steps))]
pub(crate) fn middle(alloc: Global, bytes: &[u8], place: i32, count: i32) -> Result<Made, PrimFault>
    requires { text_fault bytes.now ≡ None }
    ensures { Makes (row.text_middle bytes.now place count) result }
{
    if place < 1 || count < 0 {
        return Err(PrimFault::Fault(MufFault::BadArgument));
    }
    let part = front(behind(bytes, place as usize - 1), count as usize);
    sized(alloc, copied(alloc, part)?)
}

// A number in decimal.
#[tactic(auto, using(crate::proofs::Texts::inside_number))]
fn decimal(alloc: Global, number: i32) -> Result<Vec<u8>, NoMemory>
    ensures value { IfOk result (λ made. made.items ≡ signed_decimal number) }
    ensures inside { IfOk result (λ made. IsInside made.items) }
{
    Ok(number.to_string(alloc)?.into_bytes())
}

/// INTOSTR.
pub(crate) fn in_decimal(alloc: Global, number: i32) -> Result<Made, PrimFault>
    ensures { Makes (row.in_decimal number) result }
{
    sized(alloc, decimal(alloc, number)?)
}

// The text of one byte that texts may have, or the empty one.
fn one_byte(alloc: Global, number: i32) -> Result<Vec<u8>, NoMemory>
    ensures value { IfOk result (λ made. made.items ≡ one_byte number) }
    ensures inside { IfOk result (λ made. IsInside made.items) }
{
    let mut bytes = Vec::new(alloc);
    if (number >= 32 && number <= 126) || number == 13 {
        bytes.push(number as u8)?;
    }
    Ok(bytes)
}

/// ITOC.
pub(crate) fn character(alloc: Global, number: i32) -> Result<Made, PrimFault>
    ensures { Makes (row.character number) result }
{
    sized(alloc, one_byte(alloc, number)?)
}
