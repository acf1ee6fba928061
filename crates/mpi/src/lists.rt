// Parts of texts, and texts as lists.
ghost use Rattle.std.specs.Prelude.{◌≡◌, ◌≤◌, ◌+◌, None, IfOk, IfSome, length, take, drop, option_map, map as mapped};
ghost use Rattle.std.specs.Option.{option_copied};
ghost use Rattle.muck_model.specs.Bytes.{text_fault};
ghost use Rattle.mpi.specs.Made.{Inside, text_or_long};
ghost use Rattle.mpi.specs.Hosting.{seen_as, Means};
ghost use Rattle.mpi.specs.Gathering.{longer, kept_item, list_or_long};
ghost use Rattle.mpi.specs.Values.{past_spaces, before_spaces, stripped, place_in_text, found_in, text_substituted, above_zero, part_between, items, values_listed, place_of_item, middle_text};

use crate::argument::Argument;
use crate::fault::MpiFault;
use crate::functions::Keep;
use crate::texts::grow;
use crate::values::{is_true, nth, number_of};
use memchr::memmem::Finder;
use muck_model::{Line, NoMemory};
use std::alloc::Global;

// Without the spaces before it.
#[tactic(auto, unfolding(crate::specs::Values::past_spaces))]
fn past_spaces(text: &[u8]) -> &[u8]
    ensures { result.now ≡ past_spaces text.now }
{
    let mut rest = text;
    while let Some((first, more)) = rest.split_first() {
        if *first != b' ' {
            return rest;
        }
        rest = more;
    }
    rest
}

// Without the spaces behind it.
#[tactic(auto, unfolding(crate::specs::Values::past_spaces))]
fn before_spaces(text: &[u8]) -> &[u8]
    ensures { result.now ≡ before_spaces text.now }
{
    let mut rest = text;
    while let Some((last, more)) = rest.split_last() {
        if *last != b' ' {
            return rest;
        }
        rest = more;
    }
    rest
}

/// Without the spaces at both ends.
#[tactic(auto, unfolding(crate::specs::Values::stripped))]
pub(crate) fn stripped(text: &[u8]) -> &[u8]
    ensures { result.now ≡ stripped text.now }
{
    before_spaces(past_spaces(text))
}

// How many bytes stand before the first place where a text stands that is sought in another.
#[tactic(auto, using(crate::proofs::Places::place_steps))]
fn place_in(text: &[u8], sought: &Finder<'_>) -> Option<usize>
    ensures value { result ≡ place_in_text text.now sought.now }
    ensures within { IfSome result (λ n. n ≤ length text.now) }
{
    sought.find(text)
}

/// The first place of a part in a text, from 1, or 0; `None` exactly where the part is empty.
pub(crate) fn found_in(text: &[u8], part: &[u8]) -> Option<usize>
    ensures { result ≡ found_in text.now part.now }
{
    if part.is_empty() {
        return None;
    }
    match place_in(text, &Finder::new(part)) {
        Some(at) => Some(at + 1),
        None => Some(0),
    }
}

// What stands before so many bytes at a place, and behind them.
fn around(text: &[u8], at: usize, count: usize) -> (&[u8], &[u8])
    requires { at + count ≤ length text.now }
    ensures front { result.0.now ≡ take at text.now }
    ensures behind { result.1.now ≡ drop (at + count) text.now }
    ensures shorter { length result.1.now + (at + count) ≡ length text.now }
{
    (text.split_at(at).0, text.split_at(at + count).1)
}

/// The text with `new` in place of each `old`, from left to right; `TooLong` exactly where that is too long.
#[tactic(auto, using(crate::proofs::Inside::text_steps))]
pub(crate) fn substituted(
    alloc: Global,
    text: &[u8],
    old: &[u8],
    new: &[u8],
) -> Result<Line, MpiFault>
    requires text { text_fault text.now ≡ None }
    requires new { text_fault new.now ≡ None }
    ensures { Means (text_or_long (text_substituted text.now old.now new.now)) result }
{
    if old.is_empty() {
        return Ok(Line::of_text(alloc, text)?);
    }
    let sought = Finder::new(old);
    let mut out = Vec::new(alloc);
    let mut rest = text;
    while let Some(at) = place_in(rest, &sought) {
        let (front, behind) = around(rest, at, old.len());
        grow(&mut out, front)?;
        grow(&mut out, new)?;
        rest = behind;
    }
    grow(&mut out, rest)?;
    Ok(Line::of_text_vec(out))
}

// How far a number is above 0.
fn above(n: i32) -> usize
    ensures { result ≡ above_zero n }
{
    if n < 0 { 0 } else { n as usize }
}

/// What stands from place p through place q, from 1; places outside are cut.
pub(crate) fn cut<T>(p: i32, q: i32, xs: &[T]) -> &[T]
    ensures { result.now ≡ part_between p q xs.now }
{
    let from = above(p).saturating_sub(1).min(xs.len());
    let to = above(q).min(xs.len());
    if from < to { &xs[from..to] } else { &[] }
}

/// The bytes that the second and the third argument ask for; `None` exactly unless 1 <= p <= q.
pub(crate) fn middle<'a>(values: &'a [Argument<'_>]) -> Option<&'a [u8]>
    ensures { option_copied result ≡ middle_text values.now }
{
    let p = number_of(nth(values, 1));
    let q = match values.get(2) {
        Some(value) => number_of(value.as_slice()),
        None => p,
    };
    if 1 <= p && p <= q {
        Some(cut(p, q, nth(values, 0)))
    } else {
        None
    }
}

/// The items of a list.
#[tactic(auto, unfolding(crate::specs::Values::items))]
pub(crate) fn items<'a>(alloc: Global, list: &'a [u8]) -> Result<Vec<&'a [u8]>, NoMemory>
    ensures { IfOk result (λ v. mapped (λ x. x.now) v.items ≡ items list.now) }
{
    let mut parts = Vec::new(alloc);
    if list.is_empty() {
        return Ok(parts);
    }
    for part in list.split(|b| *b == 13) {
        parts.push(part)?;
    }
    Ok(parts)
}

/// A list with an item more; `TooLong` exactly where that is too long. There may be no list yet.
#[tactic(auto, using(crate::proofs::Lengths::length_steps))]
pub(crate) fn longer(alloc: Global, list: Option<Vec<u8>>, item: &[u8]) -> Result<Vec<u8>, MpiFault>
    requires list { IfSome list (λ bytes. text_fault bytes.items ≡ None) }
    requires item { text_fault item.now ≡ None }
    ensures value { Means (text_or_long (longer (option_map (λ bytes. bytes.items) list) item.now)) (seen_as (λ bytes. bytes.items) result) }
    ensures text { IfOk result (λ bytes. text_fault bytes.items ≡ None) }
{
    let Some(mut bytes) = list else {
        return Ok(item.to_vec(alloc)?);
    };
    grow(&mut bytes, &[13])?;
    grow(&mut bytes, item)?;
    Ok(bytes)
}

/// What is kept of an item and of its text, behind what was kept; `TooLong` exactly where that is too long.
#[tactic(auto, using(crate::proofs::Lengths::length_steps))]
pub(crate) fn kept(
    alloc: Global,
    keep: Keep,
    list: Option<Vec<u8>>,
    item: &[u8],
    text: &[u8],
) -> Result<Option<Vec<u8>>, MpiFault>
    requires list { IfSome list (λ bytes. text_fault bytes.items ≡ None) }
    requires item { text_fault item.now ≡ None }
    requires text { text_fault text.now ≡ None }
    ensures value { Means (list_or_long (kept_item keep (option_map (λ bytes. bytes.items) list) item.now text.now)) (seen_as (λ list. option_map (λ bytes. bytes.items) list) result) }
    ensures texts { IfOk result (λ list. IfSome list (λ bytes. text_fault bytes.items ≡ None)) }
{
    match keep {
        Keep::Last => Ok(Some(text.to_vec(alloc)?)),
        Keep::Texts => Ok(Some(longer(alloc, list, text)?)),
        Keep::Items => {
            if is_true(text) {
                return Ok(Some(longer(alloc, list, item)?));
            }
            Ok(list)
        }
    }
}

/// The list of these items.
pub(crate) fn listed(alloc: Global, parts: &[&[u8]]) -> Result<Vec<u8>, NoMemory>
    ensures { IfOk result (λ bytes. bytes.items ≡ values_listed (mapped (λ x. x.now) parts.now)) }
{
    let mut bytes = Vec::new(alloc);
    for at in 0..parts.len() {
        if 0 < at {
            bytes.push(13)?;
        }
        bytes.extend_from_slice(parts[at])?;
    }
    Ok(bytes)
}

/// The first place of an item in a list, from 1, or 0.
pub(crate) fn place_of_item(parts: &[&[u8]], item: &[u8]) -> usize
    ensures { result ≡ place_of_item item.now (mapped (λ x. x.now) parts.now) }
{
    for at in 0..parts.len() {
        if parts[at] == item {
            return at + 1;
        }
    }
    0
}
