// The parts of a line.
ghost use Rattle.std.specs.Prelude.{◌≡◌, ◌≤◌, IfOk, length, drop};
ghost use Rattle.std.specs.List.{position, position_or_len, before_first, after_first, list_any};
ghost use Rattle.spec_commands.specs.Texts.{first_word, other_words, trimmed};
ghost use Rattle.spec_commands.specs.Reading.{is_equals, has_equals, has_all_parts, left_in, right_in};
ghost use Rattle.cmd_common.specs.inner.Takes.{IsCut};

use muck_model::{Line, NoMemory};
use spec_commands::{Form, cut_word, trim};
use std::alloc::Global;

/// What stands before the first `=` of a text, and what stands behind it, without the spaces at their ends.
#[derive(Drop)]
pub struct Parts {
    /// What stands before it.
    pub left: Line,
    /// What stands behind it.
    pub right: Line,
}

/// What stands behind the first word of a line, without the spaces at its ends.
#[tactic(auto, using(crate::proofs::Texts::parts_are_texts))]
pub fn after_word(alloc: Global, line: &Line) -> Result<Line, NoMemory>
    ensures { IfOk result (λ text. text ≡ trimmed (other_words (trimmed line.now))) }
{
    let (_, others) = cut_word(trim(line.as_slice()));
    Line::of_text(alloc, trim(others))
}

/// What stands behind the first byte of a line, without the spaces at its ends; an empty line has nothing behind it.
#[tactic(auto, using(crate::proofs::Texts::parts_are_texts))]
pub fn after_sign(alloc: Global, line: &Line) -> Result<Line, NoMemory>
    ensures { IfOk result (λ text. text ≡ trimmed (drop 1 line.now)) }
{
    let bytes = line.as_slice();
    if bytes.is_empty() {
        return Line::of_text(alloc, bytes);
    }
    Line::of_text(alloc, trim(bytes.split_at(1).1))
}

// Where the first `=` stands.
fn equals_at(text: &[u8]) -> Option<usize>
    ensures { result ≡ position is_equals text.now }
{
    text.iter().position(|b| *b == b'=')
}

// Whether a text has an `=`.
fn has_equals(text: &[u8]) -> bool
    ensures { result ≡ has_equals text.now }
{
    text.iter().any(|b| *b == b'=')
}

// Where the first `=` stands, or the length.
#[tactic(auto, using(muck_model::proofs::Positions::positions))]
fn left_len(text: &[u8]) -> usize
    ensures at { result ≡ position_or_len is_equals text.now }
    ensures within { result ≤ length text.now }
{
    equals_at(text).unwrap_or(text.len())
}

// What stands before the first `=`, and what stands behind it.
fn cut_equals(text: &[u8]) -> (&[u8], &[u8])
    ensures before { result.0.now ≡ before_first is_equals text.now }
    ensures after { result.1.now ≡ after_first is_equals text.now }
{
    let (left, rest) = text.split_at(left_len(text));
    match rest.split_first() {
        Some((_, right)) => (left, right),
        None => (left, rest),
    }
}

// Whether no part of a text is missing.
fn is_whole(form: Form, text: &[u8]) -> bool
    ensures { result ≡ has_all_parts form text.now }
{
    let (left, right) = cut_equals(text);
    match form {
        Form::Any => true,
        Form::One => !text.is_empty(),
        Form::Two => has_equals(text) && !trim(left).is_empty(),
        Form::Full => has_equals(text) && !trim(left).is_empty() && !trim(right).is_empty(),
        Form::OneOrFull => {
            if has_equals(text) {
                has_equals(text) && !trim(left).is_empty() && !trim(right).is_empty()
            } else {
                !text.is_empty()
            }
        }
    }
}

// The parts of a text; where there is one alone, the second is empty.
fn cut_parts(form: Form, text: &[u8]) -> (&[u8], &[u8])
    ensures left { result.0.now ≡ left_in form text.now }
    ensures right { result.1.now ≡ right_in form text.now }
{
    let none: &[u8] = b"";
    let (left, right) = cut_equals(text);
    match form {
        Form::Any | Form::One => (text, none),
        Form::Two | Form::Full => (trim(left), trim(right)),
        Form::OneOrFull => {
            if has_equals(text) {
                (trim(left), trim(right))
            } else {
                (text, none)
            }
        }
    }
}

/// The parts of a text in a form; `None` exactly where one is missing. Where there is one part alone, the second is empty.
#[tactic(auto, using(crate::proofs::Texts::parts_are_texts))]
pub fn parts_in(alloc: Global, form: Form, text: &Line) -> Result<Option<Parts>, NoMemory>
    ensures { IsCut form text.now result }
{
    let bytes = text.as_slice();
    if !is_whole(form, bytes) {
        return Ok(None);
    }
    let (left, right) = cut_parts(form, bytes);
    Ok(Some(Parts {
        left: Line::of_text(alloc, left)?,
        right: Line::of_text(alloc, right)?,
    }))
}
