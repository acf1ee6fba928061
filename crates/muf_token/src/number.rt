// What a word says by itself.
ghost use Rattle.std.specs.Prelude.{◌≡◌, IfOk, OnErr, ◌∷◌, ◌++◌, ◌≤◌, ◌<◌, length, min, true};
ghost use Rattle.std.specs.List.{list_all};
ghost use Rattle.muck_model.specs.Bytes.{text_most};
ghost use Rattle.muf_token.specs.inner.Bytes.{are_inside};
ghost use Rattle.muck_model.specs.Decimal.{is_digit};
ghost use Rattle.muf_token.specs.Numbers.{token_kind, amount_of, amount_signed, digits_of, integer_of};

use crate::place::text_of;
use crate::token::TokenKind;
use muck_model::{Dbref, Line, NoMemory};
use std::alloc::Global;

/// Whether a word writes an integer: an optional `-` and digits.
#[derive(Clone, Copy)]
pub(crate) enum Numeral {
    /// It writes none.
    No,
    /// It writes one that 32 bits don't hold.
    Beyond,
    Is(i32),
}

// More than any amount that a number in 32 bits has.
const CAP: u64 = 1 << 32;

// Whether all bytes are digits.
fn are_digits(bytes: &[u8]) -> bool
    ensures { result ≡ list_all is_digit bytes.now }
{
    bytes.iter().all(|byte| *byte >= b'0' && *byte <= b'9')
}

// The amount that digits write, or the cap where that is less.
fn amount_of(digits: &[u8]) -> u64
    requires { list_all is_digit digits.now ≡ true }
    ensures { result ≡ min (amount_of digits.now) CAP }
{
    let mut amount: u64 = 0;
    for digit in digits {
        amount = (amount * 10 + u64::from(*digit - b'0')).min(CAP);
    }
    amount
}

// The amount with its sign, where 32 bits hold it.
fn signed(negative: bool, amount: u64) -> Numeral
    requires { amount ≤ CAP }
    ensures { result ≡ amount_signed negative amount }
{
    if negative {
        if amount <= 1 << 31 {
            Numeral::Is((0 - amount as i64) as i32)
        } else {
            Numeral::Beyond
        }
    } else if amount < 1 << 31 {
        Numeral::Is(amount as i32)
    } else {
        Numeral::Beyond
    }
}

// What digits behind a sign write.
fn digits_of(negative: bool, digits: &[u8]) -> Numeral
    ensures { result ≡ digits_of negative digits.now }
{
    if digits.is_empty() || !are_digits(digits) {
        return Numeral::No;
    }
    signed(negative, amount_of(digits))
}

/// The integer that a word writes.
pub(crate) fn integer_of(word: &[u8]) -> Numeral
    ensures { result ≡ integer_of word.now }
{
    match word.split_first() {
        Some((b'-', digits)) => digits_of(true, digits),
        _ => digits_of(false, word),
    }
}

// The text of a part of a text.
#[tactic(auto, using(crate::proofs::Texts::inside_text))]
fn name_of(alloc: Global, bytes: &[u8]) -> Result<Line, NoMemory>
    requires inside { are_inside bytes.now ≡ true }
    requires short { length bytes.now ≤ text_most }
    ensures { IfOk result (λ line. line ≡ bytes.now) }
{
    let bytes = bytes.to_vec(alloc)?;
    Ok(text_of(bytes))
}

/// What a word says by itself; none where it writes a number that 32 bits don't hold.
#[tactic(auto, unfolding(crate::specs::Numbers::token_kind), using(crate::proofs::Texts::line_parts))]
pub(crate) fn kind_of(alloc: Global, word: &Line) -> Result<Option<TokenKind>, NoMemory>
    ensures { IfOk result (λ kind. kind ≡ token_kind word.now) }
{
    let numeral = match word.as_slice().split_first() {
        Some((b'#', rest)) => match integer_of(rest) {
            Numeral::Is(n) => return Ok(Some(TokenKind::Ref(Dbref(n)))),
            other => other,
        },
        Some((b'\'', name)) if !name.is_empty() => return Ok(Some(TokenKind::Address(name_of(
            alloc, name,
        )?))),
        _ => integer_of(word.as_slice()),
    };
    match numeral {
        Numeral::No => Ok(Some(TokenKind::Word(word.copy(alloc)?))),
        Numeral::Beyond => Ok(None),
        Numeral::Is(n) => Ok(Some(TokenKind::Number(n))),
    }
}
