// Texts as truths and numbers, and the functions of these.
ghost use Rattle.std.specs.Prelude.{◌≡◌, ◌≤◌, None, IfOk};
ghost use Rattle.muck_model.specs.Bytes.{text_fault};
ghost use Rattle.muck_model.specs.Numbers.{minus};
ghost use Rattle.mpi.specs.Values.{nth, is_true_text, bare_digits, number_read, number_or_zero, lowered, order_of, test_of, numbers_computed, sum_of, product_of, computed};

use crate::argument::Argument;
use crate::functions::Function;
use muck_model::{Line, NoMemory, decimal, magnitude, quotient, remainder};
use std::alloc::Global;
use std::cmp::Ordering;

/// The argument at a place from 0; one that is left out is empty.
#[tactic(auto)]
pub(crate) fn nth<'a>(values: &'a [Argument<'_>], at: usize) -> &'a [u8]
    ensures value { result.now ≡ nth at values.now }
    ensures text { text_fault result.now ≡ None }
{
    match values.get(at) {
        Some(value) => value.as_slice(),
        None => &[],
    }
}

/// The empty text and `0` are false, all others true.
#[tactic(auto, unfolding(crate::specs::Values::is_true_text))]
pub(crate) fn is_true(text: &[u8]) -> bool
    ensures { result ≡ is_true_text text.now }
{
    !(text.is_empty() || text == b"0".as_slice())
}

// Digits without the zeros in front of others.
#[tactic(auto, unfolding(crate::specs::Values::bare_digits))]
fn bare(digits: &[u8]) -> &[u8]
    ensures { result.now ≡ bare_digits digits.now }
{
    let mut rest = digits;
    while let Some((first, more)) = rest.split_first() {
        if *first != b'0' || more.is_empty() {
            return rest;
        }
        rest = more;
    }
    rest
}

// The number n with a minus before it.
fn below(n: u64) -> i32
    requires { n ≤ 2147483648 }
    ensures { result ≡ minus n }
{
    if n == 0 {
        return 0;
    }
    -1 - (n - 1) as i32
}

/// The number that a whole text is: a `-` or none, and digits, in 32 bits.
#[tactic(auto, unfolding(crate::specs::Values::number_read))]
pub(crate) fn number_read(text: &[u8]) -> Option<i32>
    ensures { result ≡ number_read text.now }
{
    let (first, more) = text.split_first()?;
    if *first == b'-' {
        let n = decimal(bare(more), 2_147_483_648)?;
        return Some(below(n));
    }
    let n = decimal(bare(text), 2_147_483_647)?;
    Some(n as i32)
}

/// The same, where a text that is no number counts as 0.
pub(crate) fn number_of(text: &[u8]) -> i32
    ensures { result ≡ number_or_zero text.now }
{
    number_read(text).unwrap_or(0)
}

// In lower case.
pub(crate) fn lowered(alloc: Global, text: &[u8]) -> Result<Vec<u8>, NoMemory>
    ensures { IfOk result (λ low. low.items ≡ lowered text.now) }
{
    let low = text.iter().map(|b| b.to_ascii_lowercase()).collect(alloc)?;
    Ok(low)
}

// How two texts compare: as numbers where both are, else by their bytes in lower case.
#[tactic(auto, unfolding(crate::specs::Values::order_of))]
fn order_of(alloc: Global, x: &[u8], y: &[u8]) -> Result<Ordering, NoMemory>
    ensures { IfOk result (λ order. order ≡ order_of x.now y.now) }
{
    if let (Some(i), Some(j)) = (number_read(x), number_read(y)) {
        return Ok(i.cmp(&j));
    }
    let x = lowered(alloc, x)?;
    let y = lowered(alloc, y)?;
    Ok(x.as_slice().cmp(y.as_slice()))
}

/// What a function that tests answers, of two texts or of the first.
pub(crate) fn test_of(
    alloc: Global,
    function: Function,
    x: &[u8],
    y: &[u8],
) -> Result<bool, NoMemory>
    ensures { IfOk result (λ holds. holds ≡ test_of function x.now y.now) }
{
    match function {
        Function::Not => Ok(!is_true(x)),
        Function::Xor => Ok(is_true(x) != is_true(y)),
        Function::Equal => Ok(order_of(alloc, x, y)?.is_eq()),
        Function::Unequal => Ok(!order_of(alloc, x, y)?.is_eq()),
        Function::Greater => Ok(order_of(alloc, x, y)?.is_gt()),
        Function::Less => Ok(order_of(alloc, x, y)?.is_lt()),
        Function::AtLeast => Ok(order_of(alloc, x, y)?.is_ge()),
        Function::AtMost => Ok(order_of(alloc, x, y)?.is_le()),
        _ => Ok(false),
    }
}

/// What a function of one or two numbers gives.
fn number_row(function: Function, i: i32, j: i32) -> i32
    ensures { result ≡ numbers_computed function i j }
{
    match function {
        Function::Subtract => i.wrapping_sub(j),
        Function::Divide => quotient(i, j),
        Function::Modulo => remainder(i, j),
        Function::Absolute => magnitude(i),
        Function::Sign => i.signum(),
        Function::Least if j < i => j,
        Function::Most if i < j => j,
        _ => i,
    }
}

// The sum of all.
fn sum(values: &[Argument<'_>]) -> i32
    ensures { result ≡ sum_of values.now }
{
    let mut sum = 0i32;
    for value in values {
        sum = sum.wrapping_add(number_of(value.as_slice()));
    }
    sum
}

// The product of all.
fn product(values: &[Argument<'_>]) -> i32
    ensures { result ≡ product_of values.now }
{
    let mut product = 1i32;
    for value in values {
        product = product.wrapping_mul(number_of(value.as_slice()));
    }
    product
}

/// What a function of numbers gives.
pub(crate) fn computed(function: Function, values: &[Argument<'_>]) -> i32
    ensures { result ≡ computed function values.now }
{
    match function {
        Function::Add => sum(values),
        Function::Multiply => product(values),
        _ => number_row(
            function,
            number_of(nth(values, 0)),
            number_of(nth(values, 1)),
        ),
    }
}
