// What the primitives of numbers answer.
ghost use Rattle.std.specs.Prelude.{◌≡◌, Bool};
ghost use Rattle.muf_model.specs.NumberRows.{shifted};
ghost use Rattle.prim_math.specs.inner.Tables.{int_of, int_of_two, compares, joined};

use muck_model::{magnitude, quotient, remainder};
use muf_model::Prim;

// Left by a positive number, else right with the sign.
fn shifted(i: i32, j: i32) -> i32
    ensures { result ≡ shifted i j }
{
    if j >= 0 {
        if j < 32 { i << j } else { 0 }
    } else if j > -32 {
        i >> -j
    } else if i < 0 {
        -1
    } else {
        0
    }
}

/// `++`, `--`, ABS and SIGN.
pub(crate) fn int_of(prim: Prim, i: i32) -> i32
    ensures { result ≡ int_of prim i }
{
    match prim {
        Prim::Increment => i.wrapping_add(1),
        Prim::Decrement => i.wrapping_sub(1),
        Prim::Abs => magnitude(i),
        Prim::Sign => i.signum(),
        _ => i,
    }
}

/// The primitives of two integers.
pub(crate) fn int_of_two(prim: Prim, i: i32, j: i32) -> i32
    ensures { result ≡ int_of_two prim i j }
{
    match prim {
        Prim::Add => i.wrapping_add(j),
        Prim::Subtract => i.wrapping_sub(j),
        Prim::Multiply => i.wrapping_mul(j),
        Prim::Divide => quotient(i, j),
        Prim::Modulo => remainder(i, j),
        Prim::BitOr => i | j,
        Prim::BitAnd => i & j,
        Prim::BitXor => i ^ j,
        Prim::BitShift => shifted(i, j),
        _ => i,
    }
}

/// The comparisons.
pub(crate) fn compares(prim: Prim, i: i32, j: i32) -> bool
    ensures { result ≡ compares prim i j }
{
    match prim {
        Prim::Equal => i == j,
        Prim::Unequal => i != j,
        Prim::Less => i < j,
        Prim::Greater => i > j,
        Prim::LessEqual => i <= j,
        Prim::GreaterEqual => i >= j,
        _ => false,
    }
}

/// AND, OR and XOR.
pub(crate) fn joined(prim: Prim, a: bool, b: bool) -> bool
    ensures { result ≡ joined prim a b }
{
    match prim {
        Prim::And => a && b,
        Prim::Or => a || b,
        Prim::Xor => a != b,
        _ => a,
    }
}
