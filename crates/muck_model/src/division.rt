// Numbers of 32 bits divided, and how far they are from 0.
ghost use Rattle.std.specs.Prelude.{◌≡◌};
ghost use Rattle.muck_model.specs.Division.{quotient, remainder, magnitude};

/// Toward zero, and 0 where the divisor is 0.
pub fn quotient(i: i32, j: i32) -> i32
    ensures { result ≡ quotient i j }
{
    if j == 0 { 0 } else { i.wrapping_div(j) }
}

/// With the sign of the dividend, and 0 where the divisor is 0.
pub fn remainder(i: i32, j: i32) -> i32
    ensures { result ≡ remainder i j }
{
    if j == 0 { 0 } else { i.wrapping_rem(j) }
}

/// Without its sign; the least number has none and stays.
pub fn magnitude(i: i32) -> i32
    ensures { result ≡ magnitude i }
{
    if i < 0 { i.wrapping_neg() } else { i }
}
