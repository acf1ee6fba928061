// The number of a batch.
ghost use Rattle.std.specs.Prelude.{◌≡◌};
ghost use Rattle.std.specs.List.{list_all};
ghost use Rattle.muck_model.specs.Decimal.{is_digit, is_first_digit, is_decimal};
ghost use Rattle.muck_follow.specs.Script.{batch_number, decimal_number};

fn is_digit(b: u8) -> bool
    ensures { result ≡ is_digit b }
{
    b >= b'0' && b <= b'9'
}

fn is_first_digit(b: u8) -> bool
    ensures { result ≡ is_first_digit b }
{
    b >= b'1' && b <= b'9'
}

fn are_digits(bytes: &[u8]) -> bool
    ensures { result ≡ list_all is_digit bytes.now }
{
    bytes.iter().all(|b| is_digit(*b))
}

fn is_decimal(bytes: &[u8]) -> bool
    ensures { result ≡ is_decimal bytes.now }
{
    match bytes {
        [] => false,
        [b] => is_digit(*b),
        [b, more @ ..] => is_first_digit(*b) && are_digits(more),
    }
}

// The number that the bytes write in decimal, where it is below 2^64.
fn decimal_number(bytes: &[u8]) -> Option<u64>
    ensures { result ≡ decimal_number bytes.now }
{
    if !is_decimal(bytes) {
        return None;
    }
    let mut n = 0u128;
    for b in bytes {
        n = 10 * n + u128::from(b.saturating_sub(b'0'));
        if n > u64::MAX as u128 {
            return None;
        }
    }
    Some(n as u64)
}

/// The number of a batch: from 1 to 2^64 - 1, in decimal without sign or leading zeros.
pub fn number_of(bytes: &[u8]) -> Option<u64>
    ensures { result ≡ batch_number bytes.now }
{
    let n = decimal_number(bytes)?;
    if n > 0 { Some(n) } else { None }
}
