// What texts write, how they differ, and where their spaces end.
ghost use Rattle.std.specs.Prelude.{◌≡◌, ◌≤◌, ◌<◌, ◌^◌, length, pos, get_or};
ghost use Rattle.muf_model.specs.Texts.{difference, amount, number_in_text, first_byte, lead_stripped, tail_stripped};

// The byte at a place, or 0 behind the last one.
fn byte_at(bytes: &[u8], at: usize) -> i32
    ensures { result ≡ pos (get_or bytes.now at 0) }
{
    if at < bytes.len() {
        i32::from(bytes[at])
    } else {
        0
    }
}

/// The difference of the first unlike bytes, where a text that has ended goes on with 0.
pub(crate) fn difference(first: &[u8], second: &[u8]) -> i32
    ensures { result ≡ difference first.now second.now }
{
    let mut at = 0;
    while at < first.len() && at < second.len() && first[at] == second[at] {
        at += 1;
    }
    byte_at(first, at) - byte_at(second, at)
}

// The number that digits write, up to a bound; 0 past that, or where another byte stands there.
fn amount(bytes: &[u8], most: u64) -> u64
    requires { most < 2 ^ 59 }
    ensures value { result ≡ amount most 0 bytes.now }
    ensures most { result ≤ most }
{
    let mut n = 0u64;
    for b in bytes {
        if *b < b'0' || *b > b'9' {
            return 0;
        }
        n = 10 * n + u64::from(*b - b'0');
        if n > most {
            return 0;
        }
    }
    n
}

/// The number that a whole text writes, an optional `-` and digits, in 32 bits; else 0.
pub(crate) fn number_in(bytes: &[u8]) -> i32
    ensures { result ≡ number_in_text bytes.now }
{
    match bytes.split_first() {
        Some((b'-', digits)) => (0 - amount(digits, 1 << 31) as i64) as i32,
        _ => amount(bytes, (1 << 31) - 1) as i32,
    }
}

/// The bytes behind the spaces at the start.
pub(crate) fn lead_stripped(bytes: &[u8]) -> &[u8]
    ensures { result.now ≡ lead_stripped bytes.now }
{
    let mut start = 0;
    while start < bytes.len() && bytes[start] == b' ' {
        start += 1;
    }
    &bytes[start..]
}

/// The bytes before the spaces at the end.
pub(crate) fn tail_stripped(bytes: &[u8]) -> &[u8]
    ensures { result.now ≡ tail_stripped bytes.now }
{
    let mut end = bytes.len();
    while end > 0 && bytes[end - 1] == b' ' {
        end -= 1;
    }
    &bytes[..end]
}

/// The first byte, or 0.
pub(crate) fn first_byte(bytes: &[u8]) -> i32
    ensures { result ≡ pos (first_byte bytes.now) }
{
    byte_at(bytes, 0)
}
