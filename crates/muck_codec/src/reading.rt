// Parts off the front of bytes.
ghost use Rattle.std.specs.Prelude.{◌≡◌, ◌≤◌, ◌<◌, take, Ok, Err};
ghost use Rattle.std.specs.Int.{w16, w32, w64};
ghost use Rattle.muck_codec.specs.Reading.{Gives, byte_at, number_at, dbref_at, short_at, text_bytes_read, text_at};

use crate::fault::Unread;
use muck_model::{Dbref, Line, LineFault};
use std::alloc::Global;

pub(crate) fn byte_at(bytes: &[u8]) -> Result<(u8, &[u8]), Unread>
    ensures { Gives (λ x. (x.0, x.1.now)) result (byte_at bytes.now) }
{
    match bytes {
        [] => Err(Unread::Left(0)),
        [byte, rest @ ..] => Ok((*byte, rest)),
    }
}

pub(crate) fn u16_at(bytes: &[u8]) -> Result<(u16, &[u8]), Unread>
    ensures { Gives (λ x. (x.0, x.1.now)) result (number_at w16 bytes.now) }
{
    if bytes.len() < 2 {
        return Err(Unread::Left(0));
    }
    let (front, rest) = bytes.split_at(2);
    Ok((u16::from_be_bytes([front[0], front[1]]), rest))
}

pub(crate) fn u32_at(bytes: &[u8]) -> Result<(u32, &[u8]), Unread>
    ensures { Gives (λ x. (x.0, x.1.now)) result (number_at w32 bytes.now) }
{
    if bytes.len() < 4 {
        return Err(Unread::Left(0));
    }
    let (front, rest) = bytes.split_at(4);
    let number = u32::from_be_bytes([front[0], front[1], front[2], front[3]]);
    Ok((number, rest))
}

pub(crate) fn u64_at(bytes: &[u8]) -> Result<(u64, &[u8]), Unread>
    ensures { Gives (λ x. (x.0, x.1.now)) result (number_at w64 bytes.now) }
{
    if bytes.len() < 8 {
        return Err(Unread::Left(0));
    }
    let (front, rest) = bytes.split_at(8);
    let number = u64::from_be_bytes([
        front[0], front[1], front[2], front[3], front[4], front[5], front[6], front[7],
    ]);
    Ok((number, rest))
}

pub(crate) fn dbref_at(bytes: &[u8]) -> Result<(Dbref, &[u8]), Unread>
    ensures { Gives (λ x. (x.0, x.1.now)) result (dbref_at bytes.now) }
{
    let (number, rest) = u32_at(bytes)?;
    Ok((Dbref(number.cast_signed()), rest))
}

// A number of two bytes, from `least` to `most`; `least` is below 256.
pub(crate) fn short_at(least: u16, most: u16, bytes: &[u8]) -> Result<(u16, &[u8]), Unread>
    ensures { Gives (λ x. (x.0, x.1.now)) result (short_at least most bytes.now) }
{
    match bytes {
        [] => Err(Unread::Left(0)),
        [high, more @ ..] if u32::from(most) < 256 * u32::from(*high) => {
            Err(Unread::Left(1 + more.len()))
        }
        [_] => Err(Unread::Left(0)),
        [high, low, rest @ ..] => {
            let number = u16::from_be_bytes([*high, *low]);
            if number < least || number > most {
                return Err(Unread::Left(1 + rest.len()));
            }
            Ok((number, rest))
        }
    }
}

// The first so many bytes, or all where there are fewer.
fn front_of(n: usize, bytes: &[u8]) -> &[u8]
    ensures { result.now ≡ take n bytes.now }
{
    if bytes.len() < n {
        return bytes;
    }
    bytes.split_at(n).0
}

#[tactic(auto, unfolding(crate::specs::Reading::text_bytes_read))]
fn text_of(alloc: Global, n: usize, bytes: &[u8]) -> Result<(Line, &[u8]), Unread>
    ensures { Gives (λ x. (x.0, x.1.now)) result (text_bytes_read n bytes.now) }
{
    match Line::new(alloc, front_of(n, bytes)) {
        Ok(line) => {
            if bytes.len() < n {
                return Err(Unread::Left(0));
            }
            Ok((line, bytes.split_at(n).1))
        }
        Err(LineFault::NotLine { at }) => Err(Unread::Left(bytes.len().saturating_sub(at))),
        Err(LineFault::NoMemory) => Err(Unread::NoMemory),
    }
}

// A length of `least` to `most`, and so many bytes of a text.
#[tactic(auto, unfolding(crate::specs::Reading::text_at))]
pub(crate) fn text_at(
    alloc: Global,
    least: u16,
    most: u16,
    bytes: &[u8],
) -> Result<(Line, &[u8]), Unread>
    ensures { Gives (λ x. (x.0, x.1.now)) result (text_at least most bytes.now) }
{
    let (n, rest) = short_at(least, most, bytes)?;
    let (line, rest) = text_of(alloc, n as usize, rest)?;
    Ok((line, rest))
}
