// Texts that are made.
ghost use Rattle.std.specs.Prelude.{◌≡◌, ◌≤◌, None, IfOk, length};
ghost use Rattle.muck_model.specs.Bytes.{text_fault, text_most};
ghost use Rattle.mpi.specs.Made.{Inside, IsGrown, text_or_long};
ghost use Rattle.mpi.specs.Hosting.{Means};
ghost use Rattle.std.specs.Fmt.{signed_decimal};
ghost use Rattle.mpi.specs.Meaning.{reference};
ghost use Rattle.mpi.specs.Values.{truth_text};

use crate::fault::MpiFault;
use muck_model::{Dbref, Line, NoMemory, TEXT_MOST};
use std::alloc::Global;

/// The text of these bytes, which may be too many.
#[tactic(auto, using(crate::proofs::Inside::text_steps), unfolding(crate::specs::Made::is_long))]
pub(crate) fn line_of(bytes: Vec<u8>) -> Result<Line, MpiFault>
    requires { Inside bytes.items }
    ensures { Means (text_or_long bytes.items) result }
{
    if bytes.len() > TEXT_MOST {
        return Err(MpiFault::TooLong);
    }
    Ok(Line::of_text_vec(bytes))
}

/// Puts bytes behind a text that grows; `TooLong` exactly where it would have too many, and then nothing is put there.
#[tactic(auto, unfolding(crate::specs::Made::is_long))]
pub(crate) fn grow(out: &mut Vec<u8>, more: &[u8]) -> Result<(), MpiFault>
    requires out { length out.old.items ≤ text_most }
    requires more { length more.now ≤ text_most }
    ensures { IsGrown out.old.items more.now out.new.items result }
{
    if out.len() + more.len() > TEXT_MOST {
        return Err(MpiFault::TooLong);
    }
    out.extend_from_slice(more)?;
    Ok(())
}

/// `1` for true and `0` for false.
pub(crate) fn truth(alloc: Global, holds: bool) -> Result<Line, NoMemory>
    ensures { IfOk result (λ line. line ≡ truth_text holds) }
{
    if holds {
        Line::of_text(alloc, b"1")
    } else {
        Line::of_text(alloc, b"0")
    }
}

/// A number in decimal, with a `-` where it is negative.
#[tactic(auto, using(crate::proofs::Numbers::number_texts))]
pub(crate) fn number(alloc: Global, n: i32) -> Result<Line, NoMemory>
    ensures { IfOk result (λ line. line ≡ signed_decimal n) }
{
    let digits = n.to_string(alloc)?;
    Ok(Line::of_text_vec(digits.into_bytes()))
}

/// The number of an object, behind a `#`.
#[tactic(auto, using(crate::proofs::Numbers::number_texts))]
pub(crate) fn reference(alloc: Global, d: Dbref) -> Result<Line, NoMemory>
    ensures { IfOk result (λ line. line ≡ reference d) }
{
    let digits = number(alloc, d.0)?;
    let mut text = Vec::new(alloc);
    text.push(b'#')?;
    text.extend_from_slice(digits.as_slice())?;
    Ok(Line::of_text_vec(text))
}
