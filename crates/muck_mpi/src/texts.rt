// Texts that are made.
ghost use Rattle.std.specs.Prelude.{◌≡◌, ◌≤◌, IfOk, None, length};
ghost use Rattle.muck_model.specs.Bytes.{text_fault};
ghost use Rattle.mpi.specs.Hosting.{Means};
ghost use Rattle.mpi.specs.Made.{Inside, text_or_long};
ghost use Rattle.mpi.specs.Meaning.{reference};
ghost use Rattle.mpi.specs.Values.{truth_text};

use mpi::MpiFault;
use muck_model::{Dbref, Line, NoMemory, TEXT_MOST};
use std::alloc::Global;

/// `1` for true and `0` for false.
pub(crate) fn truth(alloc: Global, holds: bool) -> Result<Line, NoMemory>
    ensures { IfOk result (λ line. line ≡ truth_text holds) }
{
    if holds {
        Line::of_text(alloc, b"1")
    } else {
        Line::of_text(alloc, b"0")
    }
}

/// The number of an object, behind a `#`.
#[tactic(auto, using(mpi::proofs::Numbers::number_texts))]
pub(crate) fn reference(alloc: Global, d: Dbref) -> Result<Line, NoMemory>
    ensures { IfOk result (λ line. line ≡ reference d) }
{
    let digits = d.0.to_string(alloc)?;
    let mut text = Vec::new(alloc);
    text.push(b'#')?;
    text.extend_from_slice(digits.as_bytes())?;
    Ok(Line::of_text_vec(text))
}

/// The text of these bytes, which may be too many.
#[tactic(auto, using(mpi::proofs::Inside::text_steps), unfolding(mpi::specs::Made::is_long))]
pub(crate) fn line_of(bytes: Vec<u8>) -> Result<Line, MpiFault>
    requires { Inside bytes.items }
    ensures { Means (text_or_long bytes.items) result }
{
    if bytes.len() > TEXT_MOST {
        return Err(MpiFault::TooLong);
    }
    Ok(Line::of_text_vec(bytes))
}
