// The line of a text that is sent.
ghost use Rattle.std.specs.Prelude.{◌≡◌, IfOk};
ghost use Rattle.std.specs.List.{list_all};
ghost use Rattle.muck_links.specs.Lines.{is_shown_byte};
ghost use Rattle.muck_script.specs.Script.{line_of};
ghost use Rattle.muck_script.specs.inner.Plain.{is_plain};

use crate::INPUT_MOST;
use muck_links::LineCutter;
use muck_model::{Line, NoMemory};
use std::alloc::Global;

fn are_shown(text: &[u8]) -> bool
    ensures { result ≡ list_all is_shown_byte text.now }
{
    text.iter().all(|b| *b >= 32 && *b <= 126)
}

// Whether a text comes as it is.
#[tactic(auto, unfolding(muck_links::specs::Lines::line_most))]
fn is_plain(text: &[u8]) -> bool
    ensures { result ≡ is_plain text.now }
{
    text.len() <= INPUT_MOST && are_shown(text)
}

// The line of any text.
fn cut(alloc: Global, text: &[u8]) -> Result<Option<Line>, NoMemory>
    ensures { IfOk result (λ line. line ≡ line_of text.now) }
{
    let mut cutter = LineCutter::new(alloc)?;
    cutter.feed(text)?;
    cutter.feed(b"\n")?;
    Ok(cutter.next_line())
}

/// The line that comes where a link carries this text and byte 10, if there is one. A text that comes as it is goes past the cutter,
/// so that most lines of a script are read without one.
pub fn line_of(alloc: Global, text: &[u8]) -> Result<Option<Line>, NoMemory>
    ensures { IfOk result (λ line. line ≡ line_of text.now) }
{
    if is_plain(text) {
        return Ok(Some(Line::of_text(alloc, text)?));
    }
    cut(alloc, text)
}
