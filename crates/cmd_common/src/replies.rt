// What several commands reply.
ghost use Rattle.std.specs.Prelude.{◌≡◌, ◌++◌, Ok, Err, IfOk, MatchResult, map, codes, decimal};
ghost use Rattle.std.specs.Char.{to_ascii_lowercase};
ghost use Rattle.spec_live.specs.Lives.{tell};
ghost use Rattle.spec_rights.specs.Asking.{refused, denied_text};
ghost use Rattle.spec_commands.specs.Replies.{cant_be_done, bad_name, usage};
ghost use Rattle.spec_commands.specs.Reading.{incomplete};
ghost use Rattle.muck_perm.specs.inner.Guards.{Did};

use muck_model::{Denial, NoMemory};
use muck_perm::Guard;
use spec_commands::Outcome;

/// What was asked can't be done, and the connection is told so.
#[tactic(auto, unfolding(spec_commands::specs::Replies::cant_be_done))]
pub fn cant_be_done(guard: &mut Guard, d: u32) -> Result<(), NoMemory>
    ensures { Did (tell d cant_be_done) guard.old guard.new result }
{
    guard.tell(d, b"That can't be done.")?;
    Ok(())
}

/// Nothing may have that name, and the connection is told so.
#[tactic(auto, unfolding(spec_commands::specs::Replies::bad_name))]
pub fn bad_name(guard: &mut Guard, d: u32) -> Result<(), NoMemory>
    ensures { Did (tell d bad_name) guard.old guard.new result }
{
    guard.tell(d, b"That's not a reasonable name.")?;
    Ok(())
}

/// A part of a command is missing: the connection is told the command's word, in lower case.
#[tactic(auto, unfolding(spec_commands::specs::Replies::usage, spec_commands::specs::Reading::incomplete))]
pub fn incomplete(guard: &mut Guard, d: u32, word: &[u8]) -> Result<(), NoMemory>
    ensures { Did (incomplete d word.now) guard.old guard.new result }
{
    let mut text = Vec::new(guard.alloc());
    text.extend_from_slice(b"Usage: ")?;
    let lower = word.to_ascii_lowercase(guard.alloc())?;
    text.extend_from_slice(&lower)?;
    guard.tell(d, &text)?;
    Ok(())
}

/// A rule denies what was asked, and the connection is told which.
#[tactic(auto, unfolding(spec_rights::specs::Asking::refused, spec_rights::specs::Asking::denied_text))]
pub fn refuse(guard: &mut Guard, d: u32, denial: Denial) -> Result<(), NoMemory>
    ensures { Did (refused d denial) guard.old guard.new result }
{
    let rule = denial.rule;
    let text = format!(in guard.alloc(); "Permission denied (P{rule}).")?;
    guard.tell(d, text.as_bytes())?;
    Ok(())
}

/// A command is done, and nothing is to follow it; or memory was wanted.
pub fn done(shown: Result<(), NoMemory>) -> Result<Outcome, NoMemory>
    ensures { MatchResult shown (λ x. result ≡ Ok Outcome.Done) (λ e. result ≡ Err e) }
{
    shown?;
    Ok(Outcome::Done)
}
