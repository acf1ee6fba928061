// What the editor shows.
ghost use Rattle.spec_live.specs.Lives.{tell};
ghost use Rattle.spec_commands.specs.Editing.{illegal, editor_exited};
ghost use Rattle.muck_perm.specs.inner.Guards.{Did};

use muck_model::NoMemory;
use muck_perm::Guard;

/// A line is no command, and the connection is told so.
#[tactic(auto, unfolding(spec_commands::specs::Editing::illegal))]
pub fn tell_illegal(guard: &mut Guard, d: u32) -> Result<(), NoMemory>
    ensures { Did (tell d illegal) guard.old guard.new result }
{
    guard.tell(d, b"Illegal editor command.")?;
    Ok(())
}

/// The editor is left, and the connection is told so.
#[tactic(auto, unfolding(spec_commands::specs::Editing::editor_exited))]
pub fn tell_exited(guard: &mut Guard, d: u32) -> Result<(), NoMemory>
    ensures { Did (tell d editor_exited) guard.old guard.new result }
{
    guard.tell(d, b"Editor exited.")?;
    Ok(())
}
