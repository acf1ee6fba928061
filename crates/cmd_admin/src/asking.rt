// What is a wizard's alone.
ghost use Rattle.std.specs.Prelude.{◌≡◌};
ghost use Rattle.spec_rights.specs.declared.act.Act.{Act};
ghost use Rattle.spec_rights.specs.Verdict.{verdict};
ghost use Rattle.spec_commands.specs.Programming.{over_denied};
ghost use Rattle.muck_perm.specs.inner.Guards.{objects_of};
ghost use Rattle.cmd_common.specs.inner.Plays.{Plays};

use cmd_common::refuse;
use muck_model::{Denial, NoMemory};
use muck_perm::{Guard, verdict};
use spec_commands::Outcome;
use spec_rights::Act;

/// The denial of what is a wizard's alone, where the actor is none.
pub fn wizard_denial(guard: &Guard) -> Option<Denial>
    ensures { result ≡ verdict (objects_of guard.now) guard.now.actor Act.Wizard }
{
    match verdict(guard.db(), &guard.actor(), &Act::Wizard) {
        Ok(_) => None,
        Err(denial) => Some(denial),
    }
}

/// A rule denies what was asked: the connection is told which, and the line is done.
#[tactic(auto, unfolding(spec_commands::specs::Going::ended))]
pub fn deny(guard: &mut Guard, d: u32, denial: Denial) -> Result<Outcome, NoMemory>
    ensures { Plays (over_denied d denial) guard.old guard.new result }
{
    refuse(guard, d, denial)?;
    Ok(Outcome::Done)
}
