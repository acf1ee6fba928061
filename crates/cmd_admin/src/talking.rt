// Talking to all, sending connections away, dumps and stopping.
ghost use Rattle.std.specs.Prelude.{◌≡◌, ◌++◌, IfOk};
ghost use Rattle.spec_live.specs.Lives.{name_at, tell_all, reading};
ghost use Rattle.spec_commands.specs.declared.outcome.Outcome.{Outcome};
ghost use Rattle.spec_commands.specs.Going.{ended};
ghost use Rattle.spec_live.specs.Lives.{tell};
ghost use Rattle.spec_admin.specs.Replies.{shouts, dumping_reply, going_down};
ghost use Rattle.spec_admin.specs.Lines.{by_wizard, player_booted, shouted};
ghost use Rattle.muck_perm.specs.inner.Guards.{Did, world_of};
ghost use Rattle.cmd_common.specs.inner.Plays.{Plays};

use crate::asking::{deny, wizard_denial};
use cmd_common::name_and;
use muck_model::{Dbref, Line, NoMemory};
use muck_perm::{Guard, verdict};
use spec_commands::Outcome;
use spec_rights::Act;

/// `@boot`: the connections of a player are to leave.
#[tactic(auto, unfolding(spec_admin::specs::Lines::player_booted, spec_admin::specs::Replies::booted_reply, spec_commands::specs::Going::ended, spec_live::specs::Lives::change_followed, spec_rights::specs::Asking::asked))]
pub fn boot(guard: &mut Guard, d: u32, player: Dbref) -> Result<Outcome, NoMemory>
    ensures { Plays (player_booted d guard.old.actor player) guard.old guard.new result }
{
    let actor = guard.actor();
    let act = Act::Wizard;
    match verdict(guard.db(), &actor, &act) {
        Err(denial) => return deny(guard, d, denial),
        Ok(pass) => guard.boot(pass, player),
    }
    guard.tell(d, b"Booted.")?;
    Ok(Outcome::Done)
}

// What everybody sees of a player's words.
#[tactic(auto, unfolding(spec_admin::specs::Replies::shouts))]
fn shout_of(guard: &Guard, player: Dbref, text: &Line) -> Result<Vec<u8>, NoMemory>
    ensures { IfOk result (λ shout. shout.items ≡ name_at player (world_of guard.now) ++ shouts text.now) }
{
    let mut shout = name_and(guard, player, b" shouts, \"")?;
    shout.extend_from_slice(text.as_slice())?;
    shout.extend_from_slice(b"\"")?;
    Ok(shout)
}

/// `@wall`: everybody who is connected sees the player's words.
#[tactic(auto, unfolding(spec_admin::specs::Lines::shouted, spec_commands::specs::Going::ended, spec_live::specs::Lives::reading, spec_rights::specs::Asking::asked))]
pub fn wall(guard: &mut Guard, d: u32, text: &Line) -> Result<Outcome, NoMemory>
    ensures { Plays (shouted d guard.old.actor text.now) guard.old guard.new result }
{
    if let Some(denial) = wizard_denial(guard) {
        return deny(guard, d, denial);
    }
    let shout = shout_of(guard, guard.actor().player, text)?;
    guard.tell_all(&shout)?;
    Ok(Outcome::Done)
}

/// `@dump`: a dump is asked.
#[tactic(auto, unfolding(spec_admin::specs::Replies::dumping_reply, spec_commands::specs::Going::ended, spec_rights::specs::Asking::asked))]
pub fn dump(guard: &mut Guard, d: u32) -> Result<Outcome, NoMemory>
    ensures { Plays (by_wizard d guard.old.actor (ended Outcome.Dump (tell d dumping_reply))) guard.old guard.new result }
{
    if let Some(denial) = wizard_denial(guard) {
        return deny(guard, d, denial);
    }
    guard.tell(d, b"Dumping.")?;
    Ok(Outcome::Dump)
}

/// `@shutdown`: the world is to stop.
#[tactic(auto, unfolding(spec_admin::specs::Replies::going_down, spec_commands::specs::Going::ended, spec_rights::specs::Asking::asked))]
pub fn shut_down(guard: &mut Guard, d: u32) -> Result<Outcome, NoMemory>
    ensures { Plays (by_wizard d guard.old.actor (ended Outcome.Stop (tell d going_down))) guard.old guard.new result }
{
    if let Some(denial) = wizard_denial(guard) {
        return deny(guard, d, denial);
    }
    guard.tell(d, b"Going down.")?;
    Ok(Outcome::Stop)
}
