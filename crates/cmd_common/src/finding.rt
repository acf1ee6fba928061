// Finding what a line names.
ghost use Rattle.std.specs.Prelude.{◌≡◌, ◌++◌, IfOk, IfSome, codes, true};
ghost use Rattle.spec_live.specs.Seen.{scenery_of};
ghost use Rattle.spec_live.specs.Lives.{tell};
ghost use Rattle.muck_match.specs.Naming.{thing_found, player_named};
ghost use Rattle.spec_commands.specs.Replies.{not_understood, not_known};
ghost use Rattle.spec_commands.specs.Finding.{finding, finding_player, finding_object, is_object};
ghost use Rattle.spec_commands.specs.Going.{is_program_there};
ghost use Rattle.muck_perm.specs.inner.Guards.{Did, world_of};
ghost use Rattle.cmd_common.specs.inner.Plays.{Finds};

use crate::replies::cant_be_done;
use muck_match::Found;
use muck_model::{Dbref, Kind, Line, NoMemory};
use muck_perm::Guard;
use std::alloc::Global;

// A text between two others.
fn around(alloc: Global, before: &[u8], text: &[u8], after: &[u8]) -> Result<Vec<u8>, NoMemory>
    ensures { IfOk result (λ v. v.items ≡ (before.now ++ text.now) ++ after.now) }
{
    let mut whole = Vec::new(alloc);
    whole.extend_from_slice(before)?;
    whole.extend_from_slice(text)?;
    whole.extend_from_slice(after)?;
    Ok(whole)
}

#[tactic(auto, unfolding(spec_commands::specs::Replies::not_understood))]
pub(crate) fn tell_not_understood(guard: &mut Guard, d: u32, text: &[u8]) -> Result<(), NoMemory>
    ensures { Did (tell d (not_understood text.now)) guard.old guard.new result }
{
    let reply = around(guard.alloc(), b"I don't understand '", text, b"'.")?;
    guard.tell(d, &reply)?;
    Ok(())
}

#[tactic(auto, unfolding(spec_commands::specs::Replies::not_known))]
pub(crate) fn tell_not_known(guard: &mut Guard, d: u32, text: &[u8]) -> Result<(), NoMemory>
    ensures { Did (tell d (not_known text.now)) guard.old guard.new result }
{
    let reply = around(guard.alloc(), b"I don't know which '", text, b"' you mean!")?;
    guard.tell(d, &reply)?;
    Ok(())
}

/// The one object that the player means by a text, which may be home. `None` exactly where there is none or there are
/// several, and then the connection was told.
#[tactic(auto, unfolding(spec_commands::specs::Finding::finding, spec_live::specs::Lives::reading))]
pub fn find_one(guard: &mut Guard, d: u32, text: &Line) -> Result<Option<Dbref>, NoMemory>
    ensures { Finds (finding (tell d) guard.old.actor.player text.now) guard.old guard.new result }
{
    match guard.db().find(guard.actor().player, text) {
        Found::One(x) => Ok(Some(x)),
        Found::None => {
            tell_not_understood(guard, d, text.as_slice())?;
            Ok(None)
        }
        Found::Many => {
            tell_not_known(guard, d, text.as_slice())?;
            Ok(None)
        }
    }
}

/// The player of a name. `None` exactly where there is none, and then the connection was told.
#[tactic(auto, unfolding(spec_commands::specs::Finding::finding_player, spec_live::specs::Lives::reading))]
pub fn find_player(guard: &mut Guard, d: u32, name: &Line) -> Result<Option<Dbref>, NoMemory>
    ensures { Finds (finding_player (tell d) name.now) guard.old guard.new result }
{
    match guard.db().player_named(name.as_slice()) {
        Some(x) => Ok(Some(x)),
        None => {
            tell_not_understood(guard, d, name.as_slice())?;
            Ok(None)
        }
    }
}

/// Whether an object is there.
#[tactic(auto, unfolding(spec_commands::specs::Finding::is_object_so))]
pub fn is_object(guard: &Guard, x: Dbref) -> bool
    ensures { result ≡ is_object x (world_of guard.now) }
{
    matches!(guard.db().get(x), Some(_))
}

/// The one object that is there and that the player means by a text. `None` exactly where there is none, there are
/// several, or it is home, and then the connection was told.
#[tactic(auto, unfolding(spec_commands::specs::Finding::finding_object, spec_commands::specs::Finding::where_so, spec_live::specs::Lives::reading, spec_live::specs::Lives::either))]
pub fn find_object(guard: &mut Guard, d: u32, name: &Line) -> Result<Option<Dbref>, NoMemory>
    ensures finds { Finds (finding_object d guard.old.actor name.now) guard.old guard.new result }
    ensures there { IfOk result (λ found. IfSome found (λ x. is_object x (world_of guard.old) ≡ true)) }
{
    let Some(x) = find_one(guard, d, name)? else {
        return Ok(None);
    };
    if is_object(guard, x) {
        return Ok(Some(x));
    }
    cant_be_done(guard, d)?;
    Ok(None)
}

/// Whether an object is a program.
#[tactic(auto, unfolding(spec_commands::specs::Finding::is_object_so))]
pub fn is_program(guard: &Guard, x: Dbref) -> bool
    ensures { result ≡ is_program_there x (world_of guard.now) }
{
    match guard.db().get(x) {
        Some(object) => matches!(object.kind(), Kind::Program),
        None => false,
    }
}
