// Making rooms, things and exits.
ghost use Rattle.std.specs.Prelude.{◌≡◌, ◌≤◌, true, length};
ghost use Rattle.spec_live.specs.Lives.{tell};
ghost use Rattle.spec_commands.specs.Replies.{cant_be_done};
ghost use Rattle.spec_commands.specs.Building.{making, kind_made, as_new, may_be, act_in, object_made, thing_made, exit_opened};
ghost use Rattle.muck_perm.specs.inner.Guards.{Did, IsLeave, world_of};
ghost use Rattle.cmd_build.specs.inner.Told.{IsTold};

use cmd_common::{
    act_in, cant_be_done, create, home_at, may_be, number_of, place_at, refuse, show_created,
};
use muck_model::{Dbref, Line, NoMemory};
use muck_perm::{Guard, Pass, verdict};
use spec_commands::New;
use spec_live::DbFault;
use spec_rights::Act;

// Tells the connection what came of making an object.
fn tell_made(guard: &mut Guard, d: u32, made: Result<Dbref, DbFault>) -> Result<(), NoMemory>
    ensures { IsTold d made guard.old guard.new result }
{
    match made {
        Ok(x) => show_created(guard, d, number_of(x)),
        Err(DbFault::NoMemory) => Err(NoMemory),
        Err(_) => cant_be_done(guard, d),
    }
}

// Makes it by leave, and tells the connection what came of it.
fn make_by(
    guard: &mut Guard,
    d: u32,
    pass: Pass,
    new: New,
    name: Line,
    place: Dbref,
) -> Result<(), NoMemory>
    requires leave { IsLeave pass (act_in place new) guard.old }
    requires some { 1 ≤ length name }
    requires short { length name ≤ 80 }
    requires fits { may_be new (world_of guard.old) ≡ true }
    ensures { Did (making d guard.old.actor (kind_made new) name place (as_new new)) guard.old guard.new result }
{
    let made = create(guard, pass, new, name, place);
    tell_made(guard, d, made)
}

/// Makes it in a place, where neither a rule nor the world denies it; the connection is told what was made, or why nothing.
#[tactic(auto, unfolding(spec_commands::specs::Building::object_made, spec_commands::specs::Finding::where_so, spec_live::specs::Lives::reading, spec_live::specs::Lives::either, spec_rights::specs::Asking::asked))]
pub fn make(guard: &mut Guard, d: u32, new: New, name: Line, place: Dbref) -> Result<(), NoMemory>
    requires some { 1 ≤ length name }
    requires short { length name ≤ 80 }
    ensures { Did (object_made d guard.old.actor new name place) guard.old guard.new result }
{
    let actor = guard.actor();
    let act = act_in(place, new);
    match verdict(guard.db(), &actor, &act) {
        Err(denial) => refuse(guard, d, denial),
        Ok(pass) => {
            if may_be(guard, new) {
                return make_by(guard, d, pass, new, name, place);
            }
            cant_be_done(guard, d)
        }
    }
}

/// `@create`: makes a thing that the player carries, and whose home is the player's.
#[tactic(auto, unfolding(spec_commands::specs::Building::thing_made, spec_live::specs::Lives::reading))]
pub fn make_thing(guard: &mut Guard, d: u32, name: Line) -> Result<(), NoMemory>
    requires some { 1 ≤ length name }
    requires short { length name ≤ 80 }
    ensures { Did (thing_made d guard.old.actor name) guard.old guard.new result }
{
    let player = guard.actor().player;
    let at = home_at(guard, player);
    make(guard, d, New::Thing(at), name, player)
}

/// `@open`: makes an exit where the player is, which leads to a place, or with `#-1` nowhere.
#[tactic(auto, unfolding(spec_commands::specs::Building::exit_opened, spec_live::specs::Lives::reading))]
pub fn open(guard: &mut Guard, d: u32, name: Line, to: Dbref) -> Result<(), NoMemory>
    requires some { 1 ≤ length name }
    requires short { length name ≤ 80 }
    ensures { Did (exit_opened d guard.old.actor name to) guard.old guard.new result }
{
    let here = place_at(guard, guard.actor().player);
    make(guard, d, New::Exit(to), name, here)
}
