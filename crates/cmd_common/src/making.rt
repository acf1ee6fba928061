// What it takes to make a room, a thing or an exit.
ghost use Rattle.std.specs.Prelude.{◌≡◌, ◌≤◌, true, length};
ghost use Rattle.spec_live.specs.Making.{create_check};
ghost use Rattle.spec_rights.specs.Changing.{created_so};
ghost use Rattle.spec_commands.specs.Going.{home_at};
ghost use Rattle.spec_commands.specs.Building.{may_house, may_lead, kind_made, as_new, may_be, act_in};
ghost use Rattle.muck_perm.specs.inner.Guards.{Founds, IsLeave, objects_of, world_of};

use muck_model::{Dbref, Kind, Line};
use muck_perm::{Guard, Pass};
use spec_commands::New;
use spec_live::DbFault;
use spec_rights::Act;

const NOTHING: Dbref = Dbref(-1);

const HOME: Dbref = Dbref(-3);

// Whether a thing may have its home there.
#[tactic(auto, unfolding(spec_commands::specs::Finding::is_object_so))]
fn may_house(guard: &Guard, to: Dbref) -> bool
    ensures { result ≡ may_house to (world_of guard.now) }
{
    match guard.db().get(to) {
        Some(object) => matches!(object.kind(), Kind::Room | Kind::Thing | Kind::Player),
        None => false,
    }
}

// Whether an exit may lead there.
#[tactic(auto, unfolding(spec_commands::specs::Finding::is_object_so))]
fn may_lead(guard: &Guard, to: Dbref) -> bool
    ensures { result ≡ may_lead to (world_of guard.now) }
{
    if to == HOME || to == NOTHING {
        return true;
    }
    match guard.db().get(to) {
        Some(object) => matches!(object.kind(), Kind::Room | Kind::Program),
        None => false,
    }
}

/// Whether the field that is set at once may be that.
pub fn may_be(guard: &Guard, new: New) -> bool
    ensures { result ≡ may_be new (world_of guard.now) }
{
    match new {
        New::Room => true,
        New::Thing(at) => may_house(guard, at),
        New::Exit(to) => may_lead(guard, to),
    }
}

/// The act by which it is asked.
pub fn act_in(place: Dbref, new: New) -> Act
    ensures { result ≡ act_in place new }
{
    match new {
        New::Room => Act::NewRoom { place },
        New::Thing(_) => Act::NewThing { place },
        New::Exit(link) => Act::NewExit { place, link },
    }
}

/// Makes it by leave, where the world allows it.
#[tactic(auto, unfolding(spec_commands::specs::Finding::is_object_so))]
pub fn create(
    guard: &mut Guard,
    pass: Pass,
    new: New,
    name: Line,
    place: Dbref,
) -> Result<Dbref, DbFault>
    requires leave { IsLeave pass (act_in place new) guard.old }
    requires some { 1 ≤ length name }
    requires short { length name ≤ 80 }
    requires fits { may_be new (world_of guard.old) ≡ true }
    ensures { Founds (create_check (kind_made new) guard.old.actor.user place (objects_of guard.old)) (λ n to. created_so n (kind_made new) name guard.old.actor.user to (as_new new)) guard.old guard.new result }
{
    match new {
        New::Room => guard.create_room(pass, name, place),
        New::Thing(at) => guard.create_thing(pass, name, place, at),
        New::Exit(to) => guard.create_exit(pass, name, place, to),
    }
}

/// The home of an object, `#-1` where it isn't there.
pub fn home_at(guard: &Guard, x: Dbref) -> Dbref
    ensures { result ≡ home_at x (world_of guard.now) }
{
    match guard.db().get(x) {
        Some(object) => object.home(),
        None => NOTHING,
    }
}
