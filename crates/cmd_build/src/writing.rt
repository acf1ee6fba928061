// Links and names.
ghost use Rattle.std.specs.Prelude.{◌≡◌, ◌≤◌, length};
ghost use Rattle.spec_commands.specs.Building.{is_linkable, link_set, link_cleared, name_set};
ghost use Rattle.muck_perm.specs.inner.Guards.{Did, world_of};

use cmd_common::{Write, bad_name, cant_be_done, may_be_called, try_write};
use muck_model::{Dbref, Kind, Line, NoMemory};
use muck_perm::Guard;

// Whether an object has a link or a home.
#[tactic(auto, unfolding(spec_commands::specs::Finding::is_object_so))]
fn is_linkable(guard: &Guard, x: Dbref) -> bool
    ensures { result ≡ is_linkable x (world_of guard.now) }
{
    match guard.db().get(x) {
        Some(object) => !matches!(object.kind(), Kind::Program),
        None => false,
    }
}

/// `@link`: gives an exit or a room a link, a thing or a player a home.
#[tactic(auto, unfolding(spec_commands::specs::Building::link_set, spec_commands::specs::Replies::linked_reply, spec_commands::specs::Finding::where_so, spec_live::specs::Lives::reading, spec_live::specs::Lives::either))]
pub fn link(guard: &mut Guard, d: u32, x: Dbref, to: Dbref) -> Result<(), NoMemory>
    ensures { Did (link_set d guard.old.actor x to) guard.old guard.new result }
{
    if !is_linkable(guard, x) {
        return cant_be_done(guard, d);
    }
    try_write(guard, d, Write::Link(x, to), b"Linked.")
}

/// `@unlink`: clears the link of an exit or a room; the home of a thing or a player becomes `#0`.
#[tactic(auto, unfolding(spec_commands::specs::Building::link_cleared, spec_commands::specs::Replies::unlinked_reply, spec_commands::specs::Finding::where_so, spec_live::specs::Lives::reading, spec_live::specs::Lives::either))]
pub fn unlink(guard: &mut Guard, d: u32, x: Dbref) -> Result<(), NoMemory>
    ensures { Did (link_cleared d guard.old.actor x) guard.old guard.new result }
{
    if !is_linkable(guard, x) {
        return cant_be_done(guard, d);
    }
    try_write(guard, d, Write::Unlink(x), b"Unlinked.")
}

/// `@name`: gives an object another name.
#[tactic(auto, unfolding(spec_commands::specs::Building::name_set, spec_commands::specs::Replies::named_reply, spec_commands::specs::Finding::where_so, spec_live::specs::Lives::reading, spec_live::specs::Lives::either))]
pub fn rename(guard: &mut Guard, d: u32, x: Dbref, name: Line) -> Result<(), NoMemory>
    requires some { 1 ≤ length name }
    requires short { length name ≤ 80 }
    ensures { Did (name_set d guard.old.actor x name) guard.old guard.new result }
{
    if !may_be_called(guard, x, name.as_slice()) {
        return bad_name(guard, d);
    }
    try_write(guard, d, Write::Name(x, name), b"Name set.")
}
