// Writing what a rule or the world may refuse.
ghost use Rattle.std.specs.Prelude.{◌≡◌, ◌||◌, true};
ghost use Rattle.spec_live.specs.Objects.{nothing, is_thing, is_player};
ghost use Rattle.spec_commands.specs.Building.{object_has_home, done_where, change_by_leave};
ghost use Rattle.spec_commands.specs.Settings.{setting_act, is_setting};
ghost use Rattle.muck_perm.specs.inner.Guards.{Did, IsLeave, world_of};
ghost use Rattle.cmd_common.specs.inner.Writes.{act_of, may, change_of, IsFit, IsDone};

use crate::replies::{cant_be_done, refuse};
use muck_model::{Dbref, Kind, Line, NoMemory};
use muck_perm::{Guard, Pass, verdict};
use muck_prop::{Path, PropValue};
use spec_commands::{Setting, setting_act};
use spec_live::DbFault;
use spec_rights::Act;

const NOTHING: Dbref = Dbref(-1);

const HOME: Dbref = Dbref(-3);

/// What is to be written of an object.
#[derive(Drop)]
pub enum Write {
    /// Its name.
    Name(Dbref, Line),
    /// Its owner.
    Owner(Dbref, Dbref),
    /// Its place; home is its own.
    Place(Dbref, Dbref),
    /// Its link, or the home of a thing or a player.
    Link(Dbref, Dbref),
    /// That it has no link, or that the home of a thing or a player is `#0`.
    Unlink(Dbref),
    /// That it is recycled.
    Recycle(Dbref),
    /// A message or a lock at its path, which an empty text clears.
    Keep(Dbref, Path, Line),
    /// A flag or a level.
    Set(Dbref, Setting),
}

/// The act by which it is asked.
pub fn act_of(write: &Write) -> Act
    ensures { result ≡ act_of write.now }
{
    match write {
        Write::Name(object, _) => Act::Rename { object: *object },
        Write::Owner(object, owner) => Act::SetOwner {
            object: *object,
            owner: *owner,
        },
        Write::Place(object, to) => Act::Move {
            object: *object,
            to: *to,
        },
        Write::Link(object, to) => Act::Link {
            object: *object,
            to: *to,
        },
        Write::Unlink(object) => Act::Link {
            object: *object,
            to: NOTHING,
        },
        Write::Recycle(object) => Act::Recycle { object: *object },
        Write::Keep(object, _, _) => Act::Change { object: *object },
        Write::Set(object, setting) => setting_act(*object, *setting),
    }
}

// Whether an object has a home in place of a link.
#[tactic(auto, unfolding(spec_commands::specs::Finding::is_object_so))]
fn has_home(guard: &Guard, x: Dbref) -> bool
    ensures { result ≡ object_has_home x (world_of guard.now) }
{
    match guard.db().get(x) {
        Some(object) => matches!(object.kind(), Kind::Thing | Kind::Player),
        None => false,
    }
}

// Sets the link or the home of an object.
#[tactic(auto, using(crate::proofs::Written::makes_done), unfolding(spec_commands::specs::Building::tied, spec_live::specs::Lives::reading, spec_live::specs::Lives::either))]
fn tie(guard: &mut Guard, pass: Pass, x: Dbref, to: Dbref) -> Result<(), DbFault>
    requires leave { IsLeave pass (Act.Link x to) guard.old }
    ensures { IsDone (may (Write.Link x to) (world_of guard.old)) (change_of (Write.Link x to)) guard.old guard.new result }
{
    if has_home(guard, x) {
        guard.set_home(pass, x, to)
    } else {
        guard.link(pass, x, to)
    }
}

// Clears the link of an object, or makes `#0` its home.
#[tactic(auto, using(crate::proofs::Written::makes_done), unfolding(spec_commands::specs::Building::tied, spec_live::specs::Lives::reading, spec_live::specs::Lives::either))]
fn untie(guard: &mut Guard, pass: Pass, x: Dbref) -> Result<(), DbFault>
    requires leave { IsLeave pass (Act.Link x nothing) guard.old }
    ensures { IsDone (may (Write.Unlink x) (world_of guard.old)) (change_of (Write.Unlink x)) guard.old guard.new result }
{
    if has_home(guard, x) {
        guard.clear_home(pass, x)
    } else {
        guard.link(pass, x, NOTHING)
    }
}

// Moves an object; home is its own.
#[tactic(auto, using(crate::proofs::Written::makes_done), unfolding(spec_commands::specs::Building::object_placed, spec_live::specs::Lives::reading))]
fn place(guard: &mut Guard, pass: Pass, x: Dbref, to: Dbref) -> Result<(), DbFault>
    requires leave { IsLeave pass (Act.Move x to) guard.old }
    ensures { IsDone (may (Write.Place x to) (world_of guard.old)) (change_of (Write.Place x to)) guard.old guard.new result }
{
    if to == HOME {
        guard.move_home(pass, x)
    } else {
        guard.move_to(pass, x, to)
    }
}

// Sets or clears a flag, or gives a level.
#[tactic(auto, using(crate::proofs::Written::makes_done))]
fn set(guard: &mut Guard, pass: Pass, x: Dbref, setting: Setting) -> Result<(), DbFault>
    requires leave { IsLeave pass (setting_act x setting) guard.old }
    requires one { is_setting setting ≡ true }
    ensures { IsDone (may (Write.Set x setting) (world_of guard.old)) (change_of (Write.Set x setting)) guard.old guard.new result }
{
    match setting {
        Setting::Flag(flag) => guard.set_flag(pass, x, flag),
        Setting::NoFlag(flag) => guard.clear_flag(pass, x, flag),
        Setting::Level(level) => guard.set_level(pass, x, level),
    }
}

/// Does it by leave, where the world allows it; else nothing has changed, and after `NoMemory`.
#[tactic(auto, using(crate::proofs::Written::makes_done, crate::proofs::Written::tries_done))]
pub fn put(guard: &mut Guard, pass: Pass, write: Write) -> Result<(), DbFault>
    requires leave { IsLeave pass (act_of write) guard.old }
    requires fit { IsFit write }
    ensures { IsDone (may write (world_of guard.old)) (change_of write) guard.old guard.new result }
{
    match write {
        Write::Name(x, name) => guard.rename(pass, x, name),
        Write::Owner(x, owner) => guard.set_owner(pass, x, owner),
        Write::Place(x, to) => place(guard, pass, x, to),
        Write::Link(x, to) => tie(guard, pass, x, to),
        Write::Unlink(x) => untie(guard, pass, x),
        Write::Recycle(x) => guard.recycle(pass, x),
        Write::Keep(x, path, text) => guard.store_message(pass, x, path, PropValue::Text(text)),
        Write::Set(x, setting) => set(guard, pass, x, setting),
    }
}

/// Writes by leave: where the world allows it, it is done and the connection sees the reply; else it is told that it can't
/// be done, and nothing has changed.
#[tactic(auto, unfolding(spec_commands::specs::Building::done_where, spec_commands::specs::Finding::where_so, spec_live::specs::Lives::reading, spec_live::specs::Lives::either, spec_live::specs::Lives::change_followed))]
pub fn write_by_leave(
    guard: &mut Guard,
    pass: Pass,
    d: u32,
    write: Write,
    reply: &[u8],
) -> Result<(), NoMemory>
    requires leave { IsLeave pass (act_of write) guard.old }
    requires fit { IsFit write }
    ensures { Did (done_where d (may write) (change_of write) reply.now) guard.old guard.new result }
{
    match put(guard, pass, write) {
        Ok(()) => guard.tell(d, reply),
        Err(DbFault::NoMemory) => Err(NoMemory),
        Err(_) => cant_be_done(guard, d),
    }
}

/// Writes, where neither a rule nor the world denies it; the connection sees the reply, or why not, and then nothing has
/// changed.
#[tactic(auto, unfolding(spec_commands::specs::Building::change_by_leave, spec_rights::specs::Asking::asked))]
pub fn try_write(guard: &mut Guard, d: u32, write: Write, reply: &[u8]) -> Result<(), NoMemory>
    requires { IsFit write }
    ensures { Did (change_by_leave d guard.old.actor (act_of write) (may write) (change_of write) reply.now) guard.old guard.new result }
{
    let actor = guard.actor();
    let act = act_of(&write);
    match verdict(guard.db(), &actor, &act) {
        Err(denial) => refuse(guard, d, denial),
        Ok(pass) => write_by_leave(guard, pass, d, write, reply),
    }
}
