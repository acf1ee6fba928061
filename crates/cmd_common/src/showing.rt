// What players see of each other and of objects.
ghost use Rattle.std.specs.Prelude.{◌≡◌, ◌<◌, ◌^◌, ◌++◌, IfOk, [], codes};
ghost use Rattle.std.specs.Option.{option_map_or};
ghost use Rattle.spec_live.specs.Objects.{dbref_of, object_at};
ghost use Rattle.spec_live.specs.Seen.{long_form};
ghost use Rattle.spec_live.specs.Lives.{tell, reading, place_at, name_at};
ghost use Rattle.spec_rights.specs.Levels.{name_shown, dbref_number};
ghost use Rattle.spec_commands.specs.Finding.{shown_others, names_listed};
ghost use Rattle.spec_commands.specs.Building.{created_shown};
ghost use Rattle.spec_commands.specs.Programming.{lines_shown};
ghost use Rattle.muck_perm.specs.inner.Guards.{Did, objects_of, world_of};

use muck_model::{Dbref, Line, NoMemory};
use muck_perm::{Guard, long_form, name_shown};
use std::alloc::Global;

/// The place of an object, `#-1` where it isn't there.
pub fn place_at(guard: &Guard, x: Dbref) -> Dbref
    ensures { result ≡ place_at x (world_of guard.now) }
{
    match guard.db().get(x) {
        Some(object) => object.place(),
        None => Dbref(-1),
    }
}

// The name of an object; what isn't there has none.
fn name_of<'a>(guard: &'a Guard<'_>, x: Dbref) -> &'a [u8]
    ensures { result.now ≡ name_at x (world_of guard.now) }
{
    match guard.db().get(x) {
        Some(object) => object.name().as_slice(),
        None => b"",
    }
}

/// The name of an object, with a text behind it; what isn't there has none.
pub fn name_and(guard: &Guard, x: Dbref, tail: &[u8]) -> Result<Vec<u8>, NoMemory>
    ensures { IfOk result (λ text. text.items ≡ name_at x (world_of guard.now) ++ tail.now) }
{
    let name = name_of(guard, x);
    let mut text = Vec::with_capacity(guard.alloc(), name.len() + tail.len())?;
    text.extend_from_slice(name)?;
    text.extend_from_slice(tail)?;
    Ok(text)
}

/// The others where a player is see its name, and this text behind it.
#[tactic(auto, unfolding(spec_commands::specs::Finding::shown_others, spec_live::specs::Lives::reading))]
pub fn show_others(guard: &mut Guard, player: Dbref, tail: &[u8]) -> Result<(), NoMemory>
    ensures { Did (shown_others player tail.now) guard.old guard.new result }
{
    let room = place_at(guard, player);
    let text = name_and(guard, player, tail)?;
    guard.tell_others(room, player, &text)?;
    Ok(())
}

/// The connection sees the name of an object, as the player sees it.
#[tactic(auto, unfolding(spec_live::specs::Lives::reading))]
pub fn show_name(guard: &mut Guard, d: u32, player: Dbref, x: Dbref) -> Result<(), NoMemory>
    ensures { Did (reading (name_shown player x) (tell d)) guard.old guard.new result }
{
    let text = name_shown(guard.alloc(), guard.db(), player, x)?;
    guard.tell(d, &text)?;
    Ok(())
}

/// The connection sees the names of these objects, one a line.
pub fn list(guard: &mut Guard, d: u32, player: Dbref, xs: &[Dbref]) -> Result<(), NoMemory>
    ensures { Did (names_listed d player xs.now) guard.old guard.new result }
{
    for x in xs {
        show_name(guard, d, player, *x)?;
    }
    Ok(())
}

fn show_line(guard: &mut Guard, d: u32, line: &Line) -> Result<(), NoMemory>
    ensures { Did (tell d line.now) guard.old guard.new result }
{
    guard.tell(d, line.as_slice())?;
    Ok(())
}

/// The connection sees these lines, one after another.
pub fn show_lines(guard: &mut Guard, d: u32, lines: &[Line]) -> Result<(), NoMemory>
    ensures { Did (lines_shown d lines.now) guard.old guard.new result }
{
    for line in lines {
        show_line(guard, d, line)?;
    }
    Ok(())
}

/// The number of an object that is there.
pub fn number_of(x: Dbref) -> u32
    ensures number { result ≡ dbref_number x }
    ensures most { result < 2 ^ 31 }
{
    if x.0 < 0 { 0 } else { x.0 as u32 }
}

// The long form of the object of a number; what isn't there has none.
fn long_name(guard: &Guard, n: u32) -> Result<Vec<u8>, NoMemory>
    requires { n < 2 ^ 31 }
    ensures { IfOk result (λ text. text.items ≡ option_map_or (long_form n) (object_at (dbref_of n) (objects_of guard.now)) []) }
{
    match guard.db().get(Dbref(n as i32)) {
        Some(object) => long_form(guard.alloc(), n, object),
        None => Ok(Vec::new(guard.alloc())),
    }
}

/// Tells the connection of the new object of a number.
#[tactic(auto, unfolding(spec_commands::specs::Building::created_shown, spec_commands::specs::Replies::created_reply, spec_live::specs::Lives::reading))]
pub fn show_created(guard: &mut Guard, d: u32, n: u32) -> Result<(), NoMemory>
    requires { n < 2 ^ 31 }
    ensures { Did (created_shown d n) guard.old guard.new result }
{
    let name = long_name(guard, n)?;
    let mut text = Vec::new(guard.alloc());
    text.extend_from_slice(b"Created ")?;
    text.extend_from_slice(&name)?;
    text.extend_from_slice(b".")?;
    guard.tell(d, &text)?;
    Ok(())
}
