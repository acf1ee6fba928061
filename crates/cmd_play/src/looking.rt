// What players see.
ghost use Rattle.std.specs.Prelude.{◌≡◌, ◌++◌, false, IfOk};
ghost use Rattle.spec_live.specs.Seen.{listed_in};
ghost use Rattle.spec_live.specs.Lives.{tell, reading, unchanged, name_at};
ghost use Rattle.spec_rights.specs.Levels.{owner_at, flag_at};
ghost use Rattle.spec_commands.specs.Replies.{lock_line};
ghost use Rattle.spec_live.specs.Worth.{lock_text};
ghost use Rattle.spec_commands.specs.Messages.{look_typed};
ghost use Rattle.spec_commands.specs.Finding.{listed_under, is_seen, seen_in, room_shown, place_looked_at, is_room_at, look_shown, owner_shown, thing_examined};
ghost use Rattle.spec_commands.specs.Going.{inventory_shown};
ghost use Rattle.muck_perm.specs.inner.Guards.{Did, objects_of, world_of};

use crate::messages::{message_or, show_message};
use crate::typed::word_typed;
use cmd_common::{list, name_and, place_at, show_name};
use muck_model::{Dbref, Kind, NoMemory};
use muck_perm::{Guard, command_level, controls_as};
use spec_commands::Typed;
use spec_live::{DARK, Message, has_flag};

// The connection sees a head and the names of these objects, where there are any.
#[tactic(auto, unfolding(spec_live::specs::Lives::change_followed, spec_live::specs::Lives::unchanged, spec_commands::specs::Finding::listed_under))]
fn list_under(
    guard: &mut Guard,
    d: u32,
    player: Dbref,
    head: &[u8],
    xs: &[Dbref],
) -> Result<(), NoMemory>
    ensures { Did (listed_under d player head.now unchanged xs.now) guard.old guard.new result }
{
    if !xs.is_empty() {
        guard.tell(d, head)?;
        list(guard, d, player, xs)?;
    }
    Ok(())
}

// The connection sees a head and the names of these objects, or another text where there are none.
#[tactic(auto, unfolding(spec_live::specs::Lives::change_followed, spec_commands::specs::Finding::listed_under))]
fn list_or(
    guard: &mut Guard,
    d: u32,
    player: Dbref,
    head: &[u8],
    otherwise: &[u8],
    xs: &[Dbref],
) -> Result<(), NoMemory>
    ensures { Did (listed_under d player head.now (tell d otherwise.now) xs.now) guard.old guard.new result }
{
    if xs.is_empty() {
        guard.tell(d, otherwise)?;
    } else {
        guard.tell(d, head)?;
        list(guard, d, player, xs)?;
    }
    Ok(())
}

// Whether an object is there and hidden.
#[tactic(auto, unfolding(spec_rights::specs::Levels::flag_at))]
fn is_dark(guard: &Guard, x: Dbref) -> bool
    ensures { result ≡ flag_at DARK (objects_of guard.now) x }
{
    match guard.db().get(x) {
        Some(object) => has_flag(DARK, object.flags()),
        None => false,
    }
}

// Whether a player sees an object that is where it looks: itself it doesn't see, nor what is hidden and isn't its own.
fn is_seen(guard: &Guard, player: Dbref, x: Dbref) -> bool
    ensures { result ≡ is_seen (world_of guard.now) player x }
{
    let db = guard.db();
    x != player && (!is_dark(guard, x) || controls_as(db, command_level(db, player), player, x))
}

// What a player sees in a room.
#[tactic(auto, unfolding(spec_commands::specs::Finding::seen_in))]
fn seen_in(guard: &Guard, player: Dbref, room: Dbref) -> Result<Vec<Dbref>, NoMemory>
    ensures { IfOk result (λ xs. xs.items ≡ seen_in player room (world_of guard.now)) }
{
    let seen = guard
        .db()
        .contents(room)
        .filter(|x| is_seen(guard, player, *x))
        .collect(guard.alloc())?;
    Ok(seen)
}

/// The connection sees a room as the player does: its name, its description, and what is in it.
#[tactic(auto, unfolding(spec_live::specs::Lives::change_followed, spec_live::specs::Lives::reading, spec_commands::specs::Finding::room_shown, spec_commands::specs::Replies::contents_head))]
pub fn show_room(guard: &mut Guard, d: u32, typed: &Typed, room: Dbref) -> Result<(), NoMemory>
    ensures { Did (room_shown d guard.old.actor typed.now room) guard.old guard.new result }
{
    let player = guard.actor().player;
    show_name(guard, d, player, room)?;
    show_message(guard, d, typed, Message::Describe, room)?;
    let seen = seen_in(guard, player, room)?;
    list_under(guard, d, player, b"Contents:", &seen)
}

/// The player looks at where it is.
#[tactic(auto, unfolding(spec_live::specs::Lives::reading, spec_commands::specs::Finding::place_looked_at))]
pub fn look(guard: &mut Guard, d: u32, typed: &Typed) -> Result<(), NoMemory>
    ensures { Did (place_looked_at d guard.old.actor typed.now) guard.old guard.new result }
{
    let room = place_at(guard, guard.actor().player);
    show_room(guard, d, typed, room)
}

/// The player, which has logged in, looks at where it is.
pub fn look_first(guard: &mut Guard, d: u32) -> Result<(), NoMemory>
    ensures { Did (place_looked_at d guard.old.actor look_typed) guard.old guard.new result }
{
    let typed = word_typed(guard.alloc(), b"look")?;
    look(guard, d, &typed)
}

/// Whether it is a room.
#[tactic(auto, unfolding(spec_commands::specs::Finding::is_object_so))]
pub fn is_room(guard: &Guard, x: Dbref) -> bool
    ensures { result ≡ is_room_at x (world_of guard.now) }
{
    match guard.db().get(x) {
        Some(object) => matches!(object.kind(), Kind::Room),
        None => false,
    }
}

/// The player looks at something: a room is shown whole, and of anything else its description.
#[tactic(auto, unfolding(spec_live::specs::Lives::reading, spec_live::specs::Lives::either, spec_commands::specs::Finding::where_so, spec_commands::specs::Finding::look_shown, spec_commands::specs::Replies::nothing_special))]
pub fn look_at(guard: &mut Guard, d: u32, typed: &Typed, x: Dbref) -> Result<(), NoMemory>
    ensures { Did (look_shown d guard.old.actor typed.now x) guard.old guard.new result }
{
    if is_room(guard, x) {
        show_room(guard, d, typed, x)
    } else {
        message_or(
            guard,
            d,
            typed,
            b"You see nothing special.",
            Message::Describe,
            x,
        )
    }
}

// What an object holds.
fn held_by(guard: &Guard, x: Dbref) -> Result<Vec<Dbref>, NoMemory>
    ensures { IfOk result (λ xs. xs.items ≡ listed_in false x (objects_of guard.now)) }
{
    let held = guard.db().contents(x).collect(guard.alloc())?;
    Ok(held)
}

/// The player sees what it carries.
#[tactic(auto, unfolding(spec_live::specs::Lives::reading, spec_commands::specs::Going::inventory_shown, spec_commands::specs::Replies::carrying_head, spec_commands::specs::Replies::carrying_nothing))]
pub fn inventory(guard: &mut Guard, d: u32) -> Result<(), NoMemory>
    ensures { Did (inventory_shown d guard.old.actor.player) guard.old guard.new result }
{
    let player = guard.actor().player;
    let held = held_by(guard, player)?;
    list_or(
        guard,
        d,
        player,
        b"You are carrying:",
        b"You aren't carrying anything.",
        &held,
    )?;
    Ok(())
}

// The owner of an object, `#-1` where it isn't there.
#[tactic(auto, unfolding(spec_rights::specs::Levels::owner_at))]
fn owner_at(guard: &Guard, x: Dbref) -> Dbref
    ensures { result ≡ owner_at (objects_of guard.now) x }
{
    match guard.db().get(x) {
        Some(object) => object.owner(),
        None => Dbref(-1),
    }
}

// The name behind a text.
fn and_name(guard: &Guard, head: &[u8], x: Dbref) -> Result<Vec<u8>, NoMemory>
    ensures { IfOk result (λ text. text.items ≡ head.now ++ name_at x (world_of guard.now)) }
{
    let mut text = head.to_vec(guard.alloc())?;
    if let Some(object) = guard.db().get(x) {
        text.extend_from_slice(object.name().as_slice())?;
    }
    Ok(text)
}

// The connection sees who owns an object.
#[tactic(auto, unfolding(spec_live::specs::Lives::reading, spec_commands::specs::Finding::owner_shown, spec_commands::specs::Replies::owner_line))]
fn show_owner(guard: &mut Guard, d: u32, x: Dbref) -> Result<(), NoMemory>
    ensures { Did (owner_shown d x) guard.old guard.new result }
{
    let owner = owner_at(guard, x);
    let text = and_name(guard, b"Owner: ", owner)?;
    guard.tell(d, &text)?;
    Ok(())
}

// The connection sees the lock of an object as it is kept.
#[tactic(auto, unfolding(spec_live::specs::Lives::reading, spec_commands::specs::Replies::lock_line))]
fn show_lock(guard: &mut Guard, d: u32, x: Dbref) -> Result<(), NoMemory>
    ensures { Did (reading (λ w. lock_text x w.objects) (λ text. tell d (lock_line text))) guard.old guard.new result }
{
    let lock = guard.lock_text(x)?;
    let mut text = b"Lock: ".to_vec(guard.alloc())?;
    text.extend_from_slice(lock.as_slice())?;
    guard.tell(d, &text)
}

/// The player sees the name, the owner and the lock of something, and of what it doesn't control the owner alone.
#[tactic(auto, unfolding(spec_live::specs::Lives::change_followed, spec_live::specs::Lives::reading, spec_live::specs::Lives::either, spec_commands::specs::Finding::where_so, spec_commands::specs::Finding::thing_examined))]
pub fn examine(guard: &mut Guard, d: u32, x: Dbref) -> Result<(), NoMemory>
    ensures { Did (thing_examined d guard.old.actor x) guard.old guard.new result }
{
    let actor = guard.actor();
    if !controls_as(guard.db(), actor.level, actor.user, x) {
        return show_owner(guard, d, x);
    }
    show_name(guard, d, actor.player, x)?;
    show_owner(guard, d, x)?;
    show_lock(guard, d, x)
}
