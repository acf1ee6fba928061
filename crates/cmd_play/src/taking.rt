// Taking and dropping.
ghost use Rattle.std.specs.Prelude.{◌≡◌, true};
ghost use Rattle.muck_model.specs.declared.dbref.Denial.{Denial};
ghost use Rattle.spec_live.specs.Lives.{◌▸◌, tell};
ghost use Rattle.spec_rights.specs.declared.act.Act.TheVariants.{Take as TakeIt};
ghost use Rattle.spec_rights.specs.Asking.{asked, refused};
ghost use Rattle.spec_commands.specs.Replies.{taken_reply, dropped_reply};
ghost use Rattle.spec_commands.specs.Going.{thing_moving, succeeded, drop_shown, is_item, not_taken, thing_taken, is_carried, drop_place, dropped};
ghost use Rattle.muck_perm.specs.inner.Guards.{Did, IsGiven, is_here, world_of};

use crate::going::{fail, link_at};
use crate::looking::is_room;
use crate::messages::show_both;
use cmd_common::{cant_be_done, place_at, refuse};
use muck_match::NOTHING;
use muck_model::{Dbref, Denial, Kind, NoMemory};
use muck_perm::{Guard, Pass, verdict};
use spec_commands::Typed;
use spec_live::Message;
use spec_rights::Act;

// Whether an object is a thing or a program.
#[tactic(auto, unfolding(spec_commands::specs::Finding::is_object_so))]
fn is_item(guard: &Guard, x: Dbref) -> bool
    ensures { result ≡ is_item x (world_of guard.now) }
{
    match guard.db().get(x) {
        Some(object) => matches!(object.kind(), Kind::Thing | Kind::Program),
        None => false,
    }
}

// Whether it is one that the player carries.
#[tactic(auto, unfolding(spec_commands::specs::Finding::is_object_so))]
fn is_carried(guard: &Guard, player: Dbref, x: Dbref) -> bool
    ensures { result ≡ is_carried player x (world_of guard.now) }
{
    match guard.db().get(x) {
        Some(object) => {
            matches!(object.kind(), Kind::Thing | Kind::Program) && object.place() == player
        }
        None => false,
    }
}

// A rule denies the taking: a lock that doesn't open is told by the object's own messages.
#[tactic(auto, unfolding(spec_live::specs::Lives::either, spec_commands::specs::Replies::cant_take))]
fn not_taken(
    guard: &mut Guard,
    d: u32,
    typed: &Typed,
    x: Dbref,
    denial: Denial,
) -> Result<(), NoMemory>
    ensures { Did (not_taken d guard.old.actor typed.now x denial) guard.old guard.new result }
{
    if denial.rule == 10 {
        fail(guard, d, typed, b"You can't pick that up.", x)
    } else {
        refuse(guard, d, denial)
    }
}

// The player has leave to take it; the world may refuse it.
#[tactic(auto, using(crate::proofs::Moves::movings), unfolding(spec_commands::specs::Going::thing_moving, spec_commands::specs::Finding::where_so, spec_live::specs::Lives::reading, spec_live::specs::Lives::either, spec_live::specs::Lives::change_followed, spec_commands::specs::Replies::taken_reply))]
fn pick_up(guard: &mut Guard, d: u32, pass: Pass, x: Dbref) -> Result<(), NoMemory>
    requires given { IsGiven pass (TakeIt x) guard.old }
    requires here { is_here x guard.old ≡ true }
    ensures { Did (thing_moving d x guard.old.actor.player (tell d taken_reply)) guard.old guard.new result }
{
    match guard.take(pass, x) {
        Ok(()) => guard.tell(d, b"Taken."),
        Err(_) => cant_be_done(guard, d),
    }
}

// The player takes what is a thing or a program.
#[tactic(auto, unfolding(spec_rights::specs::Asking::asked, spec_live::specs::Lives::change_followed))]
fn take_item(guard: &mut Guard, d: u32, typed: &Typed, x: Dbref) -> Result<(), NoMemory>
    ensures { Did (asked guard.old.actor (TakeIt x) (not_taken d guard.old.actor typed.now x) (succeeded d guard.old.actor typed.now x ▸ thing_moving d x guard.old.actor.player (tell d taken_reply))) guard.old guard.new result }
{
    let actor = guard.actor();
    let act = Act::Take { object: x };
    match verdict(guard.db(), &actor, &act) {
        Err(denial) => not_taken(guard, d, typed, x, denial),
        Ok(pass) => {
            show_both(guard, d, typed, Message::Success, Message::OthersSuccess, x)?;
            pick_up(guard, d, pass, x)
        }
    }
}

/// The player takes a thing or a program where it is, whose lock opens to it.
#[tactic(auto, unfolding(spec_commands::specs::Going::thing_taken, spec_commands::specs::Finding::where_so, spec_live::specs::Lives::reading, spec_live::specs::Lives::either))]
pub fn take(guard: &mut Guard, d: u32, typed: &Typed, x: Dbref) -> Result<(), NoMemory>
    ensures { Did (thing_taken d guard.old.actor typed.now x) guard.old guard.new result }
{
    if is_item(guard, x) {
        take_item(guard, d, typed, x)
    } else {
        cant_be_done(guard, d)
    }
}

// Where something goes that is dropped: to the place, or where the room sends it.
#[tactic(auto, unfolding(spec_commands::specs::Finding::is_object_so))]
fn drop_place(guard: &Guard, player: Dbref) -> Dbref
    ensures { result ≡ drop_place player (world_of guard.now) }
{
    let here = place_at(guard, player);
    let link = link_at(guard, here);
    if is_room(guard, here) && link != NOTHING {
        link
    } else {
        here
    }
}

// The connection is told, and the messages of dropping are seen.
#[tactic(auto, unfolding(spec_live::specs::Lives::change_followed, spec_commands::specs::Replies::dropped_reply))]
fn show_dropped(guard: &mut Guard, d: u32, typed: &Typed, x: Dbref) -> Result<(), NoMemory>
    ensures { Did (tell d dropped_reply ▸ drop_shown d guard.old.actor typed.now x) guard.old guard.new result }
{
    guard.tell(d, b"Dropped.")?;
    show_both(guard, d, typed, Message::Drop, Message::OthersDrop, x)
}

// The player drops what it carries; the world may refuse it.
#[tactic(auto, using(crate::proofs::Moves::movings), unfolding(spec_commands::specs::Going::thing_moving, spec_commands::specs::Finding::where_so, spec_live::specs::Lives::reading, spec_live::specs::Lives::either, spec_live::specs::Lives::change_followed))]
fn drop_carried(
    guard: &mut Guard,
    d: u32,
    typed: &Typed,
    x: Dbref,
    to: Dbref,
) -> Result<(), NoMemory>
    requires { is_carried guard.old.actor.player x (world_of guard.old) ≡ true }
    ensures { Did (thing_moving d x to (tell d dropped_reply ▸ drop_shown d guard.old.actor typed.now x)) guard.old guard.new result }
{
    match guard.put(x, to) {
        Ok(()) => show_dropped(guard, d, typed, x),
        Err(_) => cant_be_done(guard, d),
    }
}

/// The player drops what it carries.
#[tactic(auto, unfolding(spec_commands::specs::Going::dropped, spec_commands::specs::Finding::where_so, spec_live::specs::Lives::reading, spec_live::specs::Lives::either))]
pub fn drop(guard: &mut Guard, d: u32, typed: &Typed, x: Dbref) -> Result<(), NoMemory>
    ensures { Did (dropped d guard.old.actor typed.now x) guard.old guard.new result }
{
    let player = guard.actor().player;
    if !is_carried(guard, player, x) {
        return cant_be_done(guard, d);
    }
    let to = drop_place(guard, player);
    drop_carried(guard, d, typed, x, to)
}
