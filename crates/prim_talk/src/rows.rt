// The rows of the primitives of talk.
ghost use Rattle.std.specs.Prelude.{◌≡◌, ◌≤◌, [], ◌∷◌, negsuc, take, IfSome};
ghost use Rattle.std.specs.Int.{w32, cast_signed};
ghost use Rattle.std.specs.Option.{option_map, option_map_or};
ghost use Rattle.muf_model.specs.declared.prims.Primitive.TheVariants.{NotifyExclude};
ghost use Rattle.muf_model.specs.Datum.{int};
ghost use Rattle.muf_frame.specs.inner.Shown.{Shown, flat};
ghost use Rattle.spec_rights.specs.declared.act.Act.TheVariants.{Shared};
ghost use Rattle.spec_rights.specs.Verdict.{verdict};
ghost use Rattle.muck_perm.specs.inner.Guards.{world_of, objects_of};
ghost use Rattle.spec_prims.specs.Asking.{fault_of_denial};
ghost use Rattle.spec_prims.specs.Row.{row_unless};
ghost use Rattle.spec_prims.specs.Shared.{items_taken};
ghost use Rattle.spec_prims.specs.Talk.{notified, notified_but, connection_booted, booted_seat, connections_awake, online, connected, connected_at, place_outside, descriptors};
ghost use Rattle.prim_common.specs.inner.Applied.{Makes, items_of};
ghost use Rattle.prim_talk.specs.inner.Told.{told_in, counted_in};

use crate::items::{
    count_connected, counted, excluded, is_place, numbers_counted, player_at, players_counted,
    seat_at,
};
use muck_model::Dbref;
use muck_perm::{Guard, verdict};
use muf_frame::{Frame, PrimFault};
use muf_model::{MufFault, Text, Value};
use prim_common::Made;
use spec_rights::Act;

// The player and the text above it.
fn told(frame: &Frame) -> Option<(Dbref, &Text)>
    ensures { option_map (λ p. (p.0.0, p.1.now)) result ≡ told_in (flat frame.now).stack }
{
    let text = frame.text_at(0)?;
    let player = frame.object_at(1)?;
    Some((player, text))
}

/// NOTIFY.
#[inline(always)]
pub(crate) fn notify(guard: &mut Guard, frame: &Frame) -> Result<Made, PrimFault>
    ensures { Makes (notified guard.old.actor (take 2 (flat frame.now).stack) (world_of guard.old)) guard.old guard.new result }
{
    let Some((player, text)) = told(frame) else {
        return Err(PrimFault::Fault(MufFault::BadType));
    };
    guard.tell_player(player, text.as_slice())?;
    Ok(Made::Nothing)
}

// The text on the top, and how many are named below it.
fn told_count(frame: &Frame) -> Option<(&Text, usize)>
    ensures value { option_map (λ p. (p.0.now, p.1)) result ≡ counted_in (flat frame.now).stack }
    ensures most { IfSome result (λ p. p.1 ≤ 2147483647) }
{
    let text = frame.text_at(0)?;
    let count = frame.int_at(1)?;
    if count < 0 {
        return None;
    }
    Some((text, count as usize))
}

/// NOTIFY_EXCLUDE.
pub(crate) fn notify_but(guard: &mut Guard, frame: &Frame) -> Result<Made, PrimFault>
    ensures { Makes (notified_but guard.old.actor (take (items_taken NotifyExclude (flat frame.now).stack) (flat frame.now).stack) (world_of guard.old)) guard.old guard.new result }
{
    let Some((text, count)) = told_count(frame) else {
        return Err(PrimFault::Fault(MufFault::BadType));
    };
    let Some(place) = frame.object_at(2 + count) else {
        return Err(PrimFault::Fault(MufFault::BadType));
    };
    let but = excluded(guard, frame, count)?;
    guard.tell_but(place, &but, text.as_slice())?;
    Ok(Made::Nothing)
}

/// AWAKE?.
pub(crate) fn awake(guard: &Guard, frame: &Frame) -> Result<Made, PrimFault>
    ensures { Makes (connections_awake guard.now.actor (take 1 (flat frame.now).stack) (world_of guard.now)) guard.now guard.now result }
{
    let Some(player) = frame.object_at(0) else {
        return Err(PrimFault::Fault(MufFault::BadType));
    };
    let connections = guard.board().connections().iter();
    let count = connections.filter(|c| c.is_of(player)).count();
    Ok(Made::One(counted(count)))
}

/// ONLINE.
pub(crate) fn online(guard: &Guard) -> Result<Made, PrimFault>
    ensures { Makes (online guard.now.actor [] (world_of guard.now)) guard.now guard.now result }
{
    Ok(players_counted(guard)?)
}

/// CONCOUNT.
pub(crate) fn connected(guard: &Guard) -> Result<Made, PrimFault>
    ensures { Makes (connected guard.now.actor [] (world_of guard.now)) guard.now guard.now result }
{
    Ok(Made::One(counted(count_connected(guard))))
}

/// What CONDBREF says of its argument: nobody has that place.
pub(crate) fn outside(guard: &Guard, frame: &Frame) -> Option<MufFault>
    ensures { result ≡ place_outside guard.now.actor (take 1 (flat frame.now).stack) (world_of guard.now) }
{
    let place = frame.int_at(0)?;
    if is_place(guard, place) {
        None
    } else {
        Some(MufFault::BadArgument)
    }
}

/// CONDBREF.
pub(crate) fn connected_at(guard: &Guard, frame: &Frame) -> Result<Made, PrimFault>
    ensures { Makes (connected_at guard.now.actor (take 1 (flat frame.now).stack) (world_of guard.now)) guard.now guard.now result }
{
    let Some(place) = frame.int_at(0) else {
        return Err(PrimFault::Fault(MufFault::BadType));
    };
    match player_at(guard, place)? {
        Some(player) => Ok(Made::One(Value::Ref(player))),
        None => Err(PrimFault::Fault(MufFault::BadArgument)),
    }
}

// One connection is to leave, by leave for the highest level.
fn leave(guard: &mut Guard, d: Option<u32>) -> Result<Made, PrimFault>
    ensures { Makes (row_unless (fault_of_denial (verdict (objects_of guard.old) guard.old.actor (Shared 4))) (booted_seat d (world_of guard.old))) guard.old guard.new result }
{
    let act = Act::Shared { level: 4 };
    match (verdict(guard.db(), &guard.actor(), &act), d) {
        (Err(denial), _) => Err(PrimFault::Fault(MufFault::Denied(denial.rule))),
        (Ok(_), None) => Err(PrimFault::Fault(MufFault::BadArgument)),
        (Ok(pass), Some(d)) => {
            guard.leave(pass, d);
            Ok(Made::Nothing)
        }
    }
}

/// CONBOOT.
pub(crate) fn boot(guard: &mut Guard, frame: &Frame) -> Result<Made, PrimFault>
    ensures { Makes (connection_booted guard.old.actor (take 1 (flat frame.now).stack) (world_of guard.old)) guard.old guard.new result }
{
    let Some(place) = frame.int_at(0) else {
        return Err(PrimFault::Fault(MufFault::BadType));
    };
    let seat = seat_at(guard, place)?;
    leave(guard, seat)
}

/// DESCRIPTORS.
pub(crate) fn descriptors(guard: &Guard, frame: &Frame) -> Result<Made, PrimFault>
    ensures { Makes (descriptors guard.now.actor (take 1 (flat frame.now).stack) (world_of guard.now)) guard.now guard.now result }
{
    let Some(player) = frame.object_at(0) else {
        return Err(PrimFault::Fault(MufFault::BadType));
    };
    Ok(numbers_counted(guard, player)?)
}

/// DESCR.
pub(crate) fn own_connection(descr: Option<u32>) -> Made
    ensures { items_of result ≡ int (option_map_or (cast_signed w32) descr (negsuc 0)) ∷ [] }
{
    let number = match descr {
        Some(d) => d.cast_signed(),
        None => -1,
    };
    Made::One(Value::Int(number))
}
