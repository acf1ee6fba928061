// What stands where, and moving: the check and the act.
ghost use Rattle.std.specs.Prelude.{◌≡◌, ◌<◌, ◌≤◌, length, false, not, if◌then◌else◌, IfSome};
ghost use Rattle.spec_live.specs.Flags.{has_flag, vehicle};
ghost use Rattle.std.specs.List.{count_by};
ghost use Rattle.std.specs.Option.{option_copied};
ghost use Rattle.spec_live.specs.Objects.{may_stand, is_garbage, fits_in, number_in, object_at};
ghost use Rattle.spec_live.specs.Moving.{move_check, moved};
ghost use Rattle.spec_live.specs.Consistent.{MayMove};
ghost use Rattle.spec_live.specs.Seen.{listed_in};
ghost use Rattle.muck_db.specs.inner.Slots.{shown, kept_at, kind_at, flags_at, entries_of, HasOrder};
ghost use Rattle.muck_db.specs.inner.Shown.{is_there};

use crate::chain::Chain;
use crate::links::{first_of, index_of, is_exit_of, leads_to, link, set_place, take_out};
use crate::slot::Slot;
use crate::slots::Slots;
use muck_model::{Dbref, Kind};
use spec_live::{DbFault, Object, VEHICLE, has_flag};

// What may be in a room; in a thing, on which players may sit where it is a vehicle; and in a player.
pub fn may_stand(kind: Kind, place: Kind, seats: bool) -> bool
    ensures { result ≡ may_stand kind place seats }
{
    match kind {
        Kind::Room => matches!(place, Kind::Room),
        Kind::Thing | Kind::Program | Kind::Exit => {
            matches!(place, Kind::Room | Kind::Thing | Kind::Player)
        }
        Kind::Player => match place {
            Kind::Room => true,
            Kind::Thing => seats,
            _ => false,
        },
        Kind::Garbage => false,
    }
}

#[tactic(auto, unfolding(crate::specs::inner::Slots::kind_at, crate::specs::inner::Slots::object_at, spec_live::specs::Objects::garbage))]
pub fn kind_of(slots: &Slots, k: u32) -> Kind
    ensures value { result ≡ kind_at slots.now.items k }
    ensures within { is_garbage result ≡ false → k < length slots.now.items }
{
    match slots.get(k) {
        Some(
            Slot {
                object: Some(object),
                ..
            },
        ) => object.kind,
        _ => Kind::Garbage,
    }
}

#[tactic(auto, unfolding(crate::specs::inner::Slots::flags_at, crate::specs::inner::Slots::object_at, spec_live::specs::Objects::garbage, spec_live::specs::Flags::has_flag))]
pub fn is_vehicle(slots: &Slots, k: u32) -> bool
    ensures { result ≡ has_flag vehicle (flags_at slots.now.items k) }
{
    match slots.get(k) {
        Some(
            Slot {
                object: Some(object),
                ..
            },
        ) => has_flag(VEHICLE, object.flags),
        _ => false,
    }
}

// Whether `d` may be in `to`.
#[tactic(auto, using(crate::proofs::Bridge::kinds), unfolding(spec_live::specs::Objects::fits_in, spec_live::specs::Objects::is_vehicle_in))]
pub fn fits(slots: &Slots, d: u32, to: u32) -> bool
    ensures { result ≡ fits_in (entries_of slots.now.items) d to }
{
    may_stand(kind_of(slots, d), kind_of(slots, to), is_vehicle(slots, to))
}

// The number of an object that is there.
#[tactic(auto, using(crate::proofs::Bridge::kinds), unfolding(spec_live::specs::Objects::number_in))]
pub fn number_of(slots: &Slots, d: Dbref) -> Option<u32>
    ensures value { result ≡ number_in (entries_of slots.now.items) d }
    ensures within { IfSome result (λ k. k < length slots.now.items) }
    ensures alive { IfSome result (λ k. is_garbage (kind_at slots.now.items k) ≡ false) }
{
    let k = index_of(d)?;
    if matches!(kind_of(slots, k), Kind::Garbage) {
        return None;
    }
    Some(k)
}

// The object at a place, which is none where it is garbage.
#[tactic(auto, unfolding(crate::specs::inner::Slots::kept_at))]
pub fn object_of(slots: &Slots, k: u32) -> Option<&Object>
    requires { k < length slots.now.items }
    ensures { option_copied result ≡ kept_at slots.now.items k }
{
    slots.at(k).object.as_ref()
}

// The object of a number.
pub fn found(slots: &Slots, d: Dbref) -> Option<&Object>
    ensures { option_copied result ≡ object_at d (entries_of slots.now.items) }
{
    match number_of(slots, d) {
        Some(k) => object_of(slots, k),
        None => None,
    }
}

// Whether an object is there.
#[tactic(auto, unfolding(spec_live::specs::Objects::garbage))]
fn is_there(slot: &Slot) -> bool
    ensures { result ≡ not (is_garbage (shown slot.now).kind) }
{
    match &slot.object {
        Some(object) => !matches!(object.kind, Kind::Garbage),
        None => false,
    }
}

fn one_there(slot: &Slot) -> usize
    ensures is { result ≡ (if not (is_garbage (shown slot.now).kind) then 1 else 0) }
    ensures most { result ≤ 1 }
{
    if is_there(slot) { 1 } else { 0 }
}

fn count_slots(slots: &Slots) -> usize
    ensures { result ≡ count_by (λ s. not (is_garbage (shown s).kind)) slots.now.items }
{
    let mut n = 0;
    for slot in slots.as_slice() {
        n += one_there(slot);
    }
    n
}

// How many objects there are, without garbage.
pub fn count_there(slots: &Slots) -> usize
    ensures { result ≡ count_by is_there (entries_of slots.now.items) }
{
    count_slots(slots)
}

// The numbers of a move that is allowed, or the first refusal.
#[tactic(auto, using(crate::proofs::Bridge::kinds), unfolding(spec_live::specs::Moving::move_check, spec_live::specs::Moving::move_judged))]
pub fn check_move(slots: &Slots, d: Dbref, to: Dbref) -> Result<(u32, u32), DbFault>
    requires { HasOrder slots.now.items }
    ensures { result ≡ move_check d to (entries_of slots.now.items) }
{
    let Some(d) = number_of(slots, d) else {
        return Err(DbFault::NoSuchObject);
    };
    let Some(to) = number_of(slots, to) else {
        return Err(DbFault::NoSuchObject);
    };
    if d == 0 {
        return Err(DbFault::WrongKind);
    }
    if !fits(slots, d, to) {
        return Err(DbFault::WrongKind);
    }
    if leads_to(slots, to, d) {
        return Err(DbFault::WouldLoop);
    }
    Ok((d, to))
}

// The list of exits, or of contents.
pub fn list_of(slots: &Slots, exits: bool, d: Dbref) -> Chain<'_>
    requires { HasOrder slots.now.items }
    ensures { result ≡ listed_in exits d (entries_of slots.now.items) }
{
    let Some(k) = number_of(slots, d) else {
        return Chain::new(slots, None);
    };
    Chain::new(slots, first_of(slots, exits, k))
}

// Moves `d` to the front of a list of `to`.
pub fn relocate(slots: &mut Slots, d: u32, to: u32)
    requires order { HasOrder slots.old.items }
    requires may { MayMove (entries_of slots.old.items) d to }
    ensures moved { entries_of slots.new.items ≡ moved d to (entries_of slots.old.items) }
    ensures order { HasOrder slots.new.items }
{
    let exits = is_exit_of(slots, d);
    take_out(slots, d);
    set_place(slots, d, to);
    link(slots, exits, to, d);
}
