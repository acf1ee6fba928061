// A new object: at the lowest number of garbage, or at the next number.
ghost use Rattle.std.specs.Prelude.{◌≡◌, ◌<◌, ◌≤◌, ◌^◌, ℕ, [], length, false, true, OnOk, OnErr, IfOk, Err, if◌then◌else◌};
ghost use Rattle.spec_live.specs.Objects.{dbref_of, is_garbage, is_player, nothing};
ghost use Rattle.spec_live.specs.Making.{free_in, may_make, owner_judged, create_check, has_home, new_object};
ghost use Rattle.muck_match.specs.inner.Listed.{IsAmong};
ghost use Rattle.muck_db.specs.inner.Slots.{kind_at, entries_of, object_put};
ghost use Rattle.muck_db.specs.inner.Ties.{IsNoted};

use crate::blocks::Flag;
use crate::links::dbref_of;
use crate::moves::{is_vehicle, kind_of, may_stand, number_of};
use crate::players::list_player;
use crate::slot::Slot;
use crate::slots::Slots;
use crate::ties::Ties;
use muck_model::{Dbref, Flags, Kind, Line, LineList, NoMemory};
use muck_prop::Props;
use spec_live::{DbFault, Object, Saving};
use std::alloc::Global;

const OBJECTS_MOST: u32 = 100_000;

fn is_free(slots: &Slots, k: u32) -> bool
    ensures { result ≡ is_garbage (kind_at slots.now.items k) }
{
    matches!(kind_of(slots, k), Kind::Garbage)
}

// The lowest number of garbage, else the next number, where no garbage stands below `lowest`. The blocks in which none may be are passed over.
fn free_number(slots: &Slots, lowest: u32) -> u32
    requires few { length slots.now.items ≤ 100000 }
    requires full { (k : ℕ) → k < lowest → is_garbage (kind_at slots.now.items k) ≡ false }
    ensures { result ≡ free_in (entries_of slots.now.items) }
{
    let n = slots.len() as u32;
    let mut k = slots.next_flagged(Flag::Garbage, lowest);
    while k < n {
        if is_free(slots, k) {
            return k;
        }
        k = slots.next_flagged(Flag::Garbage, k + 1);
    }
    n
}

// Whether the owner is a player; none where it isn't there. The owner of a player isn't looked at.
#[tactic(auto, using(crate::proofs::Bridge::kinds), unfolding(spec_live::specs::Making::owner_judged))]
fn is_owned(slots: &Slots, kind: Kind, owner: Dbref) -> Option<bool>
    ensures { result ≡ owner_judged kind owner (entries_of slots.now.items) }
{
    if matches!(kind, Kind::Player) {
        return Some(true);
    }
    let k = number_of(slots, owner)?;
    Some(matches!(kind_of(slots, k), Kind::Player))
}

// Whether the kind may be there, and its owner is a player.
#[tactic(auto, using(crate::proofs::Bridge::kinds), unfolding(spec_live::specs::Making::may_make, spec_live::specs::Objects::is_vehicle_in))]
fn may_make(slots: &Slots, kind: Kind, owned: bool, to: u32) -> bool
    ensures { result ≡ may_make kind owned to (entries_of slots.now.items) }
{
    may_stand(kind, kind_of(slots, to), is_vehicle(slots, to)) && owned
}

// The number and the place of a creation that is allowed, or the first refusal.
#[tactic(auto, unfolding(spec_live::specs::Making::create_check, spec_live::specs::Making::make_judged, spec_live::specs::Making::objects_most))]
pub fn check_create(
    slots: &Slots,
    lowest: u32,
    kind: Kind,
    owner: Dbref,
    place: Dbref,
) -> Result<(u32, u32), DbFault>
    requires few { length slots.now.items ≤ 100000 }
    requires full { (k : ℕ) → k < lowest → is_garbage (kind_at slots.now.items k) ≡ false }
    ensures { result ≡ create_check kind owner place (entries_of slots.now.items) }
{
    let Some(owned) = is_owned(slots, kind, owner) else {
        return Err(DbFault::NoSuchObject);
    };
    let Some(to) = number_of(slots, place) else {
        return Err(DbFault::NoSuchObject);
    };
    if !may_make(slots, kind, owned, to) {
        return Err(DbFault::WrongKind);
    }
    let n = free_number(slots, lowest);
    if n < OBJECTS_MOST {
        Ok((n, to))
    } else {
        Err(DbFault::WorldFull)
    }
}

fn first_owner(n: u32, kind: Kind, owner: Dbref) -> Dbref
    requires { n < 2 ^ 31 }
    ensures { result ≡ (if is_player kind then dbref_of n else owner) }
{
    match kind {
        Kind::Player => dbref_of(n),
        _ => owner,
    }
}

fn first_home(kind: Kind) -> Dbref
    ensures { result ≡ (if has_home kind then dbref_of 0 else nothing) }
{
    match kind {
        Kind::Thing | Kind::Player => Dbref(0),
        _ => Dbref(-1),
    }
}

// The object that is made at a number.
#[tactic(auto, unfolding(spec_live::specs::Making::new_object))]
pub fn new_object(
    alloc: Global,
    n: u32,
    kind: Kind,
    name: Line,
    owner: Dbref,
) -> Result<Object, DbFault>
    requires { n < 2 ^ 31 }
    ensures object { IfOk result (λ o. o ≡ new_object n kind name owner) }
    ensures memory { OnErr result (result ≡ Err DbFault.NoMemory) }
{
    let Ok(props) = Props::new(alloc) else {
        return Err(DbFault::NoMemory);
    };
    let Ok(lines) = LineList::new(alloc) else {
        return Err(DbFault::NoMemory);
    };
    Ok(Object {
        kind,
        name,
        owner: first_owner(n, kind, owner),
        place: Dbref(-1),
        link: Dbref(-1),
        home: first_home(kind),
        flags: Flags(0),
        level: 0,
        props,
        lines,
        digest: Line::of_text_vec(Vec::new(alloc)),
    })
}

// Makes room for a number of that kind: among the players, where it is one, and for what will be tied to it.
pub fn make_room(
    alloc: Global,
    players: &mut Vec<u32>,
    ties: &mut Ties,
    kind: Kind,
    n: u32,
) -> Result<(), NoMemory>
    requires { n ≤ length ties.old.of.items }
    ensures more { (k : ℕ) → IsAmong players.old.items k → IsAmong players.new.items k }
    ensures listed { OnOk result (is_player kind ≡ true → IsAmong players.new.items n) }
    ensures others { (d j : ℕ) → d < length ties.old.of.items → IsNoted ties.old.of.items d j → IsNoted ties.new.of.items d j }
    ensures long { length ties.old.of.items ≤ length ties.new.of.items }
    ensures known { OnOk result (n < length ties.new.of.items) }
{
    ties.make_room(alloc, n)?;
    list_player(players, kind, n)
}

// Puts an object at a number of garbage, or at the next one.
#[tactic(auto, unfolding(crate::specs::inner::Slots::object_put, spec_live::specs::Objects::changed_at))]
pub fn put_object(slots: &mut Slots, n: u32, object: Object) -> Result<(), DbFault>
    requires { n ≤ length slots.old.items }
    ensures put { OnOk result (slots.new.items ≡ object_put n object slots.old.items) }
    ensures memory { OnErr result (result ≡ Err DbFault.NoMemory) }
    ensures err { OnErr result (slots.new.items ≡ slots.old.items) }
{
    if n as usize == slots.len() {
        let slot = Slot {
            object: Some(object),
            first_content: None,
            first_exit: None,
            next: None,
            mark: None,
            saving: Saving::Due,
            stood: None,
        };
        return match slots.push(slot) {
            Ok(()) => Ok(()),
            Err(_) => Err(DbFault::NoMemory),
        };
    }
    let slot = slots.at_mut(n);
    slot.object = Some(object);
    slot.saving = Saving::Due;
    Ok(())
}
