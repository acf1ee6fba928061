// The chain fields alone: reads, writes, taking out and putting in front.
ghost use Rattle.std.specs.Prelude.{◌≡◌, ◌≢◌, ◌<◌, ◌^◌, ℕ, Bool, length, Some};
ghost use Rattle.spec_live.specs.Chain.{walk, has, Ends, Member};
ghost use Rattle.spec_live.specs.Objects.{dbref_of, index_of, changed_at};
ghost use Rattle.spec_live.specs.Moving.{with_place};
ghost use Rattle.muck_db.specs.inner.Slots.{next_at, first_at, place_at, is_exit_at, list_at, path_at, with_next, with_first, on_slot, HasChains, IsUnlinked, IsLinked};

use crate::slots::Slots;
use muck_model::{Dbref, Kind};
use spec_live::Saving;

pub fn dbref_of(k: u32) -> Dbref
    requires { k < 2 ^ 31 }
    ensures { result ≡ dbref_of k }
{
    Dbref(k as i32)
}

// The number from 0 on.
pub fn index_of(d: Dbref) -> Option<u32>
    ensures { result ≡ index_of d }
{
    if d.0 < 0 {
        return None;
    }
    Some(d.0 as u32)
}

#[tactic(auto, unfolding(crate::specs::inner::Slots::next_at))]
pub fn next_of(slots: &Slots, k: u32) -> Option<u32>
    requires { k < length slots.now.items }
    ensures { result ≡ next_at slots.now.items k }
{
    slots.at(k).next
}

#[tactic(auto, unfolding(crate::specs::inner::Slots::first_at))]
pub fn first_of(slots: &Slots, exits: bool, k: u32) -> Option<u32>
    requires { k < length slots.now.items }
    ensures { result ≡ first_at exits slots.now.items k }
{
    let slot = slots.at(k);
    if exits {
        slot.first_exit
    } else {
        slot.first_content
    }
}

#[tactic(auto, unfolding(crate::specs::inner::Slots::place_at, crate::specs::inner::Slots::object_at, spec_live::specs::Objects::garbage))]
pub fn place_of(slots: &Slots, k: u32) -> Option<u32>
    requires { k < length slots.now.items }
    ensures { result ≡ place_at slots.now.items k }
{
    match &slots.at(k).object {
        Some(object) => index_of(object.place),
        None => None,
    }
}

#[tactic(auto, unfolding(crate::specs::inner::Slots::is_exit_at, crate::specs::inner::Slots::object_at, spec_live::specs::Objects::garbage))]
pub fn is_exit_of(slots: &Slots, k: u32) -> bool
    requires { k < length slots.now.items }
    ensures { result ≡ is_exit_at slots.now.items k }
{
    match &slots.at(k).object {
        Some(object) => matches!(object.kind, Kind::Exit),
        None => false,
    }
}

#[tactic(auto, unfolding(spec_live::specs::Objects::changed_at))]
pub fn set_next(slots: &mut Slots, k: u32, to: Option<u32>)
    requires { k < length slots.old.items }
    ensures items { slots.new.items ≡ changed_at k (with_next to) slots.old.items }
    ensures len { length slots.new.items ≡ length slots.old.items }
{
    let slot = slots.at_mut(k);
    slot.next = to;
    slot.saving = Saving::Due;
}

#[tactic(auto, unfolding(spec_live::specs::Objects::changed_at))]
pub fn set_first(slots: &mut Slots, exits: bool, k: u32, to: Option<u32>)
    requires { k < length slots.old.items }
    ensures items { slots.new.items ≡ changed_at k (with_first exits to) slots.old.items }
    ensures len { length slots.new.items ≡ length slots.old.items }
{
    let slot = slots.at_mut(k);
    if exits {
        slot.first_exit = to;
    } else {
        slot.first_content = to;
    }
    slot.saving = Saving::Due;
}

#[tactic(auto, unfolding(spec_live::specs::Objects::changed_at))]
pub fn set_place(slots: &mut Slots, k: u32, to: u32)
    requires known { k < length slots.old.items }
    requires place { to < 2 ^ 31 }
    ensures items { slots.new.items ≡ changed_at k (on_slot (with_place to)) slots.old.items }
    ensures len { length slots.new.items ≡ length slots.old.items }
{
    let place = dbref_of(to);
    let slot = slots.at_mut(k);
    if let Some(object) = &mut slot.object {
        object.place = place;
    }
    slot.saving = Saving::Due;
}

// Whether the places of `start` lead up to `d`, or it is `d`.
pub fn leads_to(slots: &Slots, start: u32, d: u32) -> bool
    requires { Ends (length slots.now.items) (place_at slots.now.items) (Some start) }
    ensures { result ≡ has d (path_at slots.now.items start) }
{
    let mut at = Some(start);
    while let Some(i) = at {
        if i == d {
            return true;
        }
        at = place_of(slots, i);
    }
    false
}

// The one before `d` in a chain that `d` isn't the first of.
pub fn before(slots: &Slots, first: Option<u32>, d: u32) -> u32
    requires ends { Ends (length slots.now.items) (next_at slots.now.items) first }
    requires inside { Member d (walk (length slots.now.items) (next_at slots.now.items) first) }
    requires later { first ≢ Some d }
    ensures leads { next_at slots.now.items result ≡ Some d }
    ensures inside { Member result (walk (length slots.now.items) (next_at slots.now.items) first) }
{
    let mut at = first;
    while let Some(i) = at {
        let next = next_of(slots, i);
        if next == Some(d) {
            return i;
        }
        at = next;
    }
    unreachable!()
}

// Takes `d` out of the list that it is in, if any.
pub fn take_out(slots: &mut Slots, d: u32)
    requires chains { HasChains slots.old.items }
    requires known { d < length slots.old.items }
    ensures { IsUnlinked d slots.old.items slots.new.items }
{
    let exits = is_exit_of(slots, d);
    if let Some(p) = place_of(slots, d) {
        unlink(slots, exits, p, d);
    }
}

// Takes `d` out of the list of `p` that it is in.
pub fn unlink(slots: &mut Slots, exits: bool, p: u32, d: u32)
    requires chains { HasChains slots.old.items }
    requires here { Member d (list_at exits slots.old.items p) }
    requires place { p < length slots.old.items }
    ensures { IsUnlinked d slots.old.items slots.new.items }
{
    let after = next_of(slots, d);
    let first = first_of(slots, exits, p);
    if first == Some(d) {
        set_first(slots, exits, p, after);
    } else {
        let i = before(slots, first, d);
        set_next(slots, i, after);
    }
}

// Puts `d`, which is in no list, in front of a list of `to`.
pub fn link(slots: &mut Slots, exits: bool, to: u32, d: u32)
    requires ends { (which : Bool) (p : ℕ) → Ends (length slots.old.items) (next_at slots.old.items) (first_at which slots.old.items p) }
    requires nowhere { (which : Bool) (p : ℕ) → Member d (list_at which slots.old.items p) → ⊥ }
    requires known { d < length slots.old.items }
    requires place { to < length slots.old.items }
    ensures { IsLinked exits to d slots.old.items slots.new.items }
{
    let first = first_of(slots, exits, to);
    set_next(slots, d, first);
    set_first(slots, exits, to, Some(d));
}
