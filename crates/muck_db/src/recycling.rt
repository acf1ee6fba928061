// Recycling an object: nothing is tied to it any more, what it holds goes home, and it and its exits become garbage.
ghost use Rattle.std.specs.Prelude.{◌≡◌, ◌≢◌, ◌<◌, ◌≤◌, ◌^◌, ℕ, Bool, [], map, length, slice_get, false, true, IfOk, if◌then◌else◌, None};
ghost use Rattle.spec_live.specs.declared.mark.Mark.TheVariants.{Gone};
ghost use Rattle.spec_live.specs.Chain.{Ends};
ghost use Rattle.spec_live.specs.Objects.{dbref_of, is_garbage, nothing, same, kind_in, list_in, changed_at};
ghost use Rattle.spec_live.specs.Recycling.{is_tied_to_number, untied, wished_home, may_go, way_home, sent_home, is_exit_of, taken_away, recycle_check};
ghost use Rattle.std.specs.BTreeSet.{contains};
ghost use Rattle.std.specs.Ordering.{nat_cmp};
ghost use Rattle.muck_db.specs.inner.Exits.{ListsExits};
ghost use Rattle.muck_db.specs.inner.Ties.{is_tied_at, Notes, HasTies};
ghost use Rattle.muck_db.specs.inner.Slots.{home_at, owner_at, kind_at, mark_at, shown, next_at, first_at, entries_of, untied_slot, gone_slot, exit_wiped, wiped, HasOrder};

use crate::links::{dbref_of, first_of, index_of, leads_to, next_of, take_out};
use crate::moves::{fits, kind_of, number_of, relocate};
use crate::slot::Slot;
use crate::slots::Slots;
use crate::ties::{Tied, Ties, tether_of};
use muck_model::{Dbref, Kind};
use spec_live::{DbFault, Mark, Saving};
use std::collections::BTreeSet;

// The number of an object that may be recycled.
#[tactic(auto, using(crate::proofs::Bridge::kinds), unfolding(spec_live::specs::Recycling::recycle_check, spec_live::specs::Setting::checked))]
pub fn check_recycle(slots: &Slots, d: Dbref) -> Result<u32, DbFault>
    ensures is { result ≡ recycle_check d (entries_of slots.now.items) }
    ensures within { IfOk result (λ k. k < length slots.now.items) }
{
    let Some(k) = number_of(slots, d) else {
        return Err(DbFault::NoSuchObject);
    };
    if k == 0 || matches!(kind_of(slots, k), Kind::Player) {
        return Err(DbFault::WrongKind);
    }
    Ok(k)
}

fn home_without(home: Dbref, gone: Dbref) -> Dbref
    ensures { result ≡ (if same home gone then dbref_of 0 else home) }
{
    if home == gone { Dbref(0) } else { home }
}

fn link_without(link: Dbref, gone: Dbref) -> Dbref
    ensures { result ≡ (if same link gone then nothing else link) }
{
    if link == gone { Dbref(-1) } else { link }
}

// Whether an object has its home in `d` or a link to it.
#[tactic(auto, unfolding(spec_live::specs::Objects::garbage))]
fn is_tied(slot: &Slot, d: u32) -> bool
    requires { d < 2 ^ 31 }
    ensures { result ≡ is_tied_to_number d (shown slot.now) }
{
    let gone = dbref_of(d);
    match &slot.object {
        Some(object) => object.home == gone || object.link == gone,
        None => false,
    }
}

// A home in `d` becomes `#0`, and a link to it nothing.
#[tactic(auto, unfolding(crate::specs::inner::Slots::untied_slot))]
fn untie_slot(slot: &mut Slot, d: u32)
    requires { d < 2 ^ 31 }
    ensures { slot.new ≡ untied_slot d slot.old }
{
    let gone = dbref_of(d);
    if is_tied(slot, d) {
        slot.saving = Saving::Due;
    }
    if let Some(object) = &mut slot.object {
        object.home = home_without(object.home, gone);
        object.link = link_without(object.link, gone);
    }
}

#[tactic(auto, unfolding(spec_live::specs::Objects::changed_at))]
fn untie_at(slots: &mut Slots, k: u32, d: u32)
    requires known { k < length slots.old.items }
    requires number { d < 2 ^ 31 }
    ensures items { slots.new.items ≡ changed_at k (untied_slot d) slots.old.items }
    ensures len { length slots.new.items ≡ length slots.old.items }
{
    untie_slot(slots.at_mut(k), d);
}

// Unties a number, where it is in the table.
#[tactic(auto, unfolding(spec_live::specs::Objects::changed_at))]
fn untie_known(slots: &mut Slots, k: u32, d: u32)
    requires { d < 2 ^ 31 }
    ensures items { slots.new.items ≡ changed_at k (untied_slot d) slots.old.items }
    ensures len { length slots.new.items ≡ length slots.old.items }
{
    if (k as usize) < slots.len() {
        untie_at(slots, k, d);
    }
}

// Unties those numbers, among which are all that are tied to `d`.
fn untie_these(slots: &mut Slots, numbers: &mut BTreeSet<u32>, d: u32)
    requires number { d < 2 ^ 31 }
    requires lower { d ≢ 0 }
    requires noted { (k : ℕ) → is_tied_at d slots.old.items k ≡ true → contains nat_cmp numbers.old k ≡ true }
    ensures { slots.new.items ≡ map (untied_slot d) slots.old.items }
{
    while let Some(k) = numbers.pop_first() {
        untie_known(slots, k, d);
    }
}

// Unties all numbers, since it isn't known which are tied to `d`.
fn untie_all(slots: &mut Slots, d: u32)
    requires few { length slots.old.items ≤ 100000 }
    requires number { d < 2 ^ 31 }
    ensures { slots.new.items ≡ map (untied_slot d) slots.old.items }
{
    let n = slots.len() as u32;
    for k in 0..n {
        untie_at(slots, k, d);
    }
}

// Unties what is noted at `d`, where nothing is noted then.
fn untie_noted(slots: &mut Slots, tied: &mut Tied, d: u32)
    requires few { length slots.old.items ≤ 100000 }
    requires number { d < 2 ^ 31 }
    requires lower { d ≢ 0 }
    requires noted { (k : ℕ) → is_tied_at d slots.old.items k ≡ true → Notes tied.old k }
    ensures { slots.new.items ≡ map (untied_slot d) slots.old.items }
{
    if tied.is_whole {
        untie_these(slots, &mut tied.numbers, d);
    } else {
        untie_all(slots, d);
        tied.numbers.clear();
        tied.is_whole = true;
    }
}

// No object has its home in `d` or a link to it any more.
fn untie(slots: &mut Slots, ties: &mut Ties, d: u32)
    requires few { length slots.old.items ≤ 100000 }
    requires known { d < length slots.old.items }
    requires lower { d ≢ 0 }
    requires tied { HasTies slots.old.items ties.old.of.items }
    ensures items { slots.new.items ≡ map (untied_slot d) slots.old.items }
    ensures tied { HasTies slots.new.items ties.new.of.items }
{
    untie_noted(slots, &mut ties.of[d as usize], d);
}

#[tactic(auto, unfolding(crate::specs::inner::Slots::home_at, crate::specs::inner::Slots::object_at, spec_live::specs::Objects::garbage))]
fn home_of(slots: &Slots, k: u32) -> Option<u32>
    ensures { result ≡ home_at slots.now.items k }
{
    match slots.get(k) {
        Some(
            Slot {
                object: Some(object),
                ..
            },
        ) => index_of(object.home),
        _ => None,
    }
}

#[tactic(auto, unfolding(crate::specs::inner::Slots::owner_at, crate::specs::inner::Slots::object_at, spec_live::specs::Objects::garbage))]
fn owner_of(slots: &Slots, k: u32) -> Option<u32>
    ensures { result ≡ owner_at slots.now.items k }
{
    match slots.get(k) {
        Some(
            Slot {
                object: Some(object),
                ..
            },
        ) => index_of(object.owner),
        // garbage belongs to `#1`
        Some(_) => Some(1),
        None => None,
    }
}

// Where `x` goes when it is sent home, if it may.
#[tactic(auto, using(crate::proofs::Bridge::homes), unfolding(spec_live::specs::Recycling::wished_home))]
fn wished_home(slots: &Slots, x: u32) -> Option<u32>
    ensures { result ≡ wished_home x (entries_of slots.now.items) (kind_in (entries_of slots.now.items) x) }
{
    match kind_of(slots, x) {
        Kind::Program => {
            let owner = owner_of(slots, x)?;
            home_of(slots, owner)
        }
        Kind::Thing | Kind::Player => home_of(slots, x),
        _ => None,
    }
}

// Whether `x` may go there, which isn't inside it.
#[tactic(auto, using(crate::proofs::Bridge::kinds), unfolding(spec_live::specs::Recycling::may_go))]
fn may_go(slots: &Slots, x: u32, to: u32) -> bool
    requires { HasOrder slots.now.items }
    ensures { result ≡ may_go x to (entries_of slots.now.items) }
{
    if !fits(slots, x, to) {
        return false;
    }
    !leads_to(slots, to, x)
}

// Where `x` goes when it is sent home.
#[tactic(auto, unfolding(spec_live::specs::Recycling::way_home))]
fn way_home(slots: &Slots, x: u32) -> u32
    requires { HasOrder slots.now.items }
    ensures { result ≡ way_home x (entries_of slots.now.items) }
{
    match wished_home(slots, x) {
        Some(to) => { if may_go(slots, x, to) { to } else { 0 } }
        None => 0,
    }
}

// Unties all objects from `d`, and sends its contents home, from the front on.
pub fn clear_out(slots: &mut Slots, ties: &mut Ties, d: u32)
    requires order { HasOrder slots.old.items }
    requires known { d < length slots.old.items }
    requires lower { d ≢ 0 }
    requires tied { HasTies slots.old.items ties.old.of.items }
    ensures sent { entries_of slots.new.items ≡ sent_home (list_in false (entries_of slots.old.items) d) (untied d (entries_of slots.old.items)) }
    ensures order { HasOrder slots.new.items }
    ensures empty { list_in false (entries_of slots.new.items) d ≡ [] }
    ensures tied { HasTies slots.new.items ties.new.of.items }
{
    untie(slots, ties, d);
    while let Some(x) = first_of(slots, false, d) {
        let home = way_home(slots, x);
        relocate(slots, x, home);
    }
}

// What is left of an object that stood there, of which is to be told.
fn gone_slot(stood: Option<Dbref>) -> Slot
    ensures { result ≡ gone_slot stood }
{
    Slot {
        object: None,
        first_content: None,
        first_exit: None,
        next: None,
        mark: Some(Mark::Gone),
        saving: Saving::Due,
        stood,
    }
}

#[tactic(auto, unfolding(spec_live::specs::Objects::garbage))]
fn is_exit_of(slot: &Slot, d: u32) -> bool
    requires { d < 2 ^ 31 }
    ensures { result ≡ is_exit_of d (shown slot.now) }
{
    let place = dbref_of(d);
    match &slot.object {
        Some(object) => matches!(object.kind, Kind::Exit) && object.place == place,
        None => false,
    }
}

// An exit of `d` becomes garbage.
#[tactic(auto, unfolding(crate::specs::inner::Slots::exit_wiped))]
fn wipe_slot(slot: &mut Slot, d: u32)
    requires { d < 2 ^ 31 }
    ensures { slot.new ≡ exit_wiped d slot.old }
{
    if is_exit_of(slot, d) {
        *slot = gone_slot(slot.stood);
    }
}

#[tactic(auto, unfolding(spec_live::specs::Objects::changed_at))]
fn wipe_exit_at(slots: &mut Slots, k: u32, d: u32)
    requires known { k < length slots.old.items }
    requires number { d < 2 ^ 31 }
    ensures items { slots.new.items ≡ changed_at k (exit_wiped d) slots.old.items }
    ensures len { length slots.new.items ≡ length slots.old.items }
{
    wipe_slot(slots.at_mut(k), d);
}

// An exit of `d` becomes garbage, and isn't noted any more where it led.
fn wipe_exit(slots: &mut Slots, ties: &mut Ties, k: u32, d: u32)
    requires known { k < length slots.old.items }
    requires number { d < 2 ^ 31 }
    requires tied { HasTies slots.old.items ties.old.of.items }
    ensures items { slots.new.items ≡ changed_at k (exit_wiped d) slots.old.items }
    ensures tied { HasTies slots.new.items ties.new.of.items }
{
    let before = tether_of(slots, k);
    wipe_exit_at(slots, k, d);
    ties.retie(k, before, tether_of(slots, k));
}

// The exits of `d`, which its list has, become garbage. What was wiped doesn't know any more what stood behind it. It answers the least of them, or `d`
// where that is less.
fn wipe_exits(slots: &mut Slots, ties: &mut Ties, d: u32) -> u32
    requires known { d < length slots.old.items }
    requires number { d < 2 ^ 31 }
    requires exits { ListsExits d slots.old.items }
    requires tied { HasTies slots.old.items ties.old.of.items }
    ensures items { slots.new.items ≡ map (exit_wiped d) slots.old.items }
    ensures most { result ≤ d }
    ensures below { (k : ℕ) → k < result → slice_get slots.new.items k ≡ slice_get slots.old.items k }
    ensures tied { HasTies slots.new.items ties.new.of.items }
{
    let mut least = d;
    let mut at = first_of(slots, true, d);
    while let Some(k) = at {
        at = next_of(slots, k);
        wipe_exit(slots, ties, k, d);
        least = least.min(k);
    }
    least
}

#[tactic(auto, unfolding(spec_live::specs::Objects::changed_at))]
fn wipe_at(slots: &mut Slots, d: u32)
    requires { d < length slots.old.items }
    ensures { slots.new.items ≡ changed_at d wiped slots.old.items }
{
    let slot = slots.at_mut(d);
    *slot = gone_slot(slot.stood);
}

// An object becomes garbage, and isn't noted any more where it lived or led.
fn wipe(slots: &mut Slots, ties: &mut Ties, d: u32)
    requires known { d < length slots.old.items }
    requires tied { HasTies slots.old.items ties.old.of.items }
    ensures items { slots.new.items ≡ changed_at d wiped slots.old.items }
    ensures tied { HasTies slots.new.items ties.new.of.items }
{
    let before = tether_of(slots, d);
    wipe_at(slots, d);
    ties.retie(d, before, tether_of(slots, d));
}

// Takes `d`, in which nothing is but its exits, out of its list; it and its exits become garbage. It answers the least number that became garbage.
pub fn vanish(slots: &mut Slots, ties: &mut Ties, d: u32) -> u32
    requires order { HasOrder slots.old.items }
    requires empty { list_in false (entries_of slots.old.items) d ≡ [] }
    requires known { d < length slots.old.items }
    requires tied { HasTies slots.old.items ties.old.of.items }
    ensures entries { entries_of slots.new.items ≡ taken_away d (entries_of slots.old.items) }
    ensures ends { (v : Bool) (p : ℕ) → Ends (length slots.new.items) (next_at slots.new.items) (first_at v slots.new.items p) }
    ensures full { (k : ℕ) → k < result → is_garbage (kind_at slots.old.items k) ≡ false → is_garbage (kind_at slots.new.items k) ≡ false }
    ensures unmarked { (k : ℕ) → k < result → mark_at slots.old.items k ≡ None → mark_at slots.new.items k ≡ None }
    ensures tied { HasTies slots.new.items ties.new.of.items }
{
    take_out(slots, d);
    let least = wipe_exits(slots, ties, d);
    wipe(slots, ties, d);
    least
}
