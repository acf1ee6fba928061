// Setting a field: the checks and the writes.
ghost use Rattle.std.specs.Prelude.{◌≡◌, ◌<◌, ℕ, List, length, false, IfOk, OnOk, OnErr, Ok, Err};
ghost use Rattle.spec_live.specs.Objects.{is_garbage, is_player, is_exit, kind_in, changed_at};
ghost use Rattle.spec_live.specs.Setting.{every_number, checked, checked_both, owner_check, link_check, home_check, flags_check, level_check, lines_check, password_check, keeps_seats, holds_player, may_link, may_live, has_link, lines_marked, with_prop, without_prop};
ghost use Rattle.muck_db.specs.inner.Slots.{kind_at, entries_of, on_slot, with_slot_lines, HasOrder};
ghost use Rattle.muck_db.specs.inner.Settings.{with_setting};

use crate::links::{first_of, next_of};
use crate::moves::{is_vehicle, kind_of, number_of};
use crate::slot::Slot;
use crate::slots::Slots;
use muck_model::{Dbref, Flags, Kind, Line, LineList};
use muck_prop::{Path, PropValue};
use spec_live::{DbFault, Mark, Object, Saving, VEHICLE, has_flag};

// The number of an object.
#[tactic(auto, unfolding(spec_live::specs::Setting::checked))]
pub fn check_any(slots: &Slots, d: Dbref) -> Result<u32, DbFault>
    ensures is { result ≡ checked every_number d (entries_of slots.now.items) }
    ensures within { IfOk result (λ k. k < length slots.now.items) }
    ensures alive { IfOk result (λ k. is_garbage (kind_at slots.now.items k) ≡ false) }
{
    match number_of(slots, d) {
        Some(k) => Ok(k),
        None => Err(DbFault::NoSuchObject),
    }
}

fn is_player(slots: &Slots, k: u32) -> bool
    ensures { result ≡ is_player (kind_at slots.now.items k) }
{
    matches!(kind_of(slots, k), Kind::Player)
}

// The number of an object that isn't a player, where the owner is one.
#[tactic(auto, using(crate::proofs::Bridge::kinds), unfolding(spec_live::specs::Setting::owner_check, spec_live::specs::Setting::checked_both))]
pub fn check_owner(slots: &Slots, d: Dbref, owner: Dbref) -> Result<u32, DbFault>
    ensures is { result ≡ owner_check d owner (entries_of slots.now.items) }
    ensures within { IfOk result (λ k. k < length slots.now.items) }
    ensures alive { IfOk result (λ k. is_garbage (kind_at slots.now.items k) ≡ false) }
{
    let Some(k) = number_of(slots, d) else {
        return Err(DbFault::NoSuchObject);
    };
    let Some(p) = number_of(slots, owner) else {
        return Err(DbFault::NoSuchObject);
    };
    if is_player(slots, k) || !is_player(slots, p) {
        return Err(DbFault::WrongKind);
    }
    Ok(k)
}

fn may_link(kind: Kind, to: Kind) -> bool
    ensures { result ≡ may_link kind to }
{
    match kind {
        Kind::Exit => matches!(to, Kind::Room | Kind::Program),
        Kind::Room => matches!(to, Kind::Room),
        _ => false,
    }
}

// The number of an object whose link may be nothing.
#[tactic(auto, using(crate::proofs::Bridge::kinds), unfolding(spec_live::specs::Setting::checked))]
fn check_unlinked(slots: &Slots, d: Dbref) -> Result<u32, DbFault>
    ensures is { result ≡ checked (λ n. has_link (kind_in (entries_of slots.now.items) n)) d (entries_of slots.now.items) }
    ensures within { IfOk result (λ k. k < length slots.now.items) }
    ensures alive { IfOk result (λ k. is_garbage (kind_at slots.now.items k) ≡ false) }
{
    let Some(k) = number_of(slots, d) else {
        return Err(DbFault::NoSuchObject);
    };
    match kind_of(slots, k) {
        Kind::Exit | Kind::Room => Ok(k),
        _ => Err(DbFault::WrongKind),
    }
}

// The number of an exit.
#[tactic(auto, using(crate::proofs::Bridge::kinds), unfolding(spec_live::specs::Setting::checked))]
fn check_exit(slots: &Slots, d: Dbref) -> Result<u32, DbFault>
    ensures is { result ≡ checked (λ n. is_exit (kind_in (entries_of slots.now.items) n)) d (entries_of slots.now.items) }
    ensures within { IfOk result (λ k. k < length slots.now.items) }
    ensures alive { IfOk result (λ k. is_garbage (kind_at slots.now.items k) ≡ false) }
{
    let Some(k) = number_of(slots, d) else {
        return Err(DbFault::NoSuchObject);
    };
    match kind_of(slots, k) {
        Kind::Exit => Ok(k),
        _ => Err(DbFault::WrongKind),
    }
}

// The number of an object that may be linked to that one.
#[tactic(auto, using(crate::proofs::Bridge::kinds), unfolding(spec_live::specs::Setting::checked_both))]
fn check_target(slots: &Slots, d: Dbref, to: Dbref) -> Result<u32, DbFault>
    ensures is { result ≡ checked_both (λ n t. may_link (kind_in (entries_of slots.now.items) n) (kind_in (entries_of slots.now.items) t)) d to (entries_of slots.now.items) }
    ensures within { IfOk result (λ k. k < length slots.now.items) }
    ensures alive { IfOk result (λ k. is_garbage (kind_at slots.now.items k) ≡ false) }
{
    let Some(k) = number_of(slots, d) else {
        return Err(DbFault::NoSuchObject);
    };
    let Some(t) = number_of(slots, to) else {
        return Err(DbFault::NoSuchObject);
    };
    if !may_link(kind_of(slots, k), kind_of(slots, t)) {
        return Err(DbFault::WrongKind);
    }
    Ok(k)
}

// The number of an object whose link may be that.
#[tactic(auto, unfolding(spec_live::specs::Setting::link_check))]
pub fn check_link(slots: &Slots, d: Dbref, to: Dbref) -> Result<u32, DbFault>
    ensures is { result ≡ link_check d to (entries_of slots.now.items) }
    ensures within { IfOk result (λ k. k < length slots.now.items) }
    ensures alive { IfOk result (λ k. is_garbage (kind_at slots.now.items k) ≡ false) }
{
    if to.0 == -1 {
        check_unlinked(slots, d)
    } else if to.0 == -3 {
        check_exit(slots, d)
    } else {
        check_target(slots, d, to)
    }
}

fn may_live(kind: Kind, to: Kind) -> bool
    ensures { result ≡ may_live kind to }
{
    match kind {
        Kind::Thing => matches!(to, Kind::Room | Kind::Thing | Kind::Player),
        Kind::Player => matches!(to, Kind::Room | Kind::Thing),
        _ => false,
    }
}

// The number of an object that may live there.
#[tactic(auto, using(crate::proofs::Bridge::kinds), unfolding(spec_live::specs::Setting::home_check, spec_live::specs::Setting::checked_both))]
pub fn check_home(slots: &Slots, d: Dbref, to: Dbref) -> Result<u32, DbFault>
    ensures is { result ≡ home_check d to (entries_of slots.now.items) }
    ensures within { IfOk result (λ k. k < length slots.now.items) }
    ensures alive { IfOk result (λ k. is_garbage (kind_at slots.now.items k) ≡ false) }
{
    let Some(k) = number_of(slots, d) else {
        return Err(DbFault::NoSuchObject);
    };
    let Some(t) = number_of(slots, to) else {
        return Err(DbFault::NoSuchObject);
    };
    if !may_live(kind_of(slots, k), kind_of(slots, t)) {
        return Err(DbFault::WrongKind);
    }
    Ok(k)
}

// Whether a player is in it.
fn holds_player(slots: &Slots, n: u32) -> bool
    requires order { HasOrder slots.now.items }
    requires known { n < length slots.now.items }
    ensures { result ≡ holds_player (entries_of slots.now.items) n }
{
    let mut at = first_of(slots, false, n);
    while let Some(x) = at {
        if is_player(slots, x) {
            return true;
        }
        at = next_of(slots, x);
    }
    false
}

// Whether all that sit on it may stay.
#[tactic(auto, using(crate::proofs::Bridge::kinds), unfolding(spec_live::specs::Setting::keeps_seats, spec_live::specs::Objects::is_vehicle_in))]
fn keeps_seats(slots: &Slots, flags: Flags, n: u32) -> bool
    requires order { HasOrder slots.now.items }
    requires known { n < length slots.now.items }
    ensures { result ≡ keeps_seats (entries_of slots.now.items) flags n }
{
    let leaves = matches!(kind_of(slots, n), Kind::Thing)
        && is_vehicle(slots, n)
        && !has_flag(VEHICLE, flags);
    !(leaves && holds_player(slots, n))
}

// The number of an object that may have these flags.
#[tactic(auto, unfolding(spec_live::specs::Setting::flags_check, spec_live::specs::Setting::checked))]
pub fn check_flags(slots: &Slots, d: Dbref, flags: Flags) -> Result<u32, DbFault>
    requires order { HasOrder slots.now.items }
    ensures is { result ≡ flags_check d flags (entries_of slots.now.items) }
    ensures within { IfOk result (λ k. k < length slots.now.items) }
    ensures alive { IfOk result (λ k. is_garbage (kind_at slots.now.items k) ≡ false) }
{
    let Some(k) = number_of(slots, d) else {
        return Err(DbFault::NoSuchObject);
    };
    if !keeps_seats(slots, flags, k) {
        return Err(DbFault::WrongKind);
    }
    Ok(k)
}

// The number of a program or a player, for a level that there is.
#[tactic(auto, using(crate::proofs::Bridge::kinds), unfolding(spec_live::specs::Setting::level_check, spec_live::specs::Setting::checked))]
pub fn check_level(slots: &Slots, d: Dbref, level: u8) -> Result<u32, DbFault>
    ensures is { result ≡ level_check d level (entries_of slots.now.items) }
    ensures within { IfOk result (λ k. k < length slots.now.items) }
    ensures alive { IfOk result (λ k. is_garbage (kind_at slots.now.items k) ≡ false) }
{
    let Some(k) = number_of(slots, d) else {
        return Err(DbFault::NoSuchObject);
    };
    let has_level = matches!(kind_of(slots, k), Kind::Program | Kind::Player);
    if !(has_level && level < 4) {
        return Err(DbFault::WrongKind);
    }
    Ok(k)
}

// The number of a program.
#[tactic(auto, using(crate::proofs::Bridge::kinds), unfolding(spec_live::specs::Setting::lines_check, spec_live::specs::Setting::checked))]
pub fn check_program(slots: &Slots, d: Dbref) -> Result<u32, DbFault>
    ensures is { result ≡ lines_check d (entries_of slots.now.items) }
    ensures within { IfOk result (λ k. k < length slots.now.items) }
    ensures alive { IfOk result (λ k. is_garbage (kind_at slots.now.items k) ≡ false) }
{
    let Some(k) = number_of(slots, d) else {
        return Err(DbFault::NoSuchObject);
    };
    match kind_of(slots, k) {
        Kind::Program => Ok(k),
        _ => Err(DbFault::WrongKind),
    }
}

// The number of a player.
#[tactic(auto, using(crate::proofs::Bridge::kinds), unfolding(spec_live::specs::Setting::password_check, spec_live::specs::Setting::checked))]
pub fn check_player(slots: &Slots, d: Dbref) -> Result<u32, DbFault>
    ensures is { result ≡ password_check d (entries_of slots.now.items) }
    ensures within { IfOk result (λ k. k < length slots.now.items) }
    ensures alive { IfOk result (λ k. is_garbage (kind_at slots.now.items k) ≡ false) }
{
    let Some(k) = number_of(slots, d) else {
        return Err(DbFault::NoSuchObject);
    };
    match kind_of(slots, k) {
        Kind::Player => Ok(k),
        _ => Err(DbFault::WrongKind),
    }
}

// The mark of an object whose lines were set.
fn marked(mark: Option<Mark>) -> Option<Mark>
    ensures { result ≡ lines_marked mark }
{
    match mark {
        Some(Mark::Gone) => mark,
        _ => Some(Mark::Lines),
    }
}

// What is set of an object.
#[derive(Drop)]
pub enum Setting {
    Name(Line),
    Owner(Dbref),
    Link(Dbref),
    Home(Dbref),
    Flags(Flags),
    Level(u8),
    Digest(Line),
}

fn set_in(object: &mut Object, setting: Setting)
    ensures { object.new ≡ with_setting setting object.old }
{
    match setting {
        Setting::Name(name) => object.name = name,
        Setting::Owner(owner) => object.owner = owner,
        Setting::Link(to) => object.link = to,
        Setting::Home(to) => object.home = to,
        Setting::Flags(flags) => object.flags = flags,
        Setting::Level(level) => object.level = level,
        Setting::Digest(digest) => object.digest = digest,
    }
}

// Sets a field of an object, where it isn't garbage.
#[tactic(auto, unfolding(spec_live::specs::Objects::changed_at))]
pub fn set_at(slots: &mut Slots, k: u32, setting: Setting)
    requires { k < length slots.old.items }
    ensures { slots.new.items ≡ changed_at k (on_slot (with_setting setting)) slots.old.items }
{
    let slot = slots.at_mut(k);
    if let Some(object) = &mut slot.object {
        set_in(object, setting);
    }
    slot.saving = Saving::Due;
}

#[tactic(auto, unfolding(spec_live::specs::Objects::changed_at))]
pub fn set_lines(slots: &mut Slots, k: u32, lines: LineList)
    requires { k < length slots.old.items }
    ensures { slots.new.items ≡ changed_at k (with_slot_lines lines) slots.old.items }
{
    let slot = slots.at_mut(k);
    if let Some(object) = &mut slot.object {
        object.lines = lines;
    }
    slot.mark = marked(slot.mark);
    slot.saving = Saving::Due;
}

// Removes a property of an object.
#[tactic(auto, unfolding(spec_live::specs::Objects::changed_at))]
pub fn remove_prop(slots: &mut Slots, k: u32, path: &Path)
    requires { k < length slots.old.items }
    ensures { slots.new.items ≡ changed_at k (on_slot (without_prop path.now)) slots.old.items }
{
    let slot = slots.at_mut(k);
    if let Some(object) = &mut slot.object {
        object.props.remove(path);
    }
    slot.saving = Saving::Due;
}

// Stores a value at a path of an object.
fn put_in(object: &mut Object, path: Path, value: PropValue) -> Result<(), DbFault>
    ensures ok { OnOk result (object.new ≡ with_prop path value object.old) }
    ensures memory { OnErr result (result ≡ Err DbFault.NoMemory) }
    ensures err { OnErr result (object.new ≡ object.old) }
{
    match object.props.put(path, value) {
        Ok(()) => Ok(()),
        Err(_) => Err(DbFault::NoMemory),
    }
}

// The same in a slot.
fn put_at(slot: &mut Slot, path: Path, value: PropValue) -> Result<(), DbFault>
    ensures ok { OnOk result (slot.new ≡ on_slot (with_prop path value) slot.old) }
    ensures memory { OnErr result (result ≡ Err DbFault.NoMemory) }
    ensures err { OnErr result (slot.new ≡ slot.old) }
{
    if let Some(object) = &mut slot.object {
        put_in(object, path, value)?;
    }
    slot.saving = Saving::Due;
    Ok(())
}

// The same in the table.
#[tactic(auto, using(muck_laws::proofs::Places::set_back), unfolding(spec_live::specs::Objects::changed_at))]
pub fn put_prop(slots: &mut Slots, k: u32, path: Path, value: PropValue) -> Result<(), DbFault>
    requires { k < length slots.old.items }
    ensures ok { OnOk result (slots.new.items ≡ changed_at k (on_slot (with_prop path value)) slots.old.items) }
    ensures memory { OnErr result (result ≡ Err DbFault.NoMemory) }
    ensures err { OnErr result (slots.new.items ≡ slots.old.items) }
{
    put_at(slots.at_mut(k), path, value)
}
