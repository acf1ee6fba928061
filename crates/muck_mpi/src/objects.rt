// What is told of an object that is there.
ghost use Rattle.std.specs.Prelude.{◌≡◌, ◌++◌, IfOk, OnOk, Ok, true, false};
ghost use Rattle.std.specs.List.{filter};
ghost use Rattle.spec_live.specs.Flags.{has_flag, flag_of};
ghost use Rattle.mpi.specs.Hosting.{Means};
ghost use Rattle.mpi.specs.Made.{text_or_long};
ghost use Rattle.mpi.specs.Values.{truth_text};
ghost use Rattle.spec_live.specs.Objects.{same};
ghost use Rattle.spec_live.specs.Seen.{listed_in, flag_letters};
ghost use Rattle.spec_rights.specs.Verdict.{controls};
ghost use Rattle.muck_perm.specs.inner.Guards.{objects_of};
ghost use Rattle.spec_mpi.specs.Telling.{of_object, sign_in, signs_in, kind_name};

use crate::signs::{sign, signs};
use crate::texts::truth;
use mpi::MpiFault;
use muck_db::Db;
use muck_model::{Dbref, Flags, Kind, Line, NoMemory};
use muck_perm::{Guard, controls_as};
use spec_live::{flag_of, has_flag};
use std::alloc::Global;

/// The letters of all flags, in their order.
const LETTERS: &[u8] = b"ABCDHJKLQSVWXZ";

/// Its name.
pub(crate) fn name(alloc: Global, db: &Db, d: Dbref) -> Result<Line, MpiFault>
    ensures { Means (of_object (λ o. Ok o.name) d db.now) result }
{
    match db.get(d) {
        Some(object) => Ok(object.name().copy(alloc)?),
        None => Err(MpiFault::BadValue),
    }
}

/// Its place.
pub(crate) fn place(alloc: Global, db: &Db, d: Dbref) -> Result<Line, MpiFault>
    ensures { Means (of_object (λ o. Ok (sign_in db.now o.place)) d db.now) result }
{
    match db.get(d) {
        Some(object) => Ok(sign(alloc, db, object.place())?),
        None => Err(MpiFault::BadValue),
    }
}

/// Its owner.
pub(crate) fn owner(alloc: Global, db: &Db, d: Dbref) -> Result<Line, MpiFault>
    ensures { Means (of_object (λ o. Ok (sign_in db.now o.owner)) d db.now) result }
{
    match db.get(d) {
        Some(object) => Ok(sign(alloc, db, object.owner())?),
        None => Err(MpiFault::BadValue),
    }
}

// The word of a kind.
fn kind_line(alloc: Global, kind: Kind) -> Result<Line, NoMemory>
    ensures { IfOk result (λ line. line ≡ kind_name kind) }
{
    match kind {
        Kind::Room => Line::of_text(alloc, b"Room"),
        Kind::Thing => Line::of_text(alloc, b"Thing"),
        Kind::Exit => Line::of_text(alloc, b"Exit"),
        Kind::Player => Line::of_text(alloc, b"Player"),
        Kind::Program => Line::of_text(alloc, b"Program"),
        Kind::Garbage => Line::of_text(alloc, b""),
    }
}

/// What it is.
pub(crate) fn kind(alloc: Global, db: &Db, d: Dbref) -> Result<Line, MpiFault>
    ensures { Means (of_object (λ o. Ok (kind_name o.kind)) d db.now) result }
{
    match db.get(d) {
        Some(object) => Ok(kind_line(alloc, object.kind())?),
        None => Err(MpiFault::BadValue),
    }
}

// Adds the letters of the flags that are set.
#[tactic(auto, unfolding(spec_live::specs::Seen::flag_letters))]
fn add_flags(text: &mut Vec<u8>, flags: Flags) -> Result<(), NoMemory>
    ensures { OnOk result (text.new.items ≡ text.old.items ++ flag_letters flags) }
{
    add_letters(text, LETTERS, flags)
}

// Those of these letters whose flags are set.
fn add_letters(text: &mut Vec<u8>, letters: &[u8], flags: Flags) -> Result<(), NoMemory>
    ensures { OnOk result (text.new.items ≡ text.old.items ++ filter (λ letter. has_flag (flag_of letter) flags) letters.now) }
{
    let mut rest = letters;
    while let Some((letter, others)) = rest.split_first() {
        if has_flag(flag_of(*letter), flags) {
            text.push(*letter)?;
        }
        rest = others;
    }
    Ok(())
}

// The letters of flags.
#[tactic(auto, using(crate::proofs::Letters::flag_texts))]
fn flag_line(alloc: Global, flags: Flags) -> Result<Line, NoMemory>
    ensures { IfOk result (λ line. line ≡ flag_letters flags) }
{
    let mut text = Vec::new(alloc);
    add_flags(&mut text, flags)?;
    Ok(Line::of_text_vec(text))
}

/// The letters of its flags.
pub(crate) fn flags(alloc: Global, db: &Db, d: Dbref) -> Result<Line, MpiFault>
    ensures { Means (of_object (λ o. Ok (flag_letters o.flags)) d db.now) result }
{
    match db.get(d) {
        Some(object) => Ok(flag_line(alloc, object.flags())?),
        None => Err(MpiFault::BadValue),
    }
}

/// The list of what is in it.
pub(crate) fn contents(alloc: Global, db: &Db, d: Dbref) -> Result<Line, MpiFault>
    ensures { Means (of_object (λ o. text_or_long (signs_in db.now (listed_in false d db.now))) d db.now) result }
{
    match db.get(d) {
        Some(_) => {
            let objects: Vec<Dbref> = db.contents(d).collect(alloc)?;
            signs(alloc, db, &objects)
        }
        None => Err(MpiFault::BadValue),
    }
}

/// The list of its exits.
pub(crate) fn exits(alloc: Global, db: &Db, d: Dbref) -> Result<Line, MpiFault>
    ensures { Means (of_object (λ o. text_or_long (signs_in db.now (listed_in true d db.now))) d db.now) result }
{
    match db.get(d) {
        Some(_) => {
            let objects: Vec<Dbref> = db.exits(d).collect(alloc)?;
            signs(alloc, db, &objects)
        }
        None => Err(MpiFault::BadValue),
    }
}

/// Whether that is its place.
pub(crate) fn holds(alloc: Global, db: &Db, d: Dbref, place: Dbref) -> Result<Line, MpiFault>
    ensures { Means (of_object (λ o. Ok (truth_text (same o.place place))) d db.now) result }
{
    match db.get(d) {
        Some(object) => Ok(truth(alloc, object.place() == place)?),
        None => Err(MpiFault::BadValue),
    }
}

/// Whether who acts controls it.
#[tactic(auto, unfolding(spec_rights::specs::Verdict::controls))]
pub(crate) fn controls(guard: &Guard, d: Dbref) -> Result<Line, MpiFault>
    ensures { Means (of_object (λ o. Ok (truth_text (controls (objects_of guard.now) guard.now.actor d))) d (objects_of guard.now)) result }
{
    let actor = guard.actor();
    match guard.db().get(d) {
        Some(_) => Ok(truth(
            guard.alloc(),
            controls_as(guard.db(), actor.level, actor.user, d),
        )?),
        None => Err(MpiFault::BadValue),
    }
}
