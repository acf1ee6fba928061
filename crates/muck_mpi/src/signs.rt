// How objects are written: a player as `*NAME`, all else as `#N`.
ghost use Rattle.std.specs.Prelude.{◌≡◌, ◌≤◌, ◌∷◌, ◌++◌, IfOk, OnOk, length, drop};
ghost use Rattle.mpi.specs.Hosting.{Means};
ghost use Rattle.mpi.specs.Made.{Inside, text_or_long};
ghost use Rattle.spec_mpi.specs.Telling.{sign_in, signs_in};

use crate::texts::{line_of, reference};
use mpi::MpiFault;
use muck_db::Db;
use muck_model::{Dbref, Kind, Line, NoMemory, TEXT_MOST};
use std::alloc::Global;

// A name behind a `*`.
#[tactic(auto, using(crate::proofs::Letters::name_texts))]
fn starred(alloc: Global, name: &Line) -> Result<Line, NoMemory>
    requires { length name.now ≤ 80 }
    ensures { IfOk result (λ line. line ≡ 42 ∷ name.now) }
{
    let mut text = Vec::new(alloc);
    text.push(b'*')?;
    text.extend_from_slice(name.as_slice())?;
    Ok(Line::of_text_vec(text))
}

/// The sign of an object.
#[tactic(auto, unfolding(spec_mpi::specs::Telling::sign_in))]
pub(crate) fn sign(alloc: Global, db: &Db, d: Dbref) -> Result<Line, NoMemory>
    ensures { IfOk result (λ line. line ≡ sign_in db.now d) }
{
    match db.get(d) {
        Some(object) if matches!(object.kind(), Kind::Player) => starred(alloc, object.name()),
        _ => reference(alloc, d),
    }
}

// Adds the sign of an object behind a byte 13.
#[tactic(auto, using(crate::proofs::Letters::sign_steps))]
fn add_sign(alloc: Global, text: &mut Vec<u8>, db: &Db, d: Dbref) -> Result<(), NoMemory>
    requires { Inside text.old.items }
    ensures value { OnOk result (text.new.items ≡ text.old.items ++ 13 ∷ sign_in db.now d) }
    ensures inside { OnOk result (Inside text.new.items) }
{
    let sign = sign(alloc, db, d)?;
    text.push(b'\r')?;
    text.extend_from_slice(sign.as_slice())?;
    Ok(())
}

// The text of these bytes but for the first.
#[tactic(auto, using(crate::proofs::Letters::rest_inside))]
fn list_of(alloc: Global, text: &[u8]) -> Result<Line, MpiFault>
    requires { Inside text.now }
    ensures { Means (text_or_long (drop 1 text.now)) result }
{
    let mut list = Vec::new(alloc);
    if let Some((_, rest)) = text.split_first() {
        list.extend_from_slice(rest)?;
    }
    line_of(list)
}

/// The list of these objects; `TooLong` exactly where it would be too long.
pub(crate) fn signs(alloc: Global, db: &Db, objects: &[Dbref]) -> Result<Line, MpiFault>
    ensures { Means (text_or_long (signs_in db.now objects.now)) result }
{
    let mut text = Vec::new(alloc);
    let mut rest = objects;
    while let Some((first, more)) = rest.split_first() {
        if text.len() > TEXT_MOST + 1 {
            return Err(MpiFault::TooLong);
        }
        add_sign(alloc, &mut text, db, *first)?;
        rest = more;
    }
    list_of(alloc, &text)
}
