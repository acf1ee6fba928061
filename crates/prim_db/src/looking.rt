// What is found of one object.
ghost use Rattle.std.specs.Prelude.{◌≡◌, [], false, true, IfOk};
ghost use Rattle.std.specs.Option.{option_map_or};
ghost use Rattle.spec_live.specs.declared.object.Object.{Object};
ghost use Rattle.spec_live.specs.Objects.{nothing, object_at};
ghost use Rattle.spec_live.specs.Seen.{listed_in, long_form};
ghost use Rattle.spec_live.specs.Worth.{lock_text};
ghost use Rattle.spec_rights.specs.Levels.{dbref_number};
ghost use Rattle.spec_rights.specs.Verdict.{place_or_nothing};
ghost use Rattle.muck_perm.specs.inner.Guards.{objects_of};
ghost use Rattle.muf_model.specs.Datum.{text};
ghost use Rattle.muf_model.specs.inner.View.{view};
ghost use Rattle.spec_prims.specs.ObjectRows.{first_or_nothing, found_of, next_of, text_read_out, tie_by};
ghost use Rattle.prim_db.specs.inner.Found.{Finds};

use muck_db::Db;
use muck_lock::Keys;
use muck_model::{Dbref, Kind, Line, NoMemory};
use muck_perm::{Guard, level_at, long_form, owner_at};
use muf_frame::PrimFault;
use muf_model::{MufFault, Prim, Text, Value};
use spec_live::Object;
use std::alloc::Global;

const NOTHING: Dbref = Dbref(-1);

// A line as an item.
pub(crate) fn text_item(alloc: Global, line: Line) -> Result<Value, NoMemory>
    ensures { IfOk result (λ v. view v ≡ text line) }
{
    Ok(Value::Str(Text::new(alloc, line)?))
}

// These bytes as an item; `TextTooLong` comes exactly where they are no text.
fn shown(alloc: Global, bytes: Vec<u8>) -> Result<Value, PrimFault>
    ensures { Finds (text_read_out bytes.items) result }
{
    match Line::from_vec(bytes) {
        Ok(line) => Ok(text_item(alloc, line)?),
        Err(_) => Err(PrimFault::Fault(MufFault::TextTooLong)),
    }
}

// The name of an object, empty where it isn't there.
fn name(alloc: Global, db: &Db, object: Dbref) -> Result<Value, NoMemory>
    ensures { IfOk result (λ v. view v ≡ text (option_map_or (λ o. o.name) (object_at object db.now) [])) }
{
    let name = match db.get(object) {
        Some(object) => object.name().copy(alloc)?,
        None => Line::of_text(alloc, b"")?,
    };
    text_item(alloc, name)
}

// What it is in, `#-1` where it isn't there.
fn place_of(db: &Db, object: Dbref) -> Dbref
    ensures { result ≡ place_or_nothing db.now object }
{
    match db.get(object) {
        Some(object) => object.place(),
        None => NOTHING,
    }
}

// The first of its contents, or `#-1`.
fn first_content(db: &Db, object: Dbref) -> Dbref
    ensures { result ≡ first_or_nothing (listed_in false object db.now) }
{
    let mut list = db.contents(object);
    match list.next() {
        Some(first) => first,
        None => NOTHING,
    }
}

// The first of its exits, or `#-1`.
fn first_exit(db: &Db, object: Dbref) -> Dbref
    ensures { result ≡ first_or_nothing (listed_in true object db.now) }
{
    let mut list = db.exits(object);
    match list.next() {
        Some(first) => first,
        None => NOTHING,
    }
}

// What stands behind an object in its list, or `#-1`.
#[tactic(auto, using(crate::proofs::Lists::next_same))]
fn next_of(db: &Db, object: Dbref) -> Dbref
    ensures { result ≡ next_of db.now object }
{
    Keys::next(db, object)
}

// The link of an exit or a room, and the home of a thing or a player.
fn tie_of(object: &Object) -> Dbref
    ensures { result ≡ tie_by object.now.kind object.now }
{
    match object.kind() {
        Kind::Exit | Kind::Room => object.link(),
        Kind::Thing | Kind::Player => object.home(),
        Kind::Program | Kind::Garbage => NOTHING,
    }
}

fn tie_at(db: &Db, object: Dbref) -> Dbref
    ensures { result ≡ option_map_or (λ o. tie_by o.kind o) (object_at object db.now) nothing }
{
    match db.get(object) {
        Some(object) => tie_of(object),
        None => NOTHING,
    }
}

// The number behind a name.
fn number_of(object: Dbref) -> u32
    ensures { result ≡ dbref_number object }
{
    if object.0 < 0 { 0 } else { object.0 as u32 }
}

// The long form of an object, empty where it isn't there.
fn long_form_at(alloc: Global, db: &Db, d: Dbref) -> Result<Vec<u8>, NoMemory>
    ensures { IfOk result (λ text. text.items ≡ option_map_or (long_form (dbref_number d)) (object_at d db.now) []) }
{
    match db.get(d) {
        Some(object) => long_form(alloc, number_of(d), object),
        None => Ok(Vec::new(alloc)),
    }
}

/// What a primitive finds of an object.
pub(crate) fn look(prim: Prim, guard: &Guard, object: Dbref) -> Result<Value, PrimFault>
    ensures { Finds (found_of prim object (objects_of guard.now)) result }
{
    let alloc = guard.alloc();
    let db = guard.db();
    match prim {
        Prim::Name => Ok(name(alloc, db, object)?),
        Prim::Owner => Ok(Value::Ref(owner_at(db, object))),
        Prim::Location => Ok(Value::Ref(place_of(db, object))),
        Prim::Contents => Ok(Value::Ref(first_content(db, object))),
        Prim::Exits => Ok(Value::Ref(first_exit(db, object))),
        Prim::Next => Ok(Value::Ref(next_of(db, object))),
        Prim::MLevel => Ok(Value::Int(level_at(db, object) as i32)),
        Prim::GetLink => Ok(Value::Ref(tie_at(db, object))),
        Prim::GetLockStr => Ok(text_item(alloc, guard.lock_text(object)?)?),
        Prim::UnparseObj => shown(alloc, long_form_at(alloc, db, object)?),
        _ => Err(PrimFault::Fault(MufFault::BadType)),
    }
}
