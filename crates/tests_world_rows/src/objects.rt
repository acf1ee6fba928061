// The objects of a world.
ghost use Rattle.std.specs.Prelude.{◌<◌, ◌^◌};

use muck_db::{Chain, Db, DbFault};
use muck_model::{Dbref, Flags, Kind, LineList, NoMemory};
use spec_live::flag_of;
use std::alloc::Global;
use tests_rows::{Words, halves, line, name, path, value};

// What a change of the objects answers, unless memory was wanted for its arguments.
type Done = Result<Result<(), DbFault>, NoMemory>;

// The kind of a letter, as objects are shown; T is a thing.
fn kind(letter: &[u8]) -> Kind {
    match letter {
        [b'R'] => Kind::Room,
        [b'T'] => Kind::Thing,
        [b'E'] => Kind::Exit,
        [b'P'] => Kind::Player,
        [b'F'] => Kind::Program,
        _ => Kind::Garbage,
    }
}

/// The flags of these letters.
pub fn flags(letters: &[u8]) -> Flags
    ensures { result.0 < 2 ^ 14 }
{
    let mut bits = 0u16;
    for letter in letters {
        bits |= flag_of(*letter);
    }
    Flags(bits % 16384)
}

// `create KIND OWNER PLACE NAME`.
fn create(
    alloc: Global,
    out: &mut String,
    db: &mut Db,
    words: &mut Words<'_>,
) -> Result<(), NoMemory> {
    let kind = kind(words.word());
    let owner = words.object();
    let place = words.object();
    let made = db.create(alloc, kind, name(alloc, words.left)?, owner, place);
    write!(out, "{made:?}")?;
    Ok(())
}

// Makes things of One's in Room Zero until that is refused.
fn fill(alloc: Global, out: &mut String, db: &mut Db) -> Result<(), NoMemory> {
    for made in 0..200_000 {
        let name = name(alloc, b"box")?;
        if let Err(fault) = db.create(alloc, Kind::Thing, name, Dbref(1), Dbref(0)) {
            return Ok(write!(out, "{made} made, then {fault:?}")?);
        }
    }
    Ok(())
}

// Adds the numbers of a list.
fn add_list(out: &mut String, list: Chain<'_>) -> Result<(), NoMemory> {
    for d in list {
        write!(out, " #{}", d.0)?;
    }
    Ok(())
}

// What an object holds, and where it leads.
fn told(out: &mut String, db: &Db, d: Dbref) -> Result<(), NoMemory> {
    let Some(object) = db.get(d) else {
        return Ok(out.push_str("none")?);
    };
    let (home, link) = (object.home().0, object.link().0);
    write!(out, "home #{home}, link #{link}, contents")?;
    add_list(out, db.contents(d))?;
    out.push_str(", exits")?;
    add_list(out, db.exits(d))
}

// `knows OBJECT WORD`.
fn knows(alloc: Global, out: &mut String, db: &Db, words: &mut Words<'_>) -> Result<(), NoMemory> {
    let d = words.object();
    let known = db.password_is(alloc, d, &line(alloc, words.left)?);
    write!(out, "{known:?}")?;
    Ok(())
}

/// What is asked of the objects, and those that are made: `create KIND OWNER PLACE NAME`, `fill`, `show OBJECT`, `count`,
/// `changed`, `knows OBJECT WORD`.
pub fn db(
    alloc: Global,
    out: &mut String,
    db: &mut Db,
    words: &mut Words<'_>,
) -> Result<(), NoMemory> {
    match words.word() {
        b"create" => create(alloc, out, db, words),
        b"fill" => fill(alloc, out, db),
        b"show" => told(out, db, words.object()),
        b"count" => Ok(write!(out, "{} of {}", db.objects(), db.count())?),
        b"changed" => Ok(write!(out, "{:?}", db.next_changed())?),
        _ => knows(alloc, out, db, words),
    }
}

// A change that needs memory for what it is made of.
fn kept(alloc: Global, db: &mut Db, field: &[u8], d: Dbref, text: &[u8]) -> Done {
    let (before, behind) = halves(text);
    match field {
        b"lines" => Ok(db.set_lines(d, LineList::new(alloc)?)),
        b"name" => Ok(db.set_name(d, name(alloc, text)?)),
        b"password" => Ok(db.set_password(alloc, d, 7, &line(alloc, text)?)),
        b"unprop" => Ok(db.remove_prop(d, &path(alloc, text)?)),
        _ => {
            let value = value(alloc, behind)?;
            Ok(db.put_prop(d, path(alloc, before)?, value))
        }
    }
}

/// `set CHANGE OBJECT ..`: a change of an object.
pub fn set(
    alloc: Global,
    out: &mut String,
    db: &mut Db,
    words: &mut Words<'_>,
) -> Result<(), NoMemory> {
    let field = words.word();
    let d = words.object();
    let text = words.left;
    let other = words.object();
    let done = match field {
        b"recycle" => db.recycle(d),
        b"move" => db.move_to(d, other),
        b"owner" => db.set_owner(d, other),
        b"link" => db.set_link(d, other),
        b"home" => db.set_home(d, other),
        b"level" => db.set_level(d, Words { left: text }.small()),
        b"flags" => db.set_flags(d, flags(text)),
        _ => kept(alloc, db, field, d, text)?,
    };
    write!(out, "{done:?}")?;
    Ok(())
}
