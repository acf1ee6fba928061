// What texts name for `#1`.
use muck_db::Db;
use muck_match::{exit_for, find, player};
use muck_model::{Dbref, NoMemory};
use std::alloc::Global;
use tests_rows::line;

const ONE: Dbref = Dbref(1);

/// What a text names.
pub fn named(alloc: Global, out: &mut String, db: &Db, text: &[u8]) -> Result<(), NoMemory> {
    let found = find(db, ONE, &line(alloc, text)?);
    write!(out, "{found:?}")?;
    Ok(())
}

/// Which exit a line takes, by which alias, and where the argument begins.
pub fn exit(alloc: Global, out: &mut String, db: &Db, text: &[u8]) -> Result<(), NoMemory> {
    let hit = exit_for(db, ONE, &line(alloc, text)?);
    write!(out, "{hit:?}")?;
    Ok(())
}

/// The player of a name.
pub fn player_of(alloc: Global, out: &mut String, db: &Db, text: &[u8]) -> Result<(), NoMemory> {
    let found = player(db, &line(alloc, text)?);
    write!(out, "{found:?}")?;
    Ok(())
}
