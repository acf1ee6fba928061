// For whom locks open.
use muck_db::Db;
use muck_lock::{MemName, MemNames, opens, read};
use muck_model::{Dbref, NoMemory, Row};
use std::alloc::Global;
use tests_rows::line;

/// For which of `#0` to `#4` the lock of a text opens, in which `*Two` is `#2`.
pub fn opens_for(alloc: Global, out: &mut String, db: &Db, text: &[u8]) -> Result<(), NoMemory> {
    let mut names = Row::new(alloc)?;
    names.push(MemName {
        name: line(alloc, b"*Two")?,
        object: Dbref(2),
        program: false,
    })?;
    let text = line(alloc, text)?;
    let lock = read(alloc, &text, &MemNames::of(names)).map_err(|_| NoMemory)?;
    out.push_str("for")?;
    for n in 0..5 {
        if opens(&lock, db, Dbref(n)) {
            write!(out, " #{n}")?;
        }
    }
    Ok(())
}
