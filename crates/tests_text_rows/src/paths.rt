// Paths of properties.
use muck_model::NoMemory;
use muck_prop::{Path, read_path};
use std::alloc::Global;
use tests_rows::{add, halves, line, path as path_of};

/// Adds the text of a path.
pub fn add_path(alloc: Global, out: &mut String, path: &Path) -> Result<(), NoMemory> {
    let text = path.text(alloc)?;
    add(out, text.as_slice())
}

/// The path that a text holds, with the count of its segments and its class.
pub fn path(alloc: Global, out: &mut String, text: &[u8]) -> Result<(), NoMemory> {
    let text = line(alloc, text)?;
    match read_path(alloc, &text) {
        Ok(path) => {
            add_path(alloc, out, &path)?;
            write!(out, ", {}, {:?}", path.len(), path.class())?;
        }
        Err(fault) => write!(out, "{fault:?}")?,
    }
    Ok(())
}

/// How two paths compare, and whether the second equals its copy.
pub fn order(alloc: Global, out: &mut String, text: &[u8]) -> Result<(), NoMemory> {
    let (first, second) = halves(text);
    let first = path_of(alloc, first)?;
    let second = path_of(alloc, second)?;
    let order = first.cmp(&second);
    let same = second == second.copy(alloc)?;
    write!(out, "{order:?}, {same}")?;
    Ok(())
}
