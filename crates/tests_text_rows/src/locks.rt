// Locks: how they are read and written.
use muck_lock::{LockFault, MemName, MemNames, print, read};
use muck_model::{Dbref, Line, Lock, NoMemory, Row};
use std::alloc::Global;
use tests_rows::{add, line};

// A name, its object, and whether that is a program.
const NAMES: [(&[u8], i32, bool); 4] = [
    (b"*One", 1, false),
    (b"*Two", 2, false),
    (b"red ball", 123_456_789, false),
    (b"song", 9, true),
];

fn names(alloc: Global) -> Result<MemNames, NoMemory> {
    let mut names = Row::new(alloc)?;
    for (name, object, program) in NAMES.iter() {
        names.push(MemName {
            name: line(alloc, name)?,
            object: Dbref(*object),
            program: *program,
        })?;
    }
    Ok(MemNames::of(names))
}

// The text of a lock, or the fault.
fn told(out: &mut String, printed: &Result<Line, LockFault>) -> Result<(), NoMemory> {
    match printed {
        Ok(line) => add(out, line.as_slice()),
        Err(fault) => Ok(write!(out, "{fault:?}")?),
    }
}

/// How the lock of a text is written, or where the text goes wrong.
pub fn lock(alloc: Global, out: &mut String, text: &[u8]) -> Result<(), NoMemory> {
    let text = line(alloc, text)?;
    match read(alloc, &text, &names(alloc)?) {
        Ok(lock) => told(out, &print(alloc, &lock)),
        Err(fault) => told(out, &Err(fault)),
    }
}

/// How a copy of the lock of a text is written.
pub fn copied(alloc: Global, out: &mut String, text: &[u8]) -> Result<(), NoMemory> {
    let text = line(alloc, text)?;
    match read(alloc, &text, &names(alloc)?) {
        Ok(lock) => told(out, &print(alloc, &lock.copy(alloc)?)),
        Err(fault) => told(out, &Err(fault)),
    }
}
