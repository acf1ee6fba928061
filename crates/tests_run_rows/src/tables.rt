// Primitives and faults by their names.
use crate::items::owned;
use muck_model::NoMemory;
use muf_model::{MufFault, Prim, Text};
use std::alloc::Global;
use tests_rows::{line, part};

/// A primitive: its name, its level, whether it needs no world, and whether programs may use it so far.
pub fn primitive_row(alloc: Global, word: &[u8]) -> Result<Vec<u8>, NoMemory> {
    let Some(prim) = Prim::named(word) else {
        return owned(alloc, b"none");
    };
    let mut text = owned(alloc, prim.name())?;
    let local = if prim.local() { "local" } else { "shared" };
    let there = if prim.is_there() {
        "there"
    } else {
        "not there yet"
    };
    part(
        &mut text,
        format!(in alloc; "{} {local} {there}", prim.level())?.as_bytes(),
    )?;
    Ok(text)
}

/// A fault: its number, whether it ends the program even inside a TRY, and its text.
pub fn fault_row(alloc: Global, name: &[u8]) -> Result<Vec<u8>, NoMemory> {
    let fault = match name {
        b"StackEmpty" => MufFault::StackEmpty,
        b"StackLocked" => MufFault::StackLocked,
        b"Denied 24" => MufFault::Denied(24),
        b"TooManyUnits" => MufFault::TooManyUnits,
        b"PreemptTooLong" => MufFault::PreemptTooLong,
        b"WorldFull" => MufFault::WorldFull,
        text => MufFault::Aborted(Text::new(alloc, line(alloc, text)?)?),
    };
    let end = if fault.is_final() { "final" } else { "caught" };
    let mut text = format!(in alloc; "{} {end}", fault.number())?.into_bytes();
    part(&mut text, fault.text(alloc)?.as_slice())?;
    Ok(text)
}
