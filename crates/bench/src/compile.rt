// Compiles a MUF source, again and again.
ghost use Rattle.std.specs.Prelude.{◌≡◌, ◌+◌, OnOk, vec_len};

use muck_model::{Line, LineFault};
use muf_compile::compile;
use muf_token::{MemIncludes, tokens};
use std::alloc::Global;

// A line of the source's word, which leaves the stack as it was.
const MIDDLE: &[u8] = b"  1 2 + dup 3 < if \"few\" pop then pop ( nothing stays )";

// Writes the source of one word with so many lines between its first and its last.
fn write_source(alloc: Global, source: &mut Vec<Line>, lines: u32) -> Result<(), LineFault>
    ensures { OnOk result (vec_len source.new ≡ vec_len source.old + lines + 2) }
{
    put(alloc, source, b": main")?;
    for _line in 0..lines {
        put(alloc, source, MIDDLE)?;
    }
    put(alloc, source, b";")
}

fn put(alloc: Global, source: &mut Vec<Line>, text: &[u8]) -> Result<(), LineFault>
    ensures { OnOk result (vec_len source.new ≡ vec_len source.old + 1) }
{
    match source.push(Line::new(alloc, text)?) {
        Ok(()) => Ok(()),
        Err(_) => Err(LineFault::NoMemory),
    }
}

// The words of the source, where it compiles.
fn compiled(alloc: Global, source: &[Line], includes: &MemIncludes) -> Option<u64> {
    let words = tokens(alloc, source, includes).ok()?;
    let count = words.len();
    let _code = compile(alloc, &words).ok()?;
    Some(count as u64)
}

// The words of the source in all, which compiles so many times.
fn compiled_often(
    alloc: Global,
    source: &[Line],
    includes: &MemIncludes,
    times: u32,
) -> Option<u64> {
    let mut words = 0u64;
    for _ in 0..times {
        words = words.saturating_add(compiled(alloc, source, includes)?);
    }
    Some(words)
}

// A source of so many lines between its first and its last is written and compiled so many times.
fn written(alloc: Global, source: &mut Vec<Line>, lines: u32, times: u32) -> Option<u64> {
    write_source(alloc, source, lines).ok()?;
    let includes = MemIncludes::new(alloc).ok()?;
    compiled_often(alloc, source.as_slice(), &includes, times)
}

/// A source of so many lines between its first and its last is compiled so many times; answers how many words it had in all.
pub fn run(alloc: Global, lines: u32, times: u32) -> Option<String> {
    let words = written(alloc, &mut Vec::new(alloc), lines, times)?;
    format!(in alloc; "{words} words").ok()
}
