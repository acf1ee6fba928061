// Rows that are read and answered. They are read here and not by what other programs of rows share, since threads are started for some.
use crate::served::served;
use crate::wanted::Wanted;
use muck_io::{Rest, Sink, Source, read_all, write_all};
use muck_model::NoMemory;
use std::alloc::Global;
use std::sync::Wait;
use std::thread::Threads;
use tests_rows::Words;

// The most bytes of rows that are read.
const MOST: usize = 1_000_000;

// Adds what is made of a row of this word.
fn answer<W: Threads + Wait + Sync, R: Rest + Sync>(
    rt: &W,
    alloc: Global,
    rest: &R,
    wanted: &mut Wanted,
    out: &mut String,
    words: &mut Words<'_>,
) -> Result<(), NoMemory> {
    match words.word() {
        b"serve" => served(rt, alloc, rest, wanted, words.small(), out),
        word if wanted.take(word, words.left)? => Ok(out.push_str("done")?),
        _ => Ok(out.push_str("no such word")?),
    }
}

// What is printed of all rows.
fn told<W: Threads + Wait + Sync, R: Rest + Sync>(
    rt: &W,
    alloc: Global,
    rest: &R,
    lines: &[u8],
) -> Result<Vec<u8>, NoMemory> {
    let mut wanted = Wanted::new(alloc);
    let mut out = Vec::new(alloc);
    for row in lines.split(|&byte| byte == b'\n') {
        if row.is_empty() || row[0] == b'#' {
            continue;
        }
        let mut text = String::new(alloc);
        answer(
            rt,
            alloc,
            rest,
            &mut wanted,
            &mut text,
            &mut Words { left: row },
        )?;
        out.extend_from_slice(row)?;
        out.extend_from_slice(b" -> ")?;
        out.extend_from_slice(text.as_bytes())?;
        out.push(b'\n')?;
    }
    Ok(out)
}

/// Reads rows to the end and writes what is made of them. Answers the status: 0, or 3 where memory was wanted, 4 where a read failed,
/// and 5 where a write did.
pub fn answered<W: Threads + Wait + Sync, R: Rest + Sync, S: Source, K: Sink>(
    rt: &W,
    alloc: Global,
    rest: &R,
    from: &mut S,
    to: &mut K,
) -> u8 {
    let Ok(lines) = read_all(alloc, from, MOST) else {
        return 4;
    };
    let Ok(text) = told(rt, alloc, rest, lines.as_slice()) else {
        return 3;
    };
    match write_all(to, text.as_slice()) {
        Ok(()) => 0,
        Err(_) => 5,
    }
}
