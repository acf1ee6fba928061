// Rows that are read and answered.
use muck_io::{Sink, Source, read_all, write_all};
use muck_model::NoMemory;
use std::alloc::Global;

/// The most bytes of rows that are read.
const MOST: usize = 1_000_000;

/// What the rows of a program are tried on.
pub trait Rows {
    /// What is made of the rest of a row by this word, or `None` where the word isn't one of the program's.
    fn row(&mut self, word: &[u8], rest: &[u8]) -> Result<Option<Vec<u8>>, NoMemory>;
}

// Adds what is printed of a row.
fn tell<R: Rows>(out: &mut Vec<u8>, rows: &mut R, row: &[u8]) -> Result<(), NoMemory> {
    let cut = row
        .iter()
        .position(|&byte| byte == b' ')
        .unwrap_or(row.len());
    let (word, rest) = row.split_at(cut);
    let rest = rest.get(1..).unwrap_or(&[]);
    out.extend_from_slice(row)?;
    out.extend_from_slice(b" -> ")?;
    match rows.row(word, rest)? {
        Some(text) => out.extend_from_slice(text.as_slice())?,
        None => out.extend_from_slice(b"no such word")?,
    }
    out.push(b'\n')?;
    Ok(())
}

// What is printed of all rows.
fn told<R: Rows>(alloc: Global, rows: &mut R, lines: &[u8]) -> Result<Vec<u8>, NoMemory> {
    let mut out = Vec::new(alloc);
    for row in lines.split(|&byte| byte == b'\n') {
        if !row.is_empty() && row[0] != b'#' {
            tell(&mut out, rows, row)?;
        }
    }
    Ok(out)
}

/// Reads rows to the end and writes what is made of them. Answers the status: 0, or 3 where memory was wanted, 4 where a read failed,
/// and 5 where a write did.
pub fn answered<R: Rows, S: Source, K: Sink>(
    alloc: Global,
    rows: &mut R,
    from: &mut S,
    to: &mut K,
) -> u8 {
    let Ok(lines) = read_all(alloc, from, MOST) else {
        return 4;
    };
    let Ok(text) = told(alloc, rows, lines.as_slice()) else {
        return 3;
    };
    match write_all(to, text.as_slice()) {
        Ok(()) => 0,
        Err(_) => 5,
    }
}
