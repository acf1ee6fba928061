// Rows that hold the source of a program.
use crate::words::line;
use muck_model::{Line, NoMemory, Row};
use std::alloc::Global;

/// Adds a part behind a space, with `\r` for byte 13.
pub fn part(text: &mut Vec<u8>, bytes: &[u8]) -> Result<(), NoMemory> {
    if !text.is_empty() {
        text.push(b' ')?;
    }
    for &byte in bytes {
        if byte == b'\r' {
            text.extend_from_slice(b"\\r")?;
        } else {
            text.push(byte)?;
        }
    }
    Ok(())
}

/// The lines of a source, so many times; in a row `|` stands for the end of a line.
pub fn lines_of(alloc: Global, source: &[u8], times: u32) -> Result<Row<Line>, NoMemory> {
    let mut lines = Row::new(alloc)?;
    for _ in 0..times {
        for text in source.split(|&byte| byte == b'|') {
            lines.push(line(alloc, text)?)?;
        }
    }
    Ok(lines)
}
