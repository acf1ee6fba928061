// Bytes as lines.
use muck_links::LineCutter;
use muck_model::NoMemory;
use std::alloc::Global;
use tests_rows::{add, unfolded};

// The most lines that are shown.
const LINES_MOST: u32 = 1000;

/// The lines of bytes that come in pieces, with `|` between: each behind a `;`.
pub fn cut(alloc: Global, out: &mut String, text: &[u8]) -> Result<(), NoMemory> {
    let mut cutter = LineCutter::new(alloc)?;
    for piece in text.split(|&byte| byte == b'|') {
        cutter.feed(&unfolded(alloc, piece)?)?;
    }
    if !cutter.has_line() {
        return Ok(out.push_str("no line")?);
    }
    for at in 0..LINES_MOST {
        let Some(line) = cutter.next_line() else {
            break;
        };
        if at > 0 {
            out.push(';')?;
        }
        add(out, line.as_slice())?;
    }
    Ok(())
}
