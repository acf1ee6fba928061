// What is written of a connection.
ghost use Rattle.std.specs.Prelude.{◌≡◌, ◌++◌, IfOk, OnOk};
ghost use Rattle.std.specs.List.{flat_map};
ghost use Rattle.muck_script.specs.Lines.{lines_of};
ghost use Rattle.muck_script.specs.Story.{line_shown, farewell};

use crate::lines::cut_line;
use itoa::Buffer;
use muck_model::NoMemory;
use std::alloc::Global;

/// About how many bytes more than a queue the text of its lines takes.
const ROOM: usize = 64;

fn push_shown(text: &mut Vec<u8>, d: u32, line: &[u8]) -> Result<(), NoMemory>
    ensures { OnOk result (text.new.items ≡ text.old.items ++ line_shown d line.now) }
{
    let mut buffer = Buffer::new();
    text.extend_from_slice(buffer.format(d).as_bytes())?;
    text.extend_from_slice(b"< ")?;
    text.extend_from_slice(&line[..line.len().saturating_sub(1)])?;
    text.push(b'\n')?;
    Ok(())
}

/// The text that is written of the lines of a queue that was taken from the connection `d`.
pub fn lines_text(alloc: Global, d: u32, bytes: &[u8]) -> Result<Vec<u8>, NoMemory>
    ensures { IfOk result (λ text. text.items ≡ flat_map (line_shown d) (lines_of bytes.now)) }
{
    let mut text = Vec::with_capacity(alloc, bytes.len().saturating_add(ROOM))?;
    let mut rest = bytes;
    while !rest.is_empty() {
        let (line, others) = cut_line(rest);
        push_shown(&mut text, d, line)?;
        rest = others;
    }
    Ok(text)
}

/// The text that is written where the connection `d` is closed.
pub fn farewell_text(alloc: Global, d: u32) -> Result<Vec<u8>, NoMemory>
    ensures { IfOk result (λ text. text.items ≡ farewell d) }
{
    let mut buffer = Buffer::new();
    let mut text = Vec::from_slice(alloc, buffer.format(d).as_bytes())?;
    text.extend_from_slice(b" closed\n")?;
    Ok(text)
}
