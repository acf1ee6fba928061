// The lines of the editor.
ghost use Rattle.std.specs.Prelude.{◌≡◌, ◌≤◌, length, insert, take, OnOk, OnErr};
ghost use Rattle.std.specs.List.{remove_range};

use muck_model::{Line, LineList, NoMemory};
use std::alloc::Global;
use std::mem::replace;

// Takes the lines out, and leaves none.
fn take_out(alloc: Global, lines: &mut LineList) -> Vec<Line>
    ensures { result.items ≡ lines.old }
{
    replace(lines, LineList::of(Vec::new(alloc))).into_vec()
}

/// Puts a copy of a line at a place; after `NoMemory` the lines are as before.
pub fn insert_line(
    alloc: Global,
    lines: &mut LineList,
    at: u32,
    line: &Line,
) -> Result<(), NoMemory>
    requires { at ≤ length lines.old }
    ensures ok { OnOk result (lines.new ≡ insert lines.old at line.now) }
    ensures err { OnErr result (lines.new ≡ lines.old) }
{
    let line = line.copy(alloc)?;
    let mut items = take_out(alloc, lines);
    let inserted = items.insert(at as usize, line);
    *lines = LineList::of(items);
    inserted?;
    Ok(())
}

/// Removes the lines between two places. It takes no memory.
pub fn remove_lines(alloc: Global, lines: &mut LineList, from: u32, to: u32)
    requires ordered { from ≤ to }
    requires within { to ≤ length lines.old }
    ensures { lines.new ≡ remove_range lines.old from to }
{
    let mut items = take_out(alloc, lines);
    items.drain(from as usize..to as usize);
    *lines = LineList::of(items);
}
