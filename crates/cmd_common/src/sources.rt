// The source lines of programs.
ghost use Rattle.std.specs.Prelude.{◌≡◌, IfOk};
ghost use Rattle.spec_commands.specs.Editing.{same_lines};

use muck_model::{Line, LineList, NoMemory};
use std::alloc::Global;

/// A copy of lines.
pub fn copy_lines(alloc: Global, lines: &LineList) -> Result<LineList, NoMemory>
    ensures { IfOk result (λ copy. copy ≡ lines.now) }
{
    let mut copy = Vec::new(alloc);
    for line in lines.as_slice() {
        copy.push(line.copy(alloc)?)?;
    }
    Ok(LineList::of(copy))
}

/// Whether two sources are the same, line by line.
pub fn same_lines(a: &[Line], b: &[Line]) -> bool
    ensures { result ≡ same_lines a.now b.now }
{
    a == b
}
