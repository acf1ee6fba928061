// What is written of units.
ghost use Rattle.std.specs.Prelude.{◌≡◌, true, IfOk, OnOk};
ghost use Rattle.std.specs.List.{flat_map};
ghost use Rattle.muck_debugging.specs.Seen.{line_ended};
ghost use Rattle.muck_debugging.specs.Laws.{are_texts};

use muck_model::{LineList, NoMemory};
use std::alloc::Global;

/// The text of these lines, each with its end.
pub fn units_text(alloc: Global, lines: &LineList) -> Result<Vec<u8>, NoMemory>
    ensures text { IfOk result (λ text. text.items ≡ flat_map line_ended lines.now) }
    ensures texts { OnOk result (are_texts lines.now ≡ true) }
{
    let mut text = Vec::new(alloc);
    for line in lines.as_slice() {
        text.extend_from_slice(line.as_slice())?;
        text.push(b'\n')?;
    }
    Ok(text)
}
