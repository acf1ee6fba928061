// What players are told of programs that go wrong, and of dumps.
ghost use Rattle.std.specs.Prelude.{◌≡◌, IfOk};
ghost use Rattle.spec_events.specs.Slices.{program_error};
ghost use Rattle.spec_events.specs.Lines.{flaw_text};
ghost use Rattle.spec_events.specs.Dumping.{dump_stored};

use muck_library::Flaw;
use muck_model::{Dbref, NoMemory};
use muf_model::MufFault;
use std::alloc::Global;

/// What the player of a process is told of the fault that ended it, and of the program in which it came.
#[tactic(auto, unfolding(crate::specs::Slices::program_error))]
pub fn error_text(alloc: Global, program: Dbref, fault: &MufFault) -> Result<Vec<u8>, NoMemory>
    ensures { IfOk result (λ text. text.items ≡ program_error program.0 fault.now) }
{
    let number = program.0;
    let head = format!(in alloc; "Program error in #{number}: ")?;
    let text = fault.text(alloc)?;
    let mut bytes = head.into_bytes();
    bytes.extend_from_slice(text.as_slice())?;
    Ok(bytes)
}

/// What is told of the flaw of a source, by its number and its line.
#[tactic(auto, unfolding(crate::specs::Lines::flaw_text))]
pub fn flaw_text(alloc: Global, flaw: Flaw) -> Result<Vec<u8>, NoMemory>
    ensures { IfOk result (λ text. text.items ≡ flaw_text flaw) }
{
    let Flaw { number, line } = flaw;
    let text = format!(in alloc; "Error {number} in line {line}.")?;
    Ok(text.into_bytes())
}

/// What is told of a dump that is stored, by its number.
pub fn dump_stored(alloc: Global, k: u64) -> Result<Vec<u8>, NoMemory>
    ensures { IfOk result (λ text. text.items ≡ dump_stored k) }
{
    let text = format!(in alloc; "Dump {k} stored.")?;
    Ok(text.into_bytes())
}
