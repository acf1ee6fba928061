// What one line of a script of `debug` asks for.
ghost use Rattle.std.specs.Prelude.{◌≡◌, IfOk};
ghost use Rattle.muck_script.specs.Script.{act_of};
ghost use Rattle.muck_debugging.specs.declared.act.DebugAct.TheVariants.{Break, Clear};
ghost use Rattle.muck_debugging.specs.Grammar.{at_line, debug_act_of, program_line_number};

use crate::DebugAct;
use muck_model::{Dbref, LINES_MOST, NoMemory, decimal};
use muck_script::act_of;
use spec_commands::cut_word;
use std::alloc::Global;

// The number of the last line that a program may have.
const LAST_LINE: u64 = LINES_MOST as u64;

/// What a line asks for, or none where it is outside the grammar.
#[tactic(auto, unfolding(crate::specs::Grammar::debug_act_of))]
pub fn debug_act_of(alloc: Global, line: &[u8]) -> Result<Option<DebugAct>, NoMemory>
    ensures { IfOk result (λ act. act ≡ debug_act_of line.now) }
{
    if line == b"trace on".as_slice() {
        return Ok(Some(DebugAct::Trace(true)));
    }
    if line == b"trace off".as_slice() {
        return Ok(Some(DebugAct::Trace(false)));
    }
    let (word, rest) = cut_word(line);
    if word == b"break".as_slice() {
        return Ok(break_of(rest));
    }
    if word == b"clear".as_slice() {
        return Ok(clear_of(rest));
    }
    Ok(act_of(alloc, line)?.map(DebugAct::Plain))
}

// That the line of this program is a break.
fn break_of(text: &[u8]) -> Option<DebugAct>
    ensures { result ≡ at_line Break text.now }
{
    let (program, line) = cut_word(text);
    let program = Dbref::read(program)?;
    let line = line_number(line)?;
    Some(DebugAct::Break(program, line))
}

// That it is one no longer.
fn clear_of(text: &[u8]) -> Option<DebugAct>
    ensures { result ≡ at_line Clear text.now }
{
    let (program, line) = cut_word(text);
    let program = Dbref::read(program)?;
    let line = line_number(line)?;
    Some(DebugAct::Clear(program, line))
}

// The number of a line of a program, from 1 to the most that there are.
fn line_number(text: &[u8]) -> Option<u32>
    ensures { result ≡ program_line_number text.now }
{
    let n = decimal(text, LAST_LINE)?;
    if n > 0 { Some(n as u32) } else { None }
}
