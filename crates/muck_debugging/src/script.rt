// Reading a script of `debug`.
ghost use Rattle.std.specs.Prelude.{◌≡◌, ◌<◌, length, Err};
ghost use Rattle.muck_script.specs.Script.{script_most, read_part};
ghost use Rattle.muck_debugging.specs.Grammar.{debug_acts_of};
ghost use Rattle.muck_debugging.specs.inner.Reading.{IsReading, IsScriptOf};

use crate::DebugAct;
use crate::parsing::debug_act_of;
use muck_script::{SCRIPT_MOST, ScriptFault, cut_line};
use std::alloc::Global;
use std::marker::Model;

/// A script of `debug`, which contracts see as the list of its acts: one a line.
#[derive(Drop)]
pub struct DebugScript {
    acts: Vec<DebugAct>,
}

impl Model for DebugScript {
    ghost use Rattle.std.specs.Prelude.{List};
    ghost use Rattle.muck_debugging.specs.declared.act.DebugAct.{DebugAct};

    ghost Value = { List DebugAct };

    ghost view = { λ s. s.acts.items };
}

impl DebugScript {
    /// Its acts.
    pub fn as_slice(&self) -> &[DebugAct]
        ensures { result.now ≡ self.now }
    {
        &self.acts
    }
}

/// The script that these bytes are. `BadScript` comes exactly where a line is outside the grammar, with the number of
/// the first; of bytes that are more than [`SCRIPT_MOST`] the line that holds the first too many is outside.
#[tactic(auto, unfolding(muck_script::specs::Script::script_most))]
pub fn read_debug(alloc: Global, bytes: &[u8]) -> Result<DebugScript, ScriptFault>
    ensures { IsScriptOf bytes.now result }
{
    if bytes.len() > SCRIPT_MOST {
        return Err(long_fault(alloc, bytes));
    }
    read_acts(alloc, bytes)
}

// The bytes up to the first that is too many, and with it.
#[tactic(auto, unfolding(muck_script::specs::Script::script_most))]
fn read_part(bytes: &[u8]) -> &[u8]
    requires { script_most < length bytes.now }
    ensures { result.now ≡ read_part bytes.now }
{
    bytes.split_at(SCRIPT_MOST + 1).0
}

// Why too many bytes are no script.
fn long_fault(alloc: Global, bytes: &[u8]) -> ScriptFault
    requires { script_most < length bytes.now }
    ensures { IsScriptOf bytes.now (Err result) }
{
    match read_acts(alloc, read_part(bytes)) {
        Ok(script) => ScriptFault::BadScript {
            line: script.as_slice().len() as u64,
        },
        Err(fault) => fault,
    }
}

// What the lines ask for, whatever their count.
fn read_acts(alloc: Global, bytes: &[u8]) -> Result<DebugScript, ScriptFault>
    ensures { IsReading (debug_acts_of bytes.now) result }
{
    let mut acts = Vec::new(alloc);
    let mut rest = bytes;
    let mut number = 1u64;
    while !rest.is_empty() {
        let (line, others) = cut_line(rest);
        let Ok(asked) = debug_act_of(alloc, line) else {
            return Err(ScriptFault::NoMemory);
        };
        let Some(act) = asked else {
            return Err(ScriptFault::BadScript { line: number });
        };
        if acts.push(act).is_err() {
            return Err(ScriptFault::NoMemory);
        }
        rest = others;
        number += 1;
    }
    Ok(DebugScript { acts })
}
