// Reading a script.
ghost use Rattle.std.specs.Prelude.{◌≡◌, ◌<◌, length, Err};
ghost use Rattle.muck_follow.specs.Script.{script_most, read_part, mirror_acts_of};
ghost use Rattle.muck_follow.specs.inner.Reading.{IsReading, IsScriptOf};

use crate::Act;
use crate::lines::cut_line;
use crate::parsing::act_of;
use std::alloc::Global;
use std::marker::Model;

/// The most bytes of a script.
pub const SCRIPT_MOST: usize = 16_777_216;

/// A script, which contracts see as the list of its acts: one a line.
#[derive(Drop)]
pub struct Script {
    acts: Vec<Act>,
}

impl Model for Script {
    ghost use Rattle.std.specs.Prelude.{List};
    ghost use Rattle.muck_follow.specs.declared.act.Act.{Act};

    ghost Value = { List Act };

    ghost view = { λ s. s.acts.items };
}

impl Script {
    /// Its acts.
    pub fn as_slice(&self) -> &[Act]
        ensures { result.now ≡ self.now }
    {
        &self.acts
    }
}

/// Why bytes are no script.
#[derive(Clone, Copy, Debug, PartialEq, Eq)]
pub enum ScriptFault {
    /// The first line outside the grammar has this number, from 1.
    BadScript { line: u64 },
    NoMemory,
}

/// The script that these bytes are. `BadScript` comes exactly where a line is outside the grammar, with the number of
/// the first; of bytes that are more than [`SCRIPT_MOST`] the line that holds the first too many is outside.
#[tactic(auto, unfolding(crate::specs::Script::script_most))]
pub fn read(alloc: Global, bytes: &[u8]) -> Result<Script, ScriptFault>
    ensures { IsScriptOf bytes.now result }
{
    if bytes.len() > SCRIPT_MOST {
        return Err(long_fault(alloc, bytes));
    }
    read_acts(alloc, bytes)
}

// The bytes up to the first that is too many, and with it.
#[tactic(auto, unfolding(crate::specs::Script::script_most))]
fn read_part(bytes: &[u8]) -> &[u8]
    requires { script_most < length bytes.now }
    ensures { result.now ≡ read_part bytes.now }
{
    bytes.split_at(SCRIPT_MOST + 1).0
}

// Why too many bytes are no script.
fn long_fault(alloc: Global, bytes: &[u8]) -> ScriptFault
    requires { script_most < length bytes.now }
    ensures { IsScriptOf bytes.now (Err result) }
{
    match read_acts(alloc, read_part(bytes)) {
        Ok(script) => ScriptFault::BadScript {
            line: script.as_slice().len() as u64,
        },
        Err(fault) => fault,
    }
}

// What the lines ask for, whatever their count.
fn read_acts(alloc: Global, bytes: &[u8]) -> Result<Script, ScriptFault>
    ensures { IsReading (mirror_acts_of bytes.now) result }
{
    let mut acts = Vec::new(alloc);
    let mut rest = bytes;
    let mut number = 1u64;
    while !rest.is_empty() {
        let (line, others) = cut_line(rest);
        let Some(act) = act_of(line) else {
            return Err(ScriptFault::BadScript { line: number });
        };
        if acts.push(act).is_err() {
            return Err(ScriptFault::NoMemory);
        }
        rest = others;
        number += 1;
    }
    Ok(Script { acts })
}
