// The script of a mirror is read.
ghost use Rattle.std.specs.Prelude.{◌≡◌, IfOk, IfErr, IsErrOf};
ghost use Rattle.muck_io.specs.Faults.{Rose};
ghost use Rattle.muck_mirroring.specs.Mirroring.{HasReadMirrorScript};
ghost use Rattle.muck_mirroring.specs.inner.Reading.{IsScriptWhy};

use muck_follow::{SCRIPT_MOST, Script, ScriptFault, read};
use muck_io::{ReadFault, Source, read_all};
use muck_why::Why;
use std::alloc::Global;

/// Reads the script whole. `BadScript` comes only where this line is the first outside the grammar, `ReadFault` only where the count of faults of the source rose;
/// else the error is want of memory.
pub fn read_script<S: Source>(alloc: Global, script: &mut S) -> Result<Script, Why>
    ensures read { IfOk result (λ acts. HasReadMirrorScript S.left S.faults script.old script.new acts) }
    ensures why { IfErr result (IsScriptWhy (S.left script.old)) }
    ensures cause { IsErrOf result Why.ReadFault → Rose (S.faults script.old) (S.faults script.new) }
    ensures stands { (IsErrOf result Why.ReadFault → ⊥) → S.faults script.new ≡ S.faults script.old }
{
    let bytes = match read_all(alloc, script, SCRIPT_MOST + 1) {
        Ok(bytes) => bytes,
        Err(ReadFault::Failed) => return Err(Why::ReadFault),
        Err(ReadFault::NoMemory) => return Err(Why::NoMemory),
    };
    match read(alloc, bytes.as_slice()) {
        Ok(acts) => Ok(acts),
        Err(ScriptFault::BadScript { line }) => Err(Why::BadScript { line }),
        Err(ScriptFault::NoMemory) => Err(Why::NoMemory),
    }
}
