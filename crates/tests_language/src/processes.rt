// Which programs a process runs, while it calls another one and comes back.
ghost use Rattle.std.specs.Prelude.{◌<◌, IfOk, length};
ghost use Rattle.muf_model.specs.inner.Decode.{tree_of};
ghost use Rattle.muf_model.specs.inner.Stands.{TreeStands};

use crate::first_wrong;
use muck_model::{Dbref, Line, LineFault, NoMemory};
use muf_compile::compile;
use muf_model::{Code, Shared};
use muf_running::{Occasion, Ran, Running, Stint};
use muf_token::{MemIncludes, tokens};
use std::alloc::Global;

fn line(alloc: Global, text: &str) -> Result<Line, NoMemory> {
    match Line::new(alloc, text.as_bytes()) {
        Ok(line) => Ok(line),
        Err(LineFault::NoMemory) | Err(LineFault::NotLine { .. }) => Err(NoMemory),
    }
}

// The code of a source of one line, which compiles.
fn code_of(alloc: Global, source: &str) -> Result<Shared<Code>, NoMemory>
    ensures stands { IfOk result (λ code. TreeStands code (tree_of code)) }
    ensures word { IfOk result (λ code. 0 < length code.words) }
{
    let mut lines = Vec::new(alloc);
    lines.push(line(alloc, source)?)?;
    let includes = MemIncludes::new(alloc)?;
    let Ok(words) = tokens(alloc, lines.as_slice(), &includes) else {
        return Err(NoMemory);
    };
    match compile(alloc, &words) {
        Ok(code) if !code.words.is_empty() => Shared::new(alloc, code),
        _ => Err(NoMemory),
    }
}

// The process of a source, of program #7, behind its first shared primitive.
fn asking(alloc: Global, source: &str) -> Result<Running, NoMemory> {
    let occasion = Occasion {
        player: Dbref(2),
        place: Dbref(3),
        trigger: Dbref(4),
        command: line(alloc, "go")?,
    };
    let code = code_of(alloc, source)?;
    let arg = line(alloc, "north")?;
    let Some(running) = Running::begin(alloc, Dbref(7), code, occasion, arg)? else {
        return Err(NoMemory);
    };
    let Stint { ran, .. } = running.run(alloc, 100)?;
    match ran {
        Ran::Asking(_, mut running) => {
            running.pass();
            Ok(running)
        }
        Ran::Going(_) | Ran::Ended | Ran::Faulted(_) => Err(NoMemory),
    }
}

// The process that has called the first word of program #9.
fn called(alloc: Global, running: Running) -> Result<Running, NoMemory> {
    let code = code_of(alloc, ": other 5 ;")?;
    if running.calls() < 511 {
        running.call(alloc, Dbref(9), code, 0)
    } else {
        Err(NoMemory)
    }
}

#[test]
fn programs(rt: HostRuntime) -> Result<(), NoMemory> {
    let alloc = rt.alloc();
    let running = called(alloc, asking(alloc, ": main notify 8 ;")?)?;
    let holds = [
        running.program() == Dbref(9),
        running.calls() == 1,
        running.callers(alloc)?.as_slice() == [Dbref(7)].as_slice(),
        running.runs(Dbref(7)),
        running.runs(Dbref(9)),
        !running.runs(Dbref(2)),
    ];
    assert_eq!(rt; first_wrong(&holds), None);
    let Stint { ran, units } = running.run(alloc, 100)?;
    let Ran::Going(running) = ran else {
        return Err(NoMemory);
    };
    let holds = [
        units == 2,
        running.program() == Dbref(7),
        running.calls() == 0,
    ];
    assert_eq!(rt; first_wrong(&holds), None);
    let Stint { ran, units } = running.run(alloc, 100)?;
    assert!(rt; matches!(ran, Ran::Ended) && units == 2);
    Ok(())
}
