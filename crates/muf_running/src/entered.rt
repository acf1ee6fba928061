// The programs on a call stack.
ghost use Rattle.std.specs.Prelude.{◌≡◌, IfOk, map, reverse, drop};
ghost use Rattle.std.specs.List.{list_any};
ghost use Rattle.std.specs.Ordering.{int_eq};
ghost use Rattle.muf_running.specs.inner.Fitting.{numbers_of};

use muck_model::{Dbref, NoMemory, Row};
use muf_model::{Code, Shared};
use std::alloc::Global;

// A program on the call stack: its number, and the code with which it was entered.
#[derive(Drop)]
pub(crate) struct Entered {
    pub(crate) program: Dbref,
    pub(crate) code: Shared<Code>,
}

// Whether a program is among them.
pub(crate) fn has_program(programs: &[Entered], program: Dbref) -> bool
    ensures { result ≡ list_any (λ e. int_eq e.program.0 program.0) programs.now }
{
    programs.iter().any(|entered| entered.program == program)
}

// The numbers of those below the last one, the last first.
pub(crate) fn numbers_below(alloc: Global, programs: &[Entered]) -> Result<Row<Dbref>, NoMemory>
    ensures { IfOk result (λ row. map (λ d. d.0) row ≡ drop 1 (numbers_of (reverse programs.now))) }
{
    let mut row = Row::new(alloc)?;
    let mut at = programs.len().saturating_sub(1);
    while at > 0 {
        at -= 1;
        row.push(programs[at].program)?;
    }
    Ok(row)
}

// The same programs with their codes, which are shared.
pub(crate) fn copy_entered(alloc: Global, programs: &[Entered]) -> Result<Vec<Entered>, NoMemory>
    ensures { IfOk result (λ copies. copies.items ≡ programs.now) }
{
    let mut copies = Vec::with_capacity(alloc, programs.len())?;
    let mut at = 0;
    while at < programs.len() {
        let program = programs[at].program;
        let code = programs[at].code.share()?;
        copies.push(Entered { program, code })?;
        at += 1;
    }
    Ok(copies)
}
