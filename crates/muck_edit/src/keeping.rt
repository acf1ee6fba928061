// Keeping the source of a program, by leave.
ghost use Rattle.std.specs.Prelude.{◌≡◌};
ghost use Rattle.spec_rights.specs.declared.act.Act.{Act};
ghost use Rattle.spec_rights.specs.Changing.{lines_kept};
ghost use Rattle.spec_commands.specs.declared.edit.EditCommand.{EditCommand};
ghost use Rattle.spec_commands.specs.Programming.{source_of};
ghost use Rattle.spec_commands.specs.Editing.{IsOpen, same_lines, source_kept, edit_done};
ghost use Rattle.muck_perm.specs.inner.Guards.{Did, IsLeave, world_of};
ghost use Rattle.muck_edit.specs.inner.Edits.{Edits};

use crate::showing::tell_exited;
use cmd_common::{copy_lines, refuse, same_lines};
use muck_model::{Dbref, EditState, LineList, NoMemory};
use muck_perm::{Guard, Pass, verdict};
use spec_commands::EditStep;
use spec_rights::Act;

// Whether the lines are the source of a program already.
fn is_source(guard: &Guard, program: Dbref, lines: &LineList) -> bool
    ensures { result ≡ same_lines (source_of program (world_of guard.now)) lines.now }
{
    match guard.db().get(program) {
        Some(object) => same_lines(object.lines().as_slice(), lines.as_slice()),
        None => lines.is_empty(),
    }
}

// Gives the program of the editor its lines as its source.
#[tactic(auto, using(crate::proofs::There::makes_there))]
fn set_lines(guard: &mut Guard, pass: Pass, state: &EditState) -> Result<(), NoMemory>
    requires leave { IsLeave pass (Act.Edit state.now.program) guard.old }
    requires open { IsOpen state.now (world_of guard.old) }
    ensures { Did (lines_kept state.now.program state.now.lines) guard.old guard.new result }
{
    let lines = copy_lines(guard.alloc(), &state.lines)?;
    match guard.set_lines(pass, state.program, lines) {
        Ok(()) => Ok(()),
        Err(_) => unreachable!(),
    }
}

// Keeps the lines of the editor as the source of its program; where they are it already, nothing changes.
#[tactic(auto, unfolding(spec_commands::specs::Editing::source_kept, spec_commands::specs::Finding::where_so, spec_live::specs::Lives::reading, spec_live::specs::Lives::either, spec_live::specs::Lives::unchanged))]
fn keep(guard: &mut Guard, pass: Pass, state: &EditState) -> Result<(), NoMemory>
    requires leave { IsLeave pass (Act.Edit state.now.program) guard.old }
    requires open { IsOpen state.now (world_of guard.old) }
    ensures { Did (source_kept state.now.program state.now.lines) guard.old guard.new result }
{
    if is_source(guard, state.program, &state.lines) {
        return Ok(());
    }
    set_lines(guard, pass, state)
}

/// `c`: keeps the source, which is then to be compiled.
#[tactic(auto, unfolding(spec_commands::specs::Editing::edit_done, spec_commands::specs::Editing::editing_stepped, spec_rights::specs::Asking::asked))]
pub fn compile(guard: &mut Guard, d: u32, state: &EditState) -> Result<EditStep, NoMemory>
    requires { IsOpen state.now (world_of guard.old) }
    ensures { Edits (edit_done d guard.old.actor state.now EditCommand.Compile) guard.old guard.new state.now result }
{
    let actor = guard.actor();
    let act = Act::Edit {
        program: state.program,
    };
    match verdict(guard.db(), &actor, &act) {
        Err(denial) => {
            refuse(guard, d, denial)?;
            Ok(EditStep::Stay)
        }
        Ok(pass) => {
            keep(guard, pass, state)?;
            Ok(EditStep::Compile)
        }
    }
}

/// `q`: keeps the source, where that is allowed, and leaves.
#[tactic(auto, unfolding(spec_commands::specs::Editing::edit_done, spec_commands::specs::Editing::editing_stepped, spec_rights::specs::Asking::asked, spec_live::specs::Lives::change_followed))]
pub fn quit(guard: &mut Guard, d: u32, state: &EditState) -> Result<EditStep, NoMemory>
    requires { IsOpen state.now (world_of guard.old) }
    ensures { Edits (edit_done d guard.old.actor state.now EditCommand.Quit) guard.old guard.new state.now result }
{
    let actor = guard.actor();
    let act = Act::Edit {
        program: state.program,
    };
    match verdict(guard.db(), &actor, &act) {
        Err(denial) => {
            refuse(guard, d, denial)?;
            tell_exited(guard, d)?;
            Ok(EditStep::Left)
        }
        Ok(pass) => {
            keep(guard, pass, state)?;
            tell_exited(guard, d)?;
            Ok(EditStep::Left)
        }
    }
}
