// A line of the editor.
ghost use Rattle.std.specs.Prelude.{◌≡◌, ◌≤◌, length, slice_range, OnOk};
ghost use Rattle.spec_rights.specs.Licence.{Licensed, editing};
ghost use Rattle.spec_commands.specs.Editing.{IsOpen, line_inserted, edit_done, edited_by_line};
ghost use Rattle.muck_perm.specs.inner.Guards.{world_of};
ghost use Rattle.muck_edit.specs.inner.Edits.{Edits, IsWithin};

use crate::commands::edit_command;
use crate::keeping::{compile, quit};
use crate::lines::{insert_line, remove_lines};
use crate::showing::tell_illegal;
use cmd_common::show_lines;
use muck_model::{EditState, LINES_MOST, Line, NoMemory};
use muck_perm::Guard;
use spec_commands::{EditCommand, EditStep};

/// An editor of a program: its program, the lines so far, and where lines are being inserted.
#[derive(Drop)]
pub struct Editor {
    pub state: EditState,
}

// A line while lines are being inserted at a place.
#[tactic(auto, unfolding(spec_commands::specs::Editing::line_inserted, spec_commands::specs::Editing::editing_stepped, spec_commands::specs::Editing::exiting, spec_live::specs::Lives::unchanged))]
fn insert(
    state: &mut EditState,
    guard: &mut Guard,
    d: u32,
    at: u32,
    line: &Line,
) -> Result<EditStep, NoMemory>
    requires { at ≤ length state.old.lines }
    ensures { Edits (line_inserted d state.old at line.now) guard.old guard.new state.new result }
{
    if line.as_slice() == b".".as_slice() {
        guard.tell(d, b"Exiting insert mode.")?;
        state.inserting = None;
        return Ok(EditStep::Stay);
    }
    if state.lines.len() < LINES_MOST {
        insert_line(guard.alloc(), &mut state.lines, at, line)?;
        state.inserting = Some(at + 1);
        return Ok(EditStep::Stay);
    }
    tell_illegal(guard, d)?;
    Ok(EditStep::Stay)
}

// Does a command.
#[tactic(auto, unfolding(spec_commands::specs::Editing::edit_done, spec_commands::specs::Editing::editing_stepped, spec_commands::specs::Editing::entering_reply, spec_commands::specs::Editing::deleted_reply))]
fn obey(
    state: &mut EditState,
    guard: &mut Guard,
    d: u32,
    command: EditCommand,
) -> Result<EditStep, NoMemory>
    requires open { IsOpen state.old (world_of guard.old) }
    requires within { IsWithin (length state.old.lines) command }
    ensures { Edits (edit_done d guard.old.actor state.old command) guard.old guard.new state.new result }
{
    match command {
        EditCommand::Insert(at) => {
            guard.tell(d, b"Entering insert mode.")?;
            state.inserting = Some(at);
            Ok(EditStep::Stay)
        }
        EditCommand::Delete { from, to } => {
            guard.tell(d, b"Deleted.")?;
            remove_lines(guard.alloc(), &mut state.lines, from, to);
            Ok(EditStep::Stay)
        }
        EditCommand::Show { from, to } => {
            show_lines(
                guard,
                d,
                &state.lines.as_slice()[from as usize..to as usize],
            )?;
            Ok(EditStep::Stay)
        }
        EditCommand::Compile => compile(guard, d, state),
        EditCommand::Quit => quit(guard, d, state),
    }
}

#[tactic(auto, unfolding(spec_commands::specs::Editing::edited_by_line, spec_commands::specs::Editing::editing_stepped))]
fn take_line(
    state: &mut EditState,
    guard: &mut Guard,
    d: u32,
    line: &Line,
) -> Result<EditStep, NoMemory>
    requires { IsOpen state.old (world_of guard.old) }
    ensures { Edits (edited_by_line d guard.old.actor state.old line.now) guard.old guard.new state.new result }
{
    if let Some(at) = state.inserting {
        return insert(state, guard, d, at, line);
    }
    let count = state.lines.len() as u32;
    let Some(command) = edit_command(count, line.as_slice()) else {
        tell_illegal(guard, d)?;
        return Ok(EditStep::Stay);
    };
    obey(state, guard, d, command)
}

impl Editor {
    /// Takes a line that came from the connection d, and answers what follows. The lines go into the source of the
    /// program by `c` and `q` alone, and only where the actor may edit it. After `NoMemory` the world is no further known,
    /// nor is the state of the editor.
    #[tactic(auto, using(crate::proofs::Opens::edits_open, crate::proofs::Opens::edits_licensed))]
    pub fn line(&mut self, guard: &mut Guard, d: u32, line: &Line) -> Result<EditStep, NoMemory>
        requires { IsOpen self.old.state (world_of guard.old) }
        ensures edits { Edits (edited_by_line d guard.old.actor self.old.state line.now) guard.old guard.new self.new.state result }
        ensures open { OnOk result (IsOpen self.new.state (world_of guard.new)) }
        ensures licensed { OnOk result (Licensed guard.old.actor (editing self.old.state.program) (world_of guard.old) (world_of guard.new)) }
    {
        take_line(&mut self.state, guard, d, line)
    }
}
