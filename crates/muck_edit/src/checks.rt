// Whether an editor is open.
ghost use Rattle.std.specs.Prelude.{◌≡◌};
ghost use Rattle.muck_perm.specs.inner.Guards.{world_of};
ghost use Rattle.spec_commands.specs.Editing.{inserts_between, is_editor_open};

use cmd_common::is_program;
use muck_model::{EditState, LINES_MOST};
use muck_perm::Guard;

// Whether lines are inserted between the lines, where they are.
fn is_between(state: &EditState) -> bool
    ensures { result ≡ inserts_between state.now }
{
    match state.inserting {
        Some(at) => at as usize <= state.lines.len(),
        None => true,
    }
}

/// Whether an editor is open: its program is there, its lines aren't too many, and lines are inserted between them.
pub fn is_open(guard: &Guard, state: &EditState) -> bool
    ensures { result ≡ is_editor_open state.now (world_of guard.now) }
{
    is_program(guard, state.program) && (state.lines.len() <= LINES_MOST && is_between(state))
}
