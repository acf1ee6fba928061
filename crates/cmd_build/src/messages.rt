// Messages and locks.
ghost use Rattle.std.specs.Prelude.{◌≡◌, true};
ghost use Rattle.muck_prop.specs.declared.value.PropValue.TheVariants.{Text};
ghost use Rattle.muck_prop.specs.Paths.{class_of};
ghost use Rattle.spec_rights.specs.declared.act.Act.{Act};
ghost use Rattle.spec_rights.specs.Verdict.{is_guarded};
ghost use Rattle.spec_rights.specs.Changing.{property_stored};
ghost use Rattle.spec_commands.specs.Building.{is_still_there, change_by_leave, text_kept};
ghost use Rattle.spec_commands.specs.Commands.{message_name};
ghost use Rattle.spec_commands.specs.Replies.{set_reply};
ghost use Rattle.muck_perm.specs.inner.Guards.{Did};

use cmd_common::{Write, message_path, try_write};
use muck_model::{Dbref, Line, NoMemory};
use muck_perm::Guard;
use muck_prop::Path;
use spec_live::Message;

/// Keeps a message or a lock of an object, where neither a rule nor the world denies it; an empty text clears it.
pub fn keep(
    guard: &mut Guard,
    d: u32,
    x: Dbref,
    path: Path,
    text: Line,
    reply: &[u8],
) -> Result<(), NoMemory>
    requires { is_guarded (class_of path) ≡ true }
    ensures { Did (change_by_leave d guard.old.actor (Act.Change x) (is_still_there x) (property_stored x path (Text text)) reply.now) guard.old guard.new result }
{
    try_write(guard, d, Write::Keep(x, path, text), reply)
}

/// Sets a message of an object; an empty text clears it.
#[tactic(auto, unfolding(spec_commands::specs::Building::text_kept, spec_commands::specs::Replies::set_reply))]
pub fn set_message(
    guard: &mut Guard,
    d: u32,
    x: Dbref,
    message: Message,
    text: Line,
) -> Result<(), NoMemory>
    ensures { Did (text_kept d guard.old.actor x (message_name message) text set_reply) guard.old guard.new result }
{
    let path = message_path(guard.db().paths(), message).copy(guard.alloc())?;
    keep(guard, d, x, path, text, b"Set.")
}
