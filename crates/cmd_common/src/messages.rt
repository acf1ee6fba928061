// Where the messages of objects are kept.
ghost use Rattle.std.specs.Prelude.{◌≡◌, true};
ghost use Rattle.muck_prop.specs.Paths.{class_of};
ghost use Rattle.spec_rights.specs.Verdict.{is_guarded};
ghost use Rattle.spec_commands.specs.Messages.{message_path, message_name};

use muck_db::KnownPaths;
use muck_prop::Path;
use spec_live::Message;

/// The path of a message.
#[tactic(auto, using(spec_commands::proofs::Permitted::message_guarded))]
pub fn message_path(paths: &KnownPaths, message: Message) -> &Path
    ensures path { result.now ≡ message_path (message_name message) }
    ensures guarded { is_guarded (class_of result.now) ≡ true }
{
    paths.message(message)
}
