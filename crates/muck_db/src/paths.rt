// The paths that every world knows.
ghost use Rattle.std.specs.Prelude.{◌≡◌, ◌∷◌, [], codes, IfOk};
ghost use Rattle.spec_live.specs.Messages.{path_of};
ghost use Rattle.spec_live.specs.declared.message.Message.TheVariants as known;

use muck_model::NoMemory;
use muck_prop::Path;
use spec_live::Message;
use std::alloc::Global;

/// The paths at which objects keep their locks and their messages. They are made once, so that looking for one takes no
/// memory.
#[derive(Drop)]
pub struct KnownPaths {
    pub lock: Path,
    describe: Path,
    success: Path,
    others_success: Path,
    fail: Path,
    others_fail: Path,
    drop: Path,
    others_drop: Path,
    pub ghost of_lock: { lock ≡ codes "_" ∷ codes "lok" ∷ [] },
    ghost of_describe: { describe ≡ path_of known.Describe },
    ghost of_success: { success ≡ path_of known.Success },
    ghost of_others_success: { others_success ≡ path_of known.OthersSuccess },
    ghost of_fail: { fail ≡ path_of known.Fail },
    ghost of_others_fail: { others_fail ≡ path_of known.OthersFail },
    ghost of_drop: { drop ≡ path_of known.Drop },
    ghost of_others_drop: { others_drop ≡ path_of known.OthersDrop },
}

// The path of a message, as the table has it.
fn path_of(alloc: Global, message: Message) -> Result<Path, NoMemory>
    ensures { IfOk result (λ path. path ≡ path_of message) }
{
    Path::of_text(alloc, message.row().path)
}

impl KnownPaths {
    // Makes them.
    pub(crate) fn new(alloc: Global) -> Result<KnownPaths, NoMemory> {
        Ok(KnownPaths {
            lock: Path::of_text(alloc, b"_/lok")?,
            describe: path_of(alloc, Message::Describe)?,
            success: path_of(alloc, Message::Success)?,
            others_success: path_of(alloc, Message::OthersSuccess)?,
            fail: path_of(alloc, Message::Fail)?,
            others_fail: path_of(alloc, Message::OthersFail)?,
            drop: path_of(alloc, Message::Drop)?,
            others_drop: path_of(alloc, Message::OthersDrop)?,
        })
    }

    /// The path of a message.
    pub fn message(&self, message: Message) -> &Path
        ensures { result.now ≡ path_of message }
    {
        match message {
            Message::Describe => &self.describe,
            Message::Success => &self.success,
            Message::OthersSuccess => &self.others_success,
            Message::Fail => &self.fail,
            Message::OthersFail => &self.others_fail,
            Message::Drop => &self.drop,
            Message::OthersDrop => &self.others_drop,
        }
    }
}
