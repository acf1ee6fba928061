// Flags with one set or cleared.
ghost use Rattle.std.specs.Prelude.{◌≡◌, ◌<◌, ◌^◌, true};
ghost use Rattle.spec_live.specs.Flags.{with_flag, without_flag};
ghost use Rattle.spec_rights.specs.Changing.{is_flag};
ghost use Rattle.muck_perm.specs.inner.Guards.{flags_at};

use muck_db::Db;
use muck_model::{Dbref, Flags};
use spec_live::has_flag;

// The flags of an object, none where it isn't there.
pub fn flags_at(db: &Db, d: Dbref) -> Flags
    ensures is { result ≡ flags_at d db.now }
    ensures lawful { result.0 < 2 ^ 14 }
{
    match db.get(d) {
        Some(object) => object.flags(),
        None => Flags(0),
    }
}

// With this flag set.
#[tactic(auto, using(crate::proofs::Flagging::flag_some, crate::proofs::Flagging::flag_fits, crate::proofs::Flagging::flag_lawful))]
pub fn with_flag(flag: Flags, flags: Flags) -> Flags
    requires { is_flag flag ≡ true }
    ensures is { result ≡ with_flag flag.0 flags }
    ensures lawful { flags.0 < 2 ^ 14 → result.0 < 2 ^ 14 }
{
    if has_flag(flag.0, flags) {
        flags
    } else {
        Flags(flags.0 + flag.0)
    }
}

// With this flag cleared.
#[tactic(auto, using(crate::proofs::Flagging::flag_some, crate::proofs::Flagging::flag_below))]
pub fn without_flag(flag: Flags, flags: Flags) -> Flags
    requires { is_flag flag ≡ true }
    ensures is { result ≡ without_flag flag.0 flags }
    ensures lawful { flags.0 < 2 ^ 14 → result.0 < 2 ^ 14 }
{
    if has_flag(flag.0, flags) {
        Flags(flags.0 - flag.0)
    } else {
        flags
    }
}
