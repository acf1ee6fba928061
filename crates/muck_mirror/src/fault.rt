// Why nothing is seen of an object.
ghost use Rattle.std.specs.Prelude.{◌≡◌};
ghost use Rattle.muck_mirror.specs.declared.fault.MirrorFault.TheVariants.{NoMemory};

use muck_model::NoMemory as Refused;

/// Why nothing is seen of an object of a mirror.
#[derive(Clone, Copy, Debug, PartialEq, Eq)]
pub enum MirrorFault {
    NoMemory,
    /// It isn't there, or is garbage.
    NoSuchObject,
}

impl From<Refused> for MirrorFault {
    ghost from_gives = { λ _ e. e ≡ NoMemory };

    fn from(_: Refused) -> Self {
        MirrorFault::NoMemory
    }
}
