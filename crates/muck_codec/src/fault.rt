// Why bytes are no record.
ghost use Rattle.std.specs.Prelude.{◌≡◌};
ghost use Rattle.muck_codec.specs.declared.fault.Unread.TheVariants.{NoMemory};

use muck_model::NoMemory as Refused;
use std::alloc::{AllocError, AllocFailed};

/// Why bytes are no record, or no batch.
#[derive(Clone, Copy, Debug, PartialEq, Eq)]
pub enum CodecFault {
    /// The byte at this place, from 0, is the first that nothing continues; at the length of the bytes, more are
    /// missing.
    BadRecord { at: usize },
    NoMemory,
}

// Why a part could not be read.
#[derive(Drop)]
pub enum Unread {
    NoMemory,
    // So many bytes are left, from the first on that nothing continues.
    Left(usize),
}

impl From<AllocError> for Unread {
    ghost from_gives = { λ _ e. e ≡ NoMemory };

    fn from(_: AllocError) -> Unread {
        Unread::NoMemory
    }
}

impl<T: Drop> From<AllocFailed<T>> for Unread {
    ghost from_gives = { λ _ e. e ≡ NoMemory };

    fn from(_: AllocFailed<T>) -> Unread {
        Unread::NoMemory
    }
}

impl From<Refused> for Unread {
    ghost from_gives = { λ _ e. e ≡ NoMemory };

    fn from(_: Refused) -> Unread {
        Unread::NoMemory
    }
}
