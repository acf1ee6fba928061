// Why there is no lock, or no text of one.
use muck_model::NoMemory;
use std::alloc::{AllocError, AllocFailed};

/// Why a text is no lock, or a lock has no text.
#[derive(Clone, Copy, Debug, PartialEq, Eq)]
pub enum LockFault {
    /// The first place of a text, from 0, where it is no lock; or the most bytes of a text, where a lock needs more.
    BadLock { at: usize },
    NoMemory,
}

impl From<NoMemory> for LockFault {
    ghost use Rattle.std.specs.Prelude.{◌≡◌};
    ghost use Rattle.muck_lock.specs.declared.fault.LockFault.TheVariants.{NoMemory};

    ghost from_gives = { λ _ e. e ≡ NoMemory };

    fn from(_: NoMemory) -> Self {
        LockFault::NoMemory
    }
}

impl<T: Drop> From<AllocFailed<T>> for LockFault {
    ghost use Rattle.std.specs.Prelude.{◌≡◌};
    ghost use Rattle.muck_lock.specs.declared.fault.LockFault.TheVariants.{NoMemory};

    ghost from_gives = { λ _ e. e ≡ NoMemory };

    fn from(_: AllocFailed<T>) -> Self {
        LockFault::NoMemory
    }
}
