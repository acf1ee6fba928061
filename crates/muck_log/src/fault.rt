// Why a log could not be mounted, or a batch not appended.
ghost use Rattle.std.specs.Prelude.{◌≡◌};
ghost use Rattle.muck_log.specs.declared.fault.LogFault.TheVariants.{NoMemory, DiskFault as DiskFailed};

use muck_disk::DiskFault;
use muck_model::NoMemory as Refused;
use std::alloc::{AllocError, AllocFailed};

/// Why a log could not be mounted, or a batch not appended.
#[derive(Clone, Copy, Debug, PartialEq, Eq)]
pub enum LogFault {
    /// A call of a disk failed; its count of faults rose.
    DiskFault,
    /// The batch whose gate stands at this place of this file is outside the format.
    Damaged { second: bool, at: u64 },
    /// The batch would begin at `end` and has `more` bytes, which is past the limit.
    StoreFull { end: u64, more: u64 },
    /// A call of a disk failed before, or memory ran out while a batch was laid: the log has to be mounted again.
    Stale,
    NoMemory,
}

impl From<AllocError> for LogFault {
    ghost from_gives = { λ _ e. e ≡ NoMemory };

    fn from(_: AllocError) -> Self {
        LogFault::NoMemory
    }
}

impl<T: Drop> From<AllocFailed<T>> for LogFault {
    ghost from_gives = { λ _ e. e ≡ NoMemory };

    fn from(_: AllocFailed<T>) -> Self {
        LogFault::NoMemory
    }
}

impl From<DiskFault> for LogFault {
    ghost from_gives = { λ _ e. e ≡ DiskFailed };

    fn from(_: DiskFault) -> Self {
        LogFault::DiskFault
    }
}

impl From<Refused> for LogFault {
    ghost from_gives = { λ _ e. e ≡ NoMemory };

    fn from(_: Refused) -> Self {
        LogFault::NoMemory
    }
}
