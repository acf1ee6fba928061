// Why a body could not be read.
ghost use Rattle.std.specs.Prelude.{◌≡◌};
ghost use Rattle.muck_bodies.specs.declared.fault.BodyFault.TheVariants.{NoMemory, DiskFault as DiskFailed};

use muck_disk::DiskFault;
use std::alloc::AllocError;

/// Why a body could not be read.
#[derive(Clone, Copy, Debug, PartialEq, Eq)]
pub enum BodyFault {
    /// A call of the disk failed; its count of faults rose.
    DiskFault,
    NoMemory,
}

impl From<DiskFault> for BodyFault {
    ghost from_gives = { λ _ e. e ≡ DiskFailed };

    fn from(_: DiskFault) -> Self {
        BodyFault::DiskFault
    }
}

impl From<AllocError> for BodyFault {
    ghost from_gives = { λ _ e. e ≡ NoMemory };

    fn from(_: AllocError) -> Self {
        BodyFault::NoMemory
    }
}
