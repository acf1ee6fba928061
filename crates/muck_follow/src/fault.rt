// Why following a store ended early.
ghost use Rattle.std.specs.Prelude.{◌≡◌};
ghost use Rattle.muck_follow.specs.inner.Faults.{fault_of};
ghost use Rattle.muck_follow.specs.declared.fault.FollowFault.TheVariants.{NoMemory, DiskFault as DiskFailed, WriteFault};

use muck_bodies::BodyFault;
use muck_disk::DiskFault;
use muck_io::WriteFailed;
use muck_model::NoMemory as Refused;

/// Why following a store ended before its script did.
#[derive(Clone, Copy, Debug, PartialEq, Eq)]
pub enum FollowFault {
    NoMemory,
    /// A call of a disk failed; its count of faults rose.
    DiskFault,
    /// The sink failed; its count of faults rose.
    WriteFault,
}

impl From<Refused> for FollowFault {
    ghost from_gives = { λ _ e. e ≡ NoMemory };

    fn from(_: Refused) -> Self {
        FollowFault::NoMemory
    }
}

impl From<DiskFault> for FollowFault {
    ghost from_gives = { λ _ e. e ≡ DiskFailed };

    fn from(_: DiskFault) -> Self {
        FollowFault::DiskFault
    }
}

impl From<WriteFailed> for FollowFault {
    ghost from_gives = { λ _ e. e ≡ WriteFault };

    fn from(_: WriteFailed) -> Self {
        FollowFault::WriteFault
    }
}

impl From<BodyFault> for FollowFault {
    ghost from_gives = { λ f e. e ≡ fault_of f };

    fn from(fault: BodyFault) -> Self {
        match fault {
            BodyFault::DiskFault => FollowFault::DiskFault,
            BodyFault::NoMemory => FollowFault::NoMemory,
        }
    }
}
