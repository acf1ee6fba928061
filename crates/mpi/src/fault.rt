// Why a formula fails.
use muck_model::NoMemory;
use std::alloc::{AllocError, AllocFailed};

/// Why a formula fails.
#[derive(Clone, Copy, Debug, PartialEq, Eq, Drop)]
pub enum MpiFault {
    /// The brackets of the text don't balance.
    Unclosed,
    /// No function has this name.
    UnknownFunction,
    /// The function takes fewer or more arguments.
    BadCount,
    /// An argument, an object or a variable isn't what the function takes.
    BadValue,
    /// One command more than are allowed, or functions nested too deeply.
    TooManyCommands,
    /// A text would be too long.
    TooLong,
    /// The rule of this number denies it.
    Denied(u8),
    /// Memory was refused.
    NoMemory,
}

impl From<NoMemory> for MpiFault {
    ghost use Rattle.std.specs.Prelude.{◌≡◌};
    ghost use Rattle.mpi.specs.declared.fault.MpiFault.TheVariants.{NoMemory};

    ghost from_gives = { λ _ e. e ≡ NoMemory };

    fn from(_: NoMemory) -> Self {
        MpiFault::NoMemory
    }
}

impl From<AllocError> for MpiFault {
    ghost use Rattle.std.specs.Prelude.{◌≡◌};
    ghost use Rattle.mpi.specs.declared.fault.MpiFault.TheVariants.{NoMemory};

    ghost from_gives = { λ _ e. e ≡ NoMemory };

    fn from(_: AllocError) -> Self {
        MpiFault::NoMemory
    }
}

impl<T: Drop> From<AllocFailed<T>> for MpiFault {
    ghost use Rattle.std.specs.Prelude.{◌≡◌};
    ghost use Rattle.mpi.specs.declared.fault.MpiFault.TheVariants.{NoMemory};

    ghost from_gives = { λ _ e. e ≡ NoMemory };

    fn from(_: AllocFailed<T>) -> Self {
        MpiFault::NoMemory
    }
}
