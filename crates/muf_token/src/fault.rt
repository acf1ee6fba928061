// Why a source can't be read.
ghost use Rattle.std.specs.Prelude.{◌≡◌};
ghost use Rattle.muf_token.specs.declared.fault.TokenFault.TheVariants.{Refused};
ghost use Rattle.muf_token.specs.Faults.{token_fault_number};

use muck_model::NoMemory;
use std::alloc::{AllocError, AllocFailed};

/// Why a source is refused.
#[derive(Clone, Copy, Debug, PartialEq, Eq)]
pub enum FaultKind {
    /// A text that doesn't end on its line.
    OpenString,
    /// A comment that doesn't end.
    OpenComment,
    /// A directive that isn't known, lacks its name, has no end, or has nothing that it could end.
    BadDirective,
    /// More than 64 definitions, one within another.
    EndlessDefs,
    /// More than 65,536 words, or as many uses of definitions.
    TooManyWords,
    /// A number that 32 bits don't hold.
    BadNumber,
    /// The definitions of an object that isn't there.
    UnknownInclude,
}

impl FaultKind {
    /// The number by which a user knows it.
    pub fn number(self) -> u8
        ensures { result ≡ token_fault_number self }
    {
        match self {
            FaultKind::OpenString => 20,
            FaultKind::OpenComment => 21,
            FaultKind::BadDirective => 22,
            FaultKind::EndlessDefs => 23,
            FaultKind::TooManyWords => 24,
            FaultKind::BadNumber => 25,
            FaultKind::UnknownInclude => 26,
        }
    }
}

/// A refusal, with the number of the line that it speaks of.
#[derive(Clone, Copy, Debug, PartialEq, Eq)]
pub struct Refusal {
    pub line: u32,
    pub kind: FaultKind,
}

/// Why a source was not read.
#[derive(Clone, Copy, Debug, PartialEq, Eq)]
pub enum TokenFault {
    Refused(Refusal),
    NoMemory,
}

// Refused for this, at this line.
pub(crate) fn refused(line: u32, kind: FaultKind) -> TokenFault
    ensures { result ≡ Refused (record { line = line; kind = kind }) }
{
    TokenFault::Refused(Refusal { line, kind })
}

impl From<NoMemory> for TokenFault {
    ghost use Rattle.std.specs.Prelude.{◌≡◌};
    ghost use Rattle.muf_token.specs.declared.fault.TokenFault.TheVariants.{NoMemory};

    ghost from_gives = { λ _ e. e ≡ NoMemory };

    fn from(_: NoMemory) -> Self {
        TokenFault::NoMemory
    }
}

impl From<AllocError> for TokenFault {
    ghost use Rattle.std.specs.Prelude.{◌≡◌};
    ghost use Rattle.muf_token.specs.declared.fault.TokenFault.TheVariants.{NoMemory};

    ghost from_gives = { λ _ e. e ≡ NoMemory };

    fn from(_: AllocError) -> Self {
        TokenFault::NoMemory
    }
}

impl<T: Drop> From<AllocFailed<T>> for TokenFault {
    ghost use Rattle.std.specs.Prelude.{◌≡◌};
    ghost use Rattle.muf_token.specs.declared.fault.TokenFault.TheVariants.{NoMemory};

    ghost from_gives = { λ _ e. e ≡ NoMemory };

    fn from(_: AllocFailed<T>) -> Self {
        TokenFault::NoMemory
    }
}

impl From<Refusal> for TokenFault {
    ghost use Rattle.std.specs.Prelude.{◌≡◌};
    ghost use Rattle.muf_token.specs.declared.fault.TokenFault.TheVariants.{Refused};

    ghost from_gives = { λ refusal e. e ≡ Refused refusal };

    fn from(refusal: Refusal) -> Self {
        TokenFault::Refused(refusal)
    }
}
