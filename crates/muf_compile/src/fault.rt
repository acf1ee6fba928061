// Why a program can't be compiled.
ghost use Rattle.std.specs.Prelude.{◌≡◌};
ghost use Rattle.muf_compile.specs.Faults.{compile_fault_number};

use muck_model::NoMemory;
use std::alloc::{AllocError, AllocFailed};

/// Why a program is refused.
#[derive(Clone, Copy, Debug, PartialEq, Eq)]
pub enum CompileKind {
    /// A word that means nothing, or a primitive that isn't there yet.
    UnknownWord,
    /// An IF that isn't closed by a THEN.
    UnclosedIf,
    /// An ELSE or THEN without its IF, or a second ELSE.
    StrayElse,
    /// A BEGIN, FOR or FOREACH that isn't closed.
    UnclosedLoop,
    /// A BREAK, CONTINUE, WHILE, UNTIL or REPEAT outside loops.
    StrayBreak,
    /// A TRY or CATCH that isn't closed, or a CATCH or ENDCATCH without its TRY.
    UnclosedTry,
    /// No word, or a word without its end.
    NoWord,
    /// A name that is taken.
    DoubleName,
    /// A declaration without a fit name, a header without its end, or a declaration where none may stand.
    BadHeader,
    /// More than 65,536 instructions, or more than 64 variables.
    TooLong,
}

impl CompileKind {
    /// The number by which a user knows it.
    pub fn number(self) -> u8
        ensures { result ≡ compile_fault_number self }
    {
        match self {
            CompileKind::UnknownWord => 30,
            CompileKind::UnclosedIf => 31,
            CompileKind::StrayElse => 32,
            CompileKind::UnclosedLoop => 33,
            CompileKind::StrayBreak => 34,
            CompileKind::UnclosedTry => 35,
            CompileKind::NoWord => 36,
            CompileKind::DoubleName => 37,
            CompileKind::BadHeader => 38,
            CompileKind::TooLong => 39,
        }
    }
}

/// A refusal, with the number of the line that it speaks of.
#[derive(Clone, Copy, Debug, PartialEq, Eq)]
pub struct Refusal {
    pub line: u32,
    pub kind: CompileKind,
}

/// Why a program was not compiled.
#[derive(Clone, Copy, Debug, PartialEq, Eq)]
pub enum CompileFault {
    Refused(Refusal),
    NoMemory,
}

impl CompileFault {
    /// The refusal of this kind at this line.
    pub(crate) fn at(line: u32, kind: CompileKind) -> CompileFault
        ensures { result ≡ CompileFault.Refused (record { line = line; kind = kind }) }
    {
        CompileFault::Refused(Refusal { line, kind })
    }
}

impl From<NoMemory> for CompileFault {
    ghost use Rattle.std.specs.Prelude.{◌≡◌};
    ghost use Rattle.muf_compile.specs.declared.fault.CompileFault.TheVariants.{NoMemory};

    ghost from_gives = { λ _ e. e ≡ NoMemory };

    fn from(_: NoMemory) -> Self {
        CompileFault::NoMemory
    }
}

impl From<AllocError> for CompileFault {
    ghost use Rattle.std.specs.Prelude.{◌≡◌};
    ghost use Rattle.muf_compile.specs.declared.fault.CompileFault.TheVariants.{NoMemory};

    ghost from_gives = { λ _ e. e ≡ NoMemory };

    fn from(_: AllocError) -> Self {
        CompileFault::NoMemory
    }
}

impl<T: Drop> From<AllocFailed<T>> for CompileFault {
    ghost use Rattle.std.specs.Prelude.{◌≡◌};
    ghost use Rattle.muf_compile.specs.declared.fault.CompileFault.TheVariants.{NoMemory};

    ghost from_gives = { λ _ e. e ≡ NoMemory };

    fn from(_: AllocFailed<T>) -> Self {
        CompileFault::NoMemory
    }
}
