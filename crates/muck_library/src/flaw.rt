// Why a program can't be built.
use muck_model::NoMemory;
use muf_compile::CompileFault;
use muf_token::TokenFault;

/// Why the source of a program is refused.
#[derive(Clone, Copy, Debug, PartialEq, Eq)]
pub struct Flaw {
    /// The number by which a user knows the reason: 20 to 26 where the source can't be read, 30 to 39 where its words
    /// can't be compiled.
    pub number: u8,
    /// The line that it speaks of, from 1.
    pub line: u32,
}

/// Why there is no code of a program.
#[derive(Clone, Copy, Debug, PartialEq, Eq)]
pub enum BuildFault {
    /// The source is refused.
    Refused(Flaw),
    NoMemory,
}

impl From<NoMemory> for BuildFault {
    ghost use Rattle.std.specs.Prelude.{◌≡◌};
    ghost use Rattle.muck_library.specs.declared.flaw.BuildFault.TheVariants.{NoMemory};

    ghost from_gives = { λ _ e. e ≡ NoMemory };

    fn from(_: NoMemory) -> Self {
        BuildFault::NoMemory
    }
}

impl From<TokenFault> for BuildFault {
    ghost use Rattle.std.specs.Prelude.{◌≡◌};
    ghost use Rattle.muck_library.specs.Flaws.{fault_of_reading};

    ghost from_gives = { λ fault e. e ≡ fault_of_reading fault };

    fn from(fault: TokenFault) -> Self {
        match fault {
            TokenFault::Refused(refusal) => BuildFault::Refused(Flaw {
                number: refusal.kind.number(),
                line: refusal.line,
            }),
            TokenFault::NoMemory => BuildFault::NoMemory,
        }
    }
}

impl From<CompileFault> for BuildFault {
    ghost use Rattle.std.specs.Prelude.{◌≡◌};
    ghost use Rattle.muck_library.specs.Flaws.{fault_of_compiling};

    ghost from_gives = { λ fault e. e ≡ fault_of_compiling fault };

    fn from(fault: CompileFault) -> Self {
        match fault {
            CompileFault::Refused(refusal) => BuildFault::Refused(Flaw {
                number: refusal.kind.number(),
                line: refusal.line,
            }),
            CompileFault::NoMemory => BuildFault::NoMemory,
        }
    }
}
