// What is open in the code so far.
ghost use Rattle.std.specs.Prelude.{◌≡◌};
ghost use Rattle.muf_compile.specs.inner.Build.{is_looping, unclosed};

use crate::CompileKind;

/// An instruction whose target isn't known yet: its place, its line, and whether a loop is open round it.
#[derive(Clone, Copy)]
pub(crate) struct Hole {
    pub at: usize,
    pub line: u32,
    pub looping: bool,
}

/// What is open, with the instruction whose target is not known yet.
#[derive(Clone, Copy)]
pub(crate) enum Pending {
    If(Hole),
    Else(Hole),
    Try(Hole),
    Catch(Hole),
    Begin(Hole),
    For(Hole),
    Each(Hole),
}

impl Pending {
    /// Whether this is a loop, or is open in one.
    pub fn is_looping(self) -> bool
        ensures { result ≡ is_looping self }
    {
        match self {
            Pending::If(hole) | Pending::Else(hole) | Pending::Try(hole) | Pending::Catch(hole) =>
                hole.looping,
            Pending::Begin(_) | Pending::For(_) | Pending::Each(_) => true,
        }
    }

    /// Why it can't stay open.
    pub fn unclosed(self) -> CompileKind
        ensures { result ≡ unclosed self }
    {
        match self {
            Pending::If(_) | Pending::Else(_) => CompileKind::UnclosedIf,
            Pending::Try(_) | Pending::Catch(_) => CompileKind::UnclosedTry,
            Pending::Begin(_) | Pending::For(_) | Pending::Each(_) => CompileKind::UnclosedLoop,
        }
    }
}
