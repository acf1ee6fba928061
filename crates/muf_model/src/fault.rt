// The faults of a running program.
ghost use Rattle.std.specs.Prelude.{◌≡◌, None, IfOk};
ghost use Rattle.muck_model.specs.Bytes.{text_fault};
ghost use Rattle.muf_model.specs.declared.fault.MufFault.TheVariants.{Denied};
ghost use Rattle.muf_model.specs.Faults.{number_of, fault_text, is_final, IsFixedText};

use crate::Text;
use muck_model::{Line, LineFault, NoMemory};
use std::alloc::Global;

/// Why a unit of a program is refused.
#[derive(Drop)]
pub enum MufFault {
    /// Fewer items than needed are on the stack.
    StackEmpty,
    /// The stack would pass its most items.
    StackFull,
    /// Enough items are there, but too few of them above the part that a TRY locks.
    StackLocked,
    /// Too many calls, or too many open loops and TRYs.
    CallsFull,
    /// An item is of the wrong kind.
    BadType,
    /// An item is of the right kind and not allowed.
    BadArgument,
    /// An object isn't there.
    NoSuchObject,
    /// The rule of this number denies it.
    Denied(u8),
    /// The process has taken too many units since it last waited.
    TooManyUnits,
    /// A preempt section has taken too many units.
    PreemptTooLong,
    /// A program that is called doesn't compile.
    NotCompiled,
    /// A word isn't offered to the caller.
    NotPublic,
    /// An address is of another program, or of no word.
    BadAddress,
    /// A time to sleep is negative.
    BadSleep,
    /// A process without connection would read a line.
    CannotRead,
    /// The queue has no room for a process.
    ProcessLimit,
    /// A text would be too long.
    TextTooLong,
    /// A list or dictionary would be too large or too deep, or too many events wait.
    TooHeavy,
    /// The program itself gave up, with this text.
    Aborted(Text),
    /// The world has no room for an object.
    WorldFull,
}

impl MufFault {
    /// Its number.
    pub fn number(&self) -> u8
        ensures { result ≡ number_of self.now }
    {
        match self {
            MufFault::StackEmpty => 40,
            MufFault::StackFull => 41,
            MufFault::StackLocked => 42,
            MufFault::CallsFull => 43,
            MufFault::BadType => 44,
            MufFault::BadArgument => 45,
            MufFault::NoSuchObject => 46,
            MufFault::Denied(_) => 47,
            MufFault::TooManyUnits => 48,
            MufFault::PreemptTooLong => 49,
            MufFault::NotCompiled => 50,
            MufFault::NotPublic => 51,
            MufFault::BadAddress => 52,
            MufFault::BadSleep => 53,
            MufFault::CannotRead => 54,
            MufFault::ProcessLimit => 55,
            MufFault::TextTooLong => 56,
            MufFault::TooHeavy => 57,
            MufFault::Aborted(_) => 58,
            MufFault::WorldFull => 59,
        }
    }

    /// Whether it ends the process even inside a TRY.
    pub fn is_final(&self) -> bool
        ensures { result ≡ is_final self.now }
    {
        matches!(self, MufFault::TooManyUnits | MufFault::PreemptTooLong)
    }

    // Its text, where that is the same for each fault of its number.
    fn fixed_text(&self) -> &'static [u8]
        ensures { IsFixedText self.now result.now }
    {
        match self {
            MufFault::StackEmpty => b"Stack underflow.",
            MufFault::StackFull => b"Stack overflow.",
            MufFault::StackLocked => b"Stack protection fault.",
            MufFault::CallsFull => b"Call stack overflow.",
            MufFault::BadType => b"Wrong type of argument.",
            MufFault::BadArgument => b"Invalid argument.",
            MufFault::NoSuchObject => b"Invalid object.",
            MufFault::TooManyUnits => b"Too many instructions.",
            MufFault::PreemptTooLong => b"Preempt section too long.",
            MufFault::NotCompiled => b"Program not compiled.",
            MufFault::NotPublic => b"Word not public.",
            MufFault::BadAddress => b"Invalid address.",
            MufFault::BadSleep => b"Sleep of negative time.",
            MufFault::CannotRead => b"Read in background.",
            MufFault::ProcessLimit => b"Too many processes.",
            MufFault::TextTooLong => b"Text too long.",
            MufFault::TooHeavy => b"Value too large.",
            MufFault::WorldFull => b"World full.",
            MufFault::Denied(_) | MufFault::Aborted(_) => b"",
        }
    }

    /// Its text, which a TRY that catches it gets to see.
    pub fn text(&self, alloc: Global) -> Result<Text, NoMemory>
        ensures { IfOk result (λ text. text ≡ fault_text self.now) }
    {
        match self {
            MufFault::Aborted(text) => text.share(),
            MufFault::Denied(rule) => denial_text(alloc, *rule),
            other => known_text(alloc, other.fixed_text()),
        }
    }
}

// The text of these bytes, which are one.
fn known_text(alloc: Global, bytes: &[u8]) -> Result<Text, NoMemory>
    requires { text_fault bytes.now ≡ None }
    ensures { IfOk result (λ text. text ≡ bytes.now) }
{
    match Line::new(alloc, bytes) {
        Ok(line) => Text::new(alloc, line),
        Err(LineFault::NoMemory) => Err(NoMemory),
        Err(LineFault::NotLine { .. }) => unreachable!(),
    }
}

// What a denial by a rule says.
#[tactic(auto, using(crate::proofs::FaultTexts::denied_is_text))]
fn denial_text(alloc: Global, rule: u8) -> Result<Text, NoMemory>
    ensures { IfOk result (λ text. text ≡ fault_text (Denied rule)) }
{
    let bytes = format!(in alloc; "Permission denied (P{rule}).")?;
    known_text(alloc, bytes.as_bytes())
}
