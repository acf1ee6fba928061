// What a word of a source asks for, once its name is understood.
ghost use Rattle.std.specs.Prelude.{◌≡◌, ◌≤◌};
ghost use Rattle.muf_compile.specs.Acts.{cost_of};

use muf_model::{Offer, Text, Word};

/// A word that opens a choice, a TRY or a loop.
#[derive(Clone, Copy)]
pub(crate) enum Opening {
    If,
    Try,
    Begin,
    For,
    Each,
}

/// What a word of a source asks for.
#[derive(Drop)]
pub(crate) enum Act {
    /// Nothing by itself.
    Wait,
    /// A word of this name begins.
    Title(Text),
    /// An item.
    Item(Word),
    /// An item that stands in loops alone.
    Jump(Word),
    /// A choice, a TRY or a loop begins.
    Open(Opening),
    Else,
    Then,
    Catch,
    EndCatch,
    Repeat,
    Until,
    /// The word ends; each call of it has so many variables.
    End(usize),
    /// The word of this number is offered to other programs.
    Offer(u32, Offer),
}

/// An act, with the line of the word that it comes from.
#[derive(Drop)]
pub(crate) struct Reading {
    pub line: u32,
    pub act: Act,
}

/// How many instructions an act makes that take a unit.
pub(crate) fn cost_of(act: &Act) -> usize
    ensures value { result ≡ cost_of act.now }
    ensures few { result ≤ 2 }
{
    match act {
        Act::Wait | Act::Title(_) | Act::Then | Act::EndCatch | Act::Offer(_, _) => 0,
        Act::Open(Opening::Begin) => 0,
        Act::Open(Opening::For | Opening::Each) => 2,
        _ => 1,
    }
}
