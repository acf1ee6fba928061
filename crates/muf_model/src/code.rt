// Instructions, and the code of a program.
ghost use Rattle.std.specs.Prelude.{◌≡◌, ◌≤◌, length, slice_get, option_copied, option_map, IfNone};
ghost use Rattle.muf_model.specs.Tree.{};

use crate::{Primitive, Text};
use muck_model::{Dbref, Row};

/// The number of a variable: 0 to 3 are ME, LOC, TRIGGER and COMMAND, 4 to 67 those of the program, and those from
/// 68 on belong to the call of a word.
#[derive(Clone, Copy, PartialEq, Eq, Debug)]
pub struct VarId(pub u32);

/// A value that stands in a source.
#[derive(Drop)]
pub enum Literal {
    Int(i32),
    Text(Text),
    Object(Dbref),
}

/// A word of a program that names no place of its code.
#[derive(Drop)]
pub enum Word {
    /// Pushes a value.
    Literal(Literal),
    /// Pushes a variable.
    Variable(VarId),
    /// Pushes the address of a word of the running program.
    Address(u32),
    /// Uses a primitive.
    Primitive(Primitive),
    /// Calls a word of the running program.
    Call(u32),
    /// Binds the arguments of a header, so many of them, to the first variables of the call.
    Bind(u32),
    /// Stores the top item into a variable of the call.
    Store(VarId),
    /// Leaves the word.
    Exit,
    /// Leaves the innermost loop.
    Break,
    /// Begins the next turn of the innermost loop.
    Continue,
    /// Leaves the innermost loop where the top item is false.
    While,
    /// Tests the index of a counted loop, at the head of each turn.
    NextIndex,
    /// Tests the keys of a loop over a collection, at the head of each turn.
    NextPair,
}

/// A word that ends a definition or a loop.
#[derive(Clone, Copy, PartialEq, Eq, Debug)]
pub enum Closer {
    Semicolon,
    Repeat,
    Until,
}

/// One instruction, with at most one target, a place in the same code.
#[derive(Drop)]
pub enum Instr {
    /// A word that names no place.
    Plain(Word),
    /// `;`, REPEAT or UNTIL.
    Close(Closer),
    /// IF without ELSE; the target is behind its part.
    When(usize),
    /// IF with ELSE; the target is behind that ELSE.
    IfElse(usize),
    /// TRY; the target is behind its CATCH.
    Try(usize),
    /// ELSE; the target is behind the second part.
    Else(usize),
    /// CATCH, where the block reaches it; the target is behind the second part.
    Catch(usize),
    /// BEGIN; the target is behind the loop.
    Begin(usize),
    /// FOR; the target is behind the loop.
    For(usize),
    /// FOREACH; the target is behind the loop.
    Each(usize),
    /// An instruction whose target isn't known yet. Finished code has none.
    Unset,
}

/// An instruction, with the line of the token that it comes from.
#[derive(Drop)]
pub struct Placed {
    pub line: u32,
    pub instr: Instr,
}

/// Who may call a word from another program.
#[derive(Clone, Copy, PartialEq, Eq, Debug)]
pub enum Offer {
    Nobody,
    Wizards,
    All,
}

/// A word of a program: its name, who may call it, how many variables a call has, and the place where it begins.
#[derive(Drop)]
pub struct CodeWord {
    pub name: Text,
    pub offer: Offer,
    pub variables: usize,
    pub start: usize,
}

/// The code of a program: its instructions, its words in the order of the source, and how many variables it has.
#[derive(Drop)]
pub struct Code {
    pub placed: Row<Placed>,
    pub words: Row<CodeWord>,
    pub variables: usize,
}

impl Code {
    /// The instruction at a place; `None` exactly from the last one on.
    pub fn get(&self, at: usize) -> Option<&Placed>
        ensures value { option_copied result ≡ slice_get self.now.placed at }
        ensures none { IfNone result (length self.now.placed ≤ at) }
    {
        self.placed.get(at)
    }
}
