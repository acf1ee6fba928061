// The instructions that are made so far, and what is open.
ghost use Rattle.std.specs.Prelude.{◌≡◌, ◌+◌, ◌<◌, ◌≤◌, [], ◌∷◌, ◌++◌, length, OnOk, OnErr, IfOk, IfNone, option_to_list, slice_set};
ghost use Rattle.muf_compile.specs.Faults.{Leads, Answers};
ghost use Rattle.muf_compile.specs.inner.Built.{Built};
ghost use Rattle.muf_compile.specs.inner.Build as building;
ghost use Rattle.muf_compile.specs.inner.Build.{build};
ghost use Rattle.muf_compile.specs.inner.Compiled.{whole_code};
ghost use Rattle.muf_compile.specs.Growth.{widened};

use crate::act::{Act, Opening};
use crate::hole::{Hole, Pending};
use crate::{CompileFault, CompileKind};
use muck_model::{NoMemory, Row};
use muf_model::{Closer, Code, CodeWord, Instr, Offer, Placed, Text, Word};
use std::alloc::Global;
use std::marker::Model;

/// The code so far: its instructions and its words, the name of the present word and the place where it begins, and
/// what is open.
#[derive(Drop)]
pub(crate) struct Builder {
    code: Vec<Placed>,
    words: Vec<CodeWord>,
    title: Text,
    start: usize,
    pending: Vec<Pending>,
}

impl Model for Builder {
    ghost use Rattle.std.specs.Prelude.{reverse};
    ghost use Rattle.muf_compile.specs.inner.Built.{Built};

    ghost Value = { Built };

    ghost view = { λ b. record { code = b.code.items; words = b.words.items; title = b.title; start = b.start; pending = reverse b.pending.items } };
}

// What a word opens with its instruction at a hole.
fn pending_of(opening: Opening, hole: Hole) -> Pending
    ensures { result ≡ building.opened opening hole }
{
    match opening {
        Opening::If => Pending::If(hole),
        Opening::Try => Pending::Try(hole),
        Opening::Begin => Pending::Begin(hole),
        Opening::For => Pending::For(hole),
        Opening::Each => Pending::Each(hole),
    }
}

// Why a word can't stand that closes nothing, where this is open innermost.
fn misfit(stray: CompileKind, innermost: Option<Pending>) -> CompileKind
    ensures { result ≡ building.misfit stray (option_to_list innermost) }
{
    match innermost {
        Some(pending) => pending.unclosed(),
        None => stray,
    }
}

// What is offered to all stays so.
fn widened(before: Offer, offer: Offer) -> Offer
    ensures { result ≡ widened before offer }
{
    match (before, offer) {
        (Offer::All, _) | (_, Offer::All) => Offer::All,
        (Offer::Wizards, _) | (_, Offer::Wizards) => Offer::Wizards,
        (Offer::Nobody, Offer::Nobody) => Offer::Nobody,
    }
}

impl Builder {
    /// No code, with an empty name.
    pub fn new(alloc: Global, title: Text) -> Builder
        ensures { result ≡ record { code = []; words = []; title = title; start = 0; pending = [] } }
    {
        Builder {
            code: Vec::new(alloc),
            words: Vec::new(alloc),
            title,
            start: 0,
            pending: Vec::new(alloc),
        }
    }

    // The place of the next instruction.
    fn here(&self) -> usize
        ensures value { result ≡ length self.now.code }
        ensures small { result < 9223372036854775808 }
    {
        self.code.len()
    }

    // One instruction more.
    fn emit(&mut self, line: u32, instr: Instr) -> Result<(), NoMemory>
        ensures { OnOk result (self.new ≡ record self.old { code = building.emitted self.old.code line instr }) }
    {
        match self.code.push(Placed { line, instr }) {
            Ok(()) => Ok(()),
            Err(_) => Err(NoMemory),
        }
    }

    // Writes the instruction of a hole.
    fn patch(&mut self, hole: Hole, instr: Instr)
        ensures { self.new ≡ record self.old { code = building.patched self.old.code hole instr } }
    {
        if hole.at < self.code.len() {
            self.code[hole.at] = Placed {
                line: hole.line,
                instr,
            };
        }
    }

    // One more is open.
    fn push(&mut self, pending: Pending) -> Result<(), NoMemory>
        ensures { OnOk result (self.new ≡ record self.old { pending = pending ∷ self.old.pending }) }
    {
        match self.pending.push(pending) {
            Ok(()) => Ok(()),
            Err(_) => Err(NoMemory),
        }
    }

    // The innermost one is open no more.
    fn pop(&mut self) -> Option<Pending>
        ensures some { self.old ≡ record self.new { pending = option_to_list result ++ self.new.pending } }
        ensures none { IfNone result (self.old.pending ≡ []) }
    {
        self.pending.pop()
    }

    // Whether a loop is open.
    #[tactic(auto, using(crate::proofs::Pendings::last_first))]
    fn in_loop(&self) -> bool
        ensures { result ≡ building.in_loop self.now.pending }
    {
        match self.pending.as_slice().split_last() {
            Some((innermost, _)) => innermost.is_looping(),
            None => false,
        }
    }

    // A word opens a choice, a TRY or a loop.
    fn open(&mut self, line: u32, opening: Opening) -> Result<(), NoMemory>
        ensures { OnOk result (self.new ≡ building.open_code line opening self.old) }
    {
        let hole = Hole {
            at: self.here(),
            line,
            looping: self.in_loop(),
        };
        self.emit(line, Instr::Unset)?;
        self.push(pending_of(opening, hole))?;
        match opening {
            Opening::For => self.emit(line, Instr::Plain(Word::NextIndex))?,
            Opening::Each => self.emit(line, Instr::Plain(Word::NextPair))?,
            Opening::If | Opening::Try | Opening::Begin => {}
        }
        Ok(())
    }

    // An item that stands in loops alone.
    fn add_jump(&mut self, line: u32, word: Word) -> Result<(), CompileFault>
        ensures { Leads (build line (Act.Jump word) self.old) result self.new }
    {
        if !self.in_loop() {
            return Err(CompileFault::at(line, CompileKind::StrayBreak));
        }
        self.emit(line, Instr::Plain(word))?;
        Ok(())
    }

    // ELSE: IF leads behind it, and it leads behind its THEN.
    fn add_else(&mut self, line: u32) -> Result<(), CompileFault>
        ensures { Leads (building.else_code line self.old self.old.pending) result self.new }
    {
        let hole = match self.pop() {
            Some(Pending::If(hole)) => hole,
            Some(Pending::Else(_)) => return Err(CompileFault::at(line, CompileKind::StrayElse)),
            other => return Err(CompileFault::at(line, misfit(CompileKind::StrayElse, other))),
        };
        let here = self.here();
        self.emit(line, Instr::Unset)?;
        self.patch(hole, Instr::IfElse(here + 1));
        self.push(Pending::Else(Hole {
            at: here,
            line,
            looping: hole.looping,
        }))?;
        Ok(())
    }

    // CATCH: a fault in the block leads behind it, and it leads behind its ENDCATCH.
    fn add_catch(&mut self, line: u32) -> Result<(), CompileFault>
        ensures { Leads (building.catch_code line self.old self.old.pending) result self.new }
    {
        let hole = match self.pop() {
            Some(Pending::Try(hole)) => hole,
            other => return Err(CompileFault::at(line, misfit(CompileKind::UnclosedTry, other))),
        };
        let here = self.here();
        self.emit(line, Instr::Unset)?;
        self.patch(hole, Instr::Try(here + 1));
        self.push(Pending::Catch(Hole {
            at: here,
            line,
            looping: hole.looping,
        }))?;
        Ok(())
    }

    // THEN: what it closes leads here.
    fn add_then(&mut self, line: u32) -> Result<(), CompileFault>
        ensures { Leads (building.then_code line self.old self.old.pending) result self.new }
    {
        let here = self.here();
        match self.pop() {
            Some(Pending::If(hole)) => self.patch(hole, Instr::When(here)),
            Some(Pending::Else(hole)) => self.patch(hole, Instr::Else(here)),
            other => return Err(CompileFault::at(line, misfit(CompileKind::StrayElse, other))),
        }
        Ok(())
    }

    // ENDCATCH: the CATCH leads here.
    fn add_end_catch(&mut self, line: u32) -> Result<(), CompileFault>
        ensures { Leads (building.end_catch_code line self.old self.old.pending) result self.new }
    {
        let here = self.here();
        match self.pop() {
            Some(Pending::Catch(hole)) => self.patch(hole, Instr::Catch(here)),
            other => return Err(CompileFault::at(line, misfit(CompileKind::UnclosedTry, other))),
        }
        Ok(())
    }

    // REPEAT: the loop leads behind it.
    fn add_repeat(&mut self, line: u32) -> Result<(), CompileFault>
        ensures { Leads (building.repeat_code line self.old self.old.pending) result self.new }
    {
        let behind = self.here() + 1;
        let (hole, instr) = match self.pop() {
            Some(Pending::Begin(hole)) => (hole, Instr::Begin(behind)),
            Some(Pending::For(hole)) => (hole, Instr::For(behind)),
            Some(Pending::Each(hole)) => (hole, Instr::Each(behind)),
            other => return Err(CompileFault::at(line, misfit(CompileKind::StrayBreak, other))),
        };
        self.emit(line, Instr::Close(Closer::Repeat))?;
        self.patch(hole, instr);
        Ok(())
    }

    // UNTIL: the loop leads behind it.
    fn add_until(&mut self, line: u32) -> Result<(), CompileFault>
        ensures { Leads (building.until_code line self.old self.old.pending) result self.new }
    {
        let behind = self.here() + 1;
        let hole = match self.pop() {
            Some(Pending::Begin(hole)) => hole,
            other => return Err(CompileFault::at(line, misfit(CompileKind::StrayBreak, other))),
        };
        self.emit(line, Instr::Close(Closer::Until))?;
        self.patch(hole, Instr::Begin(behind));
        Ok(())
    }

    // `;` ends the word, whose calls have so many variables.
    fn end_word(&mut self, line: u32, variables: usize) -> Result<(), CompileFault>
        ensures { Leads (building.end_code line variables self.old self.old.pending) result self.new }
    {
        if let Some(pending) = self.pop() {
            return Err(CompileFault::at(line, pending.unclosed()));
        }
        let behind = self.here() + 1;
        self.emit(line, Instr::Close(Closer::Semicolon))?;
        let name = self.title.share()?;
        self.words.push(CodeWord {
            name,
            offer: Offer::Nobody,
            variables,
            start: self.start,
        })?;
        self.start = behind;
        Ok(())
    }

    // The word of this number is offered.
    #[tactic(auto, using(crate::proofs::Offers::offers))]
    fn offer(&mut self, number: u32, offer: Offer)
        ensures { self.new ≡ record self.old { words = building.offered_in number offer self.old.words } }
    {
        let number = number as usize;
        if number < self.words.len() {
            let offer = widened(self.words[number].offer, offer);
            self.words[number].offer = offer;
        }
    }

    /// Adds what an act of this line makes, and writes the targets that it makes known.
    pub fn build(&mut self, line: u32, act: Act) -> Result<(), CompileFault>
        ensures { Leads (build line act self.old) result self.new }
    {
        match act {
            Act::Wait => {}
            Act::Title(name) => self.title = name,
            Act::Item(word) => self.emit(line, Instr::Plain(word))?,
            Act::Jump(word) => self.add_jump(line, word)?,
            Act::Open(opening) => self.open(line, opening)?,
            Act::Else => self.add_else(line)?,
            Act::Then => self.add_then(line)?,
            Act::Catch => self.add_catch(line)?,
            Act::EndCatch => self.add_end_catch(line)?,
            Act::Repeat => self.add_repeat(line)?,
            Act::Until => self.add_until(line)?,
            Act::End(variables) => self.end_word(line, variables)?,
            Act::Offer(number, offer) => self.offer(number, offer),
        }
        Ok(())
    }

    /// How many words there are.
    pub fn word_count(&self) -> usize
        ensures { result ≡ length self.now.words }
    {
        self.words.len()
    }

    /// Why the present word can't end here.
    #[tactic(auto, using(crate::proofs::Pendings::last_misfit))]
    pub fn open_kind(&self) -> CompileKind
        ensures { result ≡ building.misfit CompileKind.NoWord self.now.pending }
    {
        match self.pending.as_slice().split_last() {
            Some((innermost, _)) => innermost.unclosed(),
            None => CompileKind::NoWord,
        }
    }

    /// The code of the whole program, with so many variables; its last word stands at this line.
    pub fn finish(self, last: u32, variables: usize) -> Result<Code, CompileFault>
        ensures { Answers (whole_code last variables self.code self.words) result }
    {
        if self.words.is_empty() {
            return Err(CompileFault::at(last, CompileKind::NoWord));
        }
        Ok(Code {
            placed: Row::of(self.code),
            words: Row::of(self.words),
            variables,
        })
    }
}
