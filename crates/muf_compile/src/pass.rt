// One pass over the words of a source, which writes each target once it is known.
ghost use Rattle.std.specs.Prelude.{◌≡◌, ◌+◌, ◌≤◌, length, IfOk};
ghost use Rattle.muf_compile.specs.Acts.{cost_of};
ghost use Rattle.muf_compile.specs.Faults.{Leads, Answers};
ghost use Rattle.muf_model.specs.inner.Decode as decode;
ghost use Rattle.muf_compile.specs.inner.Grammar.{IsProgram};
ghost use Rattle.muf_compile.specs.Growth.{units_added, tree_of};
ghost use Rattle.muf_compile.specs.inner.Compiled.{compiled_of, compiled_step, compiled_end, nothing_compiled};
ghost use Rattle.muf_compile.specs.inner.Fits.{IsCode};

use crate::act::{Reading, cost_of};
use crate::builder::Builder;
use crate::known::empty_text;
use crate::names::{Known, Mode};
use crate::{CompileFault, CompileKind};
use muck_model::NoMemory;
use muf_model::Code;
use muf_token::{Token, TokenList};
use std::alloc::Global;

// The most instructions of a program that take a unit.
const UNITS_MOST: usize = 65_536;

/// A program that is compiled up to a place: what is known there, the code so far, and how many instructions it has
/// that take a unit.
#[derive(Drop)]
pub(crate) struct Compiler {
    pub known: Known,
    pub builder: Builder,
    pub units: usize,
}

impl Compiler {
    // Nothing is compiled.
    fn new(alloc: Global) -> Result<Compiler, NoMemory>
        ensures { IfOk result (λ c. compiled_of c ≡ nothing_compiled) }
    {
        let title = empty_text(alloc)?;
        Ok(Compiler {
            known: Known::new(alloc),
            builder: Builder::new(alloc, title),
            units: 0,
        })
    }

    // So many instructions more that take a unit.
    #[tactic(auto, unfolding(crate::specs::Growth::units_most))]
    fn counted(&self, line: u32, more: usize) -> Result<usize, CompileFault>
        requires most { self.now.units ≤ 65536 }
        requires few { more ≤ 2 }
        ensures { Answers (units_added line more self.now.units) result }
    {
        let units = self.units + more;
        if units > UNITS_MOST {
            return Err(CompileFault::at(line, CompileKind::TooLong));
        }
        Ok(units)
    }

    // One word more.
    fn take(&mut self, alloc: Global, token: &Token) -> Result<(), CompileFault>
        requires words { length self.old.builder.words ≤ 65536 }
        requires most { self.old.units ≤ 65536 }
        ensures { Leads (compiled_step token.now (compiled_of self.old)) result (compiled_of self.new) }
    {
        let number = self.builder.word_count() as u32;
        let Reading { line, act } = self.known.read(alloc, number, token)?;
        let cost = cost_of(&act);
        self.builder.build(line, act)?;
        self.units = self.counted(line, cost)?;
        Ok(())
    }

    // The code of the whole program, whose last word stands at this line.
    fn finish(self, last: u32) -> Result<Code, CompileFault>
        ensures { Answers (compiled_end self.known.mode last (compiled_of self)) result }
    {
        match self.known.mode {
            Mode::Outside => self.builder.finish(last, self.known.variables),
            Mode::Inside => Err(CompileFault::at(last, self.builder.open_kind())),
            Mode::Naming(_) | Mode::Heading(_) | Mode::Results(_) => Err(CompileFault::at(
                last,
                CompileKind::BadHeader,
            )),
        }
    }
}

/// The code of a program in these words, which stands for its tree; or the first word that is refused, its line and
/// why. The tree is written in these words by the rules of the grammar: each token belongs to one declaration, and each
/// item is what its token says wherever it stands.
pub fn compile(alloc: Global, tokens: &TokenList) -> Result<Code, CompileFault>
    ensures code { IsCode (tree_of tokens.now) result }
    ensures written { IfOk result (λ code. IsProgram tokens.now (decode.tree_of code)) }
{
    let mut compiler = Compiler::new(alloc)?;
    let mut last = 1;
    for token in tokens.as_slice() {
        match compiler.take(alloc, token) {
            Ok(()) => {}
            Err(fault) => return Err(fault),
        }
        last = token.line;
    }
    compiler.finish(last)
}
