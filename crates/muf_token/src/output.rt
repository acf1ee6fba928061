// The words that come out.
ghost use Rattle.std.specs.Prelude.{◌≡◌, IfOk, ◌≤◌, length, [], None};
ghost use Rattle.muf_token.specs.Numbers.{token_kind};
ghost use Rattle.muf_token.specs.Output.{Leads, word_put, definition_used};

use crate::fault::refused;
use crate::number::kind_of;
use crate::{FaultKind, Token, TokenFault, TokenKind, TokenList};
use muck_model::{Line, NoMemory};
use std::alloc::Global;

// The most words that a source has.
const WORDS_MOST: usize = 65_536;

// The most uses of definitions in a source.
const USES_MOST: u32 = 65_536;

/// The words that came out so far, and how many uses of definitions were replaced.
#[derive(Drop)]
pub(crate) struct Output {
    pub words: TokenList,
    pub uses: u32,
}

impl Output {
    /// Puts a word out; none stands for a number that 32 bits don't hold.
    #[tactic(auto, unfolding(crate::specs::Output::words_most))]
    pub fn put(&mut self, line: u32, kind: Option<TokenKind>) -> Result<(), TokenFault>
        ensures { Leads (word_put line kind self.old) result self.new }
    {
        if self.words.len() >= WORDS_MOST {
            return Err(refused(line, FaultKind::TooManyWords));
        }
        let Some(kind) = kind else {
            return Err(refused(line, FaultKind::BadNumber));
        };
        self.words.push(Token { line, kind })?;
        Ok(())
    }

    /// Counts one use of a definition more.
    #[tactic(auto, unfolding(crate::specs::Output::uses_most))]
    pub fn count_use(&mut self, line: u32) -> Result<(), TokenFault>
        ensures { Leads (definition_used line self.old) result self.new }
    {
        if self.uses >= USES_MOST {
            return Err(refused(line, FaultKind::TooManyWords));
        }
        self.uses += 1;
        Ok(())
    }
}
