// What rows are tried on.
use crate::{built, codes, tokens};
use muck_model::NoMemory;
use std::alloc::Global;
use tests_rows::Rows;

/// Nothing is kept from row to row.
#[derive(Drop)]
pub struct Sources {
    alloc: Global,
}

impl Sources {
    /// Rows that are answered with this memory.
    pub fn new(alloc: Global) -> Sources {
        Sources { alloc }
    }
}

impl Rows for Sources {
    fn row(&mut self, word: &[u8], rest: &[u8]) -> Result<Option<Vec<u8>>, NoMemory> {
        let alloc = self.alloc;
        let text = match word {
            b"tokens" => tokens::tokens_row(alloc, rest),
            b"count" => tokens::count_row(alloc, rest, 1),
            b"count-4096" => tokens::count_row(alloc, rest, 4096),
            b"code" => codes::code_row(alloc, rest),
            b"build" => built::build_row(alloc, rest),
            b"forms" => built::forms_row(alloc, rest),
            _ => return Ok(None),
        };
        Ok(Some(text?))
    }
}
