// A text as it is sent.
ghost use Rattle.std.specs.Prelude.{◌≡◌, ◌<◌, ◌≤◌, ◌++◌, IfOk, OnOk, length};
ghost use Rattle.std.specs.List.{AllByRecursion};
ghost use Rattle.spec_live.specs.Output.{sent_form, sent_lines_bytes, sent_lines};
ghost use Rattle.muck_board.specs.inner.Sent.{IsLine, sent_most};

use crate::split::{cut, cut_piece};
use muck_model::NoMemory;
use std::alloc::Global;
use std::marker::Model;

/// The lines of a text, each with its end, one behind the other. Contracts see the lines.
#[derive(Drop)]
pub struct Sent {
    bytes: Vec<u8>,
}

impl Model for Sent {
    ghost use Rattle.std.specs.Prelude.{◌<◌, ◌≤◌, List, ℕ, length};
    ghost use Rattle.muck_board.specs.inner.Sent.{lines_in, IsLines, sent_most};

    ghost Value = { List (List ℕ) };

    ghost view = { λ s. lines_in s.bytes.items };

    ghost invariant = { λ s. IsLines s.bytes.items × (0 < length s.bytes.items) × (length s.bytes.items ≤ sent_most) };
}

// Puts a line at the end, with its own end.
fn add_line(bytes: &mut Vec<u8>, line: &[u8]) -> Result<(), NoMemory>
    ensures { OnOk result (bytes.new.items ≡ bytes.old.items ++ sent_form line.now) }
{
    bytes.extend_from_slice(line)?;
    bytes.push(b'\r')?;
    bytes.push(b'\n')?;
    Ok(())
}

impl Sent {
    /// The front of a text, with a line for each piece between bytes 13.
    pub fn of_text(alloc: Global, text: &[u8]) -> Result<Sent, NoMemory>
        ensures { IfOk result (λ sent. sent ≡ sent_lines text.now) }
    {
        let front = cut(text);
        let mut bytes = Vec::with_capacity(alloc, 2 * front.len() + 2)?;
        let mut rest = Some(front);
        while let Some(pieces) = rest {
            let (piece, others) = cut_piece(pieces);
            add_line(&mut bytes, piece)?;
            rest = others;
        }
        Ok(Sent { bytes })
    }

    /// The bytes that are sent.
    pub fn as_slice(&self) -> &[u8]
        ensures bytes { result.now ≡ sent_lines_bytes self.now }
        ensures each { AllByRecursion IsLine self.now }
        ensures some { 0 < length result.now }
        ensures most { length result.now ≤ sent_most }
    {
        &self.bytes
    }
}
