// What one line of a script asks for.
ghost use Rattle.std.specs.Prelude.{◌≡◌, ◌==◌, IfOk};
ghost use Rattle.std.specs.List.{list_any};
ghost use Rattle.spec_commands.specs.Texts.{is_space};
ghost use Rattle.muck_script.specs.Script.{act_of, act_asked, sending, line_of, sending_line, connection_number, seconds_of};

use crate::sending::line_of;
use crate::{Act, WAIT_MOST};
use muck_model::{NoMemory, decimal};
use spec_commands::cut_word;
use std::alloc::Global;

/// What a line asks for, or none where it is outside the grammar.
#[tactic(auto, unfolding(crate::specs::Script::act_of))]
pub fn act_of(alloc: Global, line: &[u8]) -> Result<Option<Act>, NoMemory>
    ensures { IfOk result (λ act. act ≡ act_of line.now) }
{
    let Some((first, _)) = line.split_first() else {
        return Ok(Some(Act::Nothing));
    };
    if *first == b'#' {
        return Ok(Some(Act::Nothing));
    }
    asked(alloc, line)
}

fn asked(alloc: Global, line: &[u8]) -> Result<Option<Act>, NoMemory>
    ensures { IfOk result (λ act. act ≡ act_asked line.now) }
{
    if line == b"dump".as_slice() {
        return Ok(Some(Act::Dump));
    }
    let (word, rest) = cut_word(line);
    if word == b"open".as_slice() {
        return Ok(number_of(rest).map(Act::Open));
    }
    if word == b"send".as_slice() {
        return sending(alloc, rest);
    }
    if word == b"close".as_slice() {
        return Ok(number_of(rest).map(Act::Close));
    }
    if word == b"wait".as_slice() {
        return Ok(seconds_of(rest).map(Act::Wait));
    }
    Ok(None)
}

// A number, one space, and the text.
fn sending(alloc: Global, rest: &[u8]) -> Result<Option<Act>, NoMemory>
    ensures { IfOk result (λ act. act ≡ sending rest.now) }
{
    if !has_space(rest) {
        return Ok(None);
    }
    let (number, text) = cut_word(rest);
    match number_of(number) {
        None => Ok(None),
        Some(d) => Ok(Some(sent(alloc, text, d)?)),
    }
}

// That the line of this text comes.
fn sent(alloc: Global, text: &[u8], d: u32) -> Result<Act, NoMemory>
    ensures { IfOk result (λ act. act ≡ sending_line (line_of text.now) d) }
{
    Ok(match line_of(alloc, text)? {
        Some(line) => Act::Send(d, line),
        None => Act::Nothing,
    })
}

fn has_space(text: &[u8]) -> bool
    ensures { result ≡ list_any is_space text.now }
{
    text.iter().any(|b| *b == b' ')
}

// The number of a connection, from 1 to 256.
fn number_of(text: &[u8]) -> Option<u32>
    ensures { result ≡ connection_number text.now }
{
    let n = decimal(text, 256)?;
    if n > 0 { Some(n as u32) } else { None }
}

// A count of seconds, at most a day.
fn seconds_of(text: &[u8]) -> Option<u64>
    ensures { result ≡ seconds_of text.now }
{
    decimal(text, WAIT_MOST)
}
