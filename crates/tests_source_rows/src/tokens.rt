// The words of a source.
use muck_library::BuildFault;
use muck_model::{Dbref, NoMemory, Row};
use muf_token::{Definition, MemIncludes, Token, TokenKind, TokenList, tokens};
use std::alloc::Global;
use tests_rows::{line, lines_of, part};

/// A copy of these bytes.
pub fn owned(alloc: Global, word: &[u8]) -> Result<Vec<u8>, NoMemory> {
    Ok(word.to_vec(alloc)?)
}

// Objects 7 and 8 lend definitions, and no other object is there.
fn lenders(alloc: Global) -> Result<MemIncludes, NoMemory> {
    let mut lent = Row::new(alloc)?;
    for (name, text) in [
        ("One", "1"),
        ("a/b", "one one"),
        ("bad", "\"x"),
        ("Quote", "\"\\r\"\r'F #5"),
    ] {
        let name = line(alloc, name.as_bytes())?;
        let text = line(alloc, text.as_bytes())?;
        lent.push(Definition { name, text })?;
    }
    let mut lenders = MemIncludes::new(alloc)?;
    lenders.lend(Dbref(7), lent)?;
    lenders.lend(Dbref(8), Row::new(alloc)?)?;
    Ok(lenders)
}

/// The words of a source that stands there so many times.
pub fn words_of(alloc: Global, source: &[u8], times: u32) -> Result<TokenList, BuildFault> {
    let lines = lines_of(alloc, source, times)?;
    let lenders = lenders(alloc)?;
    let words = tokens(alloc, lines.as_slice(), &lenders)?;
    Ok(words)
}

/// `!`, the number of a fault, and its line.
pub fn flaw_text(alloc: Global, fault: BuildFault) -> Result<Vec<u8>, NoMemory> {
    match fault {
        BuildFault::Refused(flaw) => {
            Ok(format!(in alloc; "!{} {}", flaw.number, flaw.line)?.into_bytes())
        }
        BuildFault::NoMemory => Err(NoMemory),
    }
}

// A word, behind its line and a letter for its kind.
fn token_text(alloc: Global, token: &Token) -> Result<Vec<u8>, NoMemory> {
    let mut text = format!(in alloc; "{}", token.line)?.into_bytes();
    let (letter, said) = match &token.kind {
        TokenKind::Word(word) => (b'w', owned(alloc, word.as_slice())?),
        TokenKind::Text(text) => (b't', owned(alloc, text.as_slice())?),
        TokenKind::Address(name) => (b'a', owned(alloc, name.as_slice())?),
        TokenKind::Number(n) => (b'n', format!(in alloc; "{n}")?.into_bytes()),
        TokenKind::Ref(d) => (b'r', format!(in alloc; "{}", d.0)?.into_bytes()),
    };
    text.push(letter)?;
    text.extend_from_slice(said.as_slice())?;
    Ok(text)
}

/// The words of a source, each with its line.
pub fn tokens_row(alloc: Global, source: &[u8]) -> Result<Vec<u8>, NoMemory> {
    let words = match words_of(alloc, source, 1) {
        Ok(words) => words,
        Err(fault) => return flaw_text(alloc, fault),
    };
    let mut text = Vec::new(alloc);
    for token in words.as_slice() {
        part(&mut text, token_text(alloc, token)?.as_slice())?;
    }
    if text.is_empty() {
        part(&mut text, b"no word")?;
    }
    Ok(text)
}

/// How many words a source has that stands there so many times, and the line of the last one.
pub fn count_row(alloc: Global, source: &[u8], times: u32) -> Result<Vec<u8>, NoMemory> {
    let words = match words_of(alloc, source, times) {
        Ok(words) => words,
        Err(fault) => return flaw_text(alloc, fault),
    };
    let text = match words.as_slice().last() {
        Some(last) => format!(in alloc; "{} words, the last in line {}", words.len(), last.line)?,
        None => format!(in alloc; "no word")?,
    };
    Ok(text.into_bytes())
}
