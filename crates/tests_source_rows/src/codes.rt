// The code of a source.
use crate::tokens::{flaw_text, owned, words_of};
use muck_library::BuildFault;
use muck_model::NoMemory;
use muf_compile::compile;
use muf_model::{Closer, Code, Instr, Literal, Offer, Placed, Word};
use std::alloc::Global;
use tests_rows::part;

// The code of a source.
fn compiled(alloc: Global, source: &[u8]) -> Result<Code, BuildFault> {
    let words = words_of(alloc, source, 1)?;
    let code = compile(alloc, &words)?;
    Ok(code)
}

// A literal, as it is written.
fn literal_text(alloc: Global, literal: &Literal) -> Result<Vec<u8>, NoMemory> {
    let text = match literal {
        Literal::Int(n) => format!(in alloc; "{n}")?,
        Literal::Object(d) => format!(in alloc; "#{}", d.0)?,
        Literal::Text(text) => {
            let mut quoted = owned(alloc, b"\"")?;
            quoted.extend_from_slice(text.as_slice())?;
            quoted.push(b'"')?;
            return Ok(quoted);
        }
    };
    Ok(text.into_bytes())
}

// A word that names no place.
fn word_text(alloc: Global, word: &Word) -> Result<Vec<u8>, NoMemory> {
    let (name, number) = match word {
        Word::Literal(literal) => return literal_text(alloc, literal),
        Word::Variable(v) => ("v", Some(v.0)),
        Word::Primitive(primitive) => return owned(alloc, primitive.name()),
        Word::Address(n) => ("'", Some(*n)),
        Word::Call(n) => ("call", Some(*n)),
        Word::Bind(n) => ("bind", Some(*n)),
        Word::Store(v) => ("store", Some(v.0)),
        Word::Exit => ("exit", None),
        Word::Break => ("break", None),
        Word::Continue => ("continue", None),
        Word::While => ("while", None),
        Word::NextIndex => ("index", None),
        Word::NextPair => ("pair", None),
    };
    let text = match number {
        Some(number) => format!(in alloc; "{name}{number}")?,
        None => format!(in alloc; "{name}")?,
    };
    Ok(text.into_bytes())
}

// An instruction, with its line and its target.
fn placed_text(alloc: Global, placed: &Placed) -> Result<Vec<u8>, NoMemory> {
    let mut text = format!(in alloc; "{}:", placed.line)?.into_bytes();
    let (name, target) = match &placed.instr {
        Instr::Plain(word) => {
            text.extend_from_slice(word_text(alloc, word)?.as_slice())?;
            return Ok(text);
        }
        Instr::Close(Closer::Semicolon) => (";", None),
        Instr::Close(Closer::Repeat) => ("repeat", None),
        Instr::Close(Closer::Until) => ("until", None),
        Instr::When(to) => ("if>", Some(*to)),
        Instr::IfElse(to) => ("if!>", Some(*to)),
        Instr::Try(to) => ("try>", Some(*to)),
        Instr::Else(to) => ("else>", Some(*to)),
        Instr::Catch(to) => ("catch>", Some(*to)),
        Instr::Begin(to) => ("begin>", Some(*to)),
        Instr::For(to) => ("for>", Some(*to)),
        Instr::Each(to) => ("each>", Some(*to)),
        Instr::Unset => ("unset", None),
    };
    text.extend_from_slice(name.as_bytes())?;
    if let Some(target) = target {
        text.extend_from_slice(format!(in alloc; "{target}")?.as_bytes())?;
    }
    Ok(text)
}

/// The words of a program, each with its start, how many variables a call has, and to whom it is offered; the instructions by
/// their places; and how many variables the program has.
pub fn code_text(alloc: Global, code: &Code) -> Result<Vec<u8>, NoMemory> {
    let mut text = Vec::new(alloc);
    for word in code.words.as_slice() {
        let offer = match word.offer {
            Offer::Nobody => "",
            Offer::Wizards => "w",
            Offer::All => "a",
        };
        part(&mut text, word.name.as_slice())?;
        let title = format!(in alloc; "@{}/{}{offer}", word.start, word.variables)?;
        text.extend_from_slice(title.as_bytes())?;
    }
    for at in 0..code.placed.len() {
        if let Some(placed) = code.get(at) {
            part(&mut text, placed_text(alloc, placed)?.as_slice())?;
        }
    }
    part(
        &mut text,
        format!(in alloc; "{}", code.variables)?.as_bytes(),
    )?;
    Ok(text)
}

/// The code, or the flaw.
pub fn shown(alloc: Global, got: Result<Code, BuildFault>) -> Result<Vec<u8>, NoMemory> {
    match got {
        Ok(code) => code_text(alloc, &code),
        Err(fault) => flaw_text(alloc, fault),
    }
}

/// The code of a source, or its flaw.
pub fn code_row(alloc: Global, source: &[u8]) -> Result<Vec<u8>, NoMemory> {
    shown(alloc, compiled(alloc, source))
}
