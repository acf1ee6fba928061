// A place in a text, and the pieces from there on.
ghost use Rattle.std.specs.Prelude.{drop, ◌≡◌, ℕ, List, ◌+◌, ◌++◌, ◌∷◌, [], ◌≤◌, ◌<◌, Some, None, length, IfOk, IsTrue, ◌↔◌, MatchOption, if◌then◌else◌, ◌==◌, true};
ghost use Rattle.muf_token.specs.inner.Bytes.{are_inside};
ghost use Rattle.std.specs.List.{position, position_or_len};
ghost use Rattle.muck_model.specs.Bytes.{text_most};
ghost use Rattle.muf_token.specs.Pieces.{is_blank_byte, escaped_byte, lowered, lines_below, source_joined, line_number_below, piece_ahead, piece_here};

use crate::fault::refused;
use crate::piece::Piece;
use crate::{FaultKind, Refusal, TokenFault};
use muck_model::{Line, NoMemory};
use std::alloc::{AllocError, Global};

/// A place in a text: the number of its line, the rest of that line, and the lines below it.
#[derive(Clone, Copy)]
pub(crate) struct Place<'a> {
    pub line: u32,
    pub here: &'a [u8],
    pub below: &'a [Line],
    ghost inside: { are_inside here.now ≡ true },
    ghost short: { length here.now ≤ text_most },
}

/// A piece that was found, with its line and the place behind it.
#[derive(Drop)]
pub(crate) struct Found<'a> {
    pub line: u32,
    pub piece: Piece,
    pub behind: Place<'a>,
}

// Whether a byte is white space.
fn is_blank(byte: u8) -> bool
    ensures { result ≡ is_blank_byte byte }
{
    byte == b'\n' || byte == 13 || byte == b' '
}

// What a byte behind a backslash stands for.
fn escaped_byte(byte: u8) -> u8
    ensures { result ≡ escaped_byte byte }
{
    if byte == b'r' { 13 } else { byte }
}

// How many bytes stand before the first white space.
fn blank_at(bytes: &[u8]) -> Option<usize>
    ensures { result ≡ position is_blank_byte bytes.now }
{
    bytes
        .iter()
        .position(|byte| *byte == b'\n' || *byte == 13 || *byte == b' ')
}

#[tactic(auto, using(muck_model::proofs::Positions::positions))]
fn word_len(bytes: &[u8]) -> usize
    ensures at { result ≡ position_or_len is_blank_byte bytes.now }
    ensures within { result ≤ length bytes.now }
{
    blank_at(bytes).unwrap_or(bytes.len())
}

/// The text of bytes that are one.
#[tactic(auto, using(crate::proofs::Texts::text_inside))]
pub(crate) fn text_of(bytes: Vec<u8>) -> Line
    requires inside { are_inside bytes.items ≡ true }
    requires short { length bytes.items ≤ text_most }
    ensures { result ≡ bytes.items }
{
    Line::of_text_vec(bytes)
}

// The same bytes in lower case.
fn lower(alloc: Global, word: &[u8]) -> Result<Vec<u8>, AllocError>
    ensures { IfOk result (λ v. v.items ≡ lowered word.now) }
{
    word.iter()
        .map(|byte| byte.to_ascii_lowercase())
        .collect(alloc)
}

/// A word in lower case.
#[tactic(auto, using(crate::proofs::Words::lower_texts))]
pub(crate) fn lower_text(alloc: Global, word: &[u8]) -> Result<Line, NoMemory>
    requires inside { are_inside word.now ≡ true }
    requires short { length word.now ≤ text_most }
    ensures { IfOk result (λ line. line ≡ lowered word.now) }
{
    let bytes = lower(alloc, word)?;
    Ok(text_of(bytes))
}

impl<'a> Place<'a> {
    ghost use Rattle.muf_token.specs.Directives.{is_line_end, rest_of_line};
    ghost use Rattle.muf_token.specs.inner.Places.{text_at, IsFirst, IsLead, IsWord, IsQuoted, IsFront};

    /// The first place of a text that is one line.
    #[tactic(auto, using(muck_laws::proofs::Lists::append_none))]
    pub fn in_text(text: &'a [u8]) -> Place<'a>
        requires inside { are_inside text.now ≡ true }
        requires short { length text.now ≤ text_most }
        ensures line { result.line ≡ 0 }
        ensures text { text_at result ≡ text.now }
    {
        Place {
            line: 0,
            here: text,
            below: &[],
        }
    }

    /// The first place of a source.
    #[tactic(auto, using(crate::proofs::Texts::inside_text))]
    pub fn in_source(source: &'a [Line]) -> Place<'a>
        ensures line { result.line ≡ 1 }
        ensures text { text_at result ≡ source_joined source.now }
    {
        match source.split_first() {
            Some((line, below)) => Place {
                line: 1,
                here: line.as_slice(),
                below,
            },
            None => Place {
                line: 1,
                here: &[],
                below: &[],
            },
        }
    }

    /// The end of this place's line.
    #[tactic(auto, using(crate::proofs::Lines::line_ends))]
    pub fn end_of_line(self) -> Place<'a>
        ensures line { result.line ≡ self.entry.line }
        ensures rest { rest_of_line (text_at self.entry) ≡ self.entry.here.now }
        ensures end { text_at result ≡ drop (position_or_len is_line_end (text_at self.entry)) (text_at self.entry) }
    {
        Place {
            line: self.line,
            here: &[],
            below: self.below,
        }
    }

    // The byte at this place and the place behind it. Byte 10 is the end of a line that has one below it.
    #[tactic(auto, using(crate::proofs::Texts::inside_text))]
    fn first(self) -> Option<(u8, Place<'a>)>
        ensures { IsFirst self.entry result }
    {
        if let Some((byte, rest)) = self.here.split_first() {
            let behind = Place {
                line: self.line,
                here: rest,
                below: self.below,
            };
            return Some((*byte, behind));
        }
        let (line, rest) = self.below.split_first()?;
        let behind = Place {
            line: self.line.saturating_add(1),
            here: line.as_slice(),
            below: rest,
        };
        Some((b'\n', behind))
    }

    // The place past white space and comments, where a piece begins or the text ends.
    #[tactic(auto, unfolding(crate::specs::Pieces::piece_ahead))]
    fn lead(self) -> Result<Place<'a>, Refusal>
        ensures { IsLead (piece_ahead None self.entry.line (text_at self.entry)) result }
    {
        let mut place = self;
        let mut comment = None;
        while let Some((byte, behind)) = place.first() {
            if comment.is_some() {
                if byte == b')' {
                    comment = None;
                }
            } else if byte == b'(' {
                comment = Some(place.line);
            } else if !is_blank(byte) {
                return Ok(place);
            }
            place = behind;
        }
        match comment {
            None => Ok(place),
            Some(line) => Err(Refusal {
                line,
                kind: FaultKind::OpenComment,
            }),
        }
    }

    // The word at this place, in lower case, and the place behind it.
    #[tactic(auto, using(crate::proofs::Words::words))]
    fn word(self, alloc: Global) -> Result<(Line, Place<'a>), NoMemory>
        ensures { IfOk result (λ p. IsWord self.entry p.0 p.1) }
    {
        let (word, rest) = self.here.split_at(word_len(self.here));
        let behind = Place {
            line: self.line,
            here: rest,
            below: self.below,
        };
        Ok((lower_text(alloc, word)?, behind))
    }

    // The text that begins here, behind its opening quote, and the place behind its closing quote; none where its line
    // ends first.
    #[tactic(auto, using(crate::proofs::Quotes::quotes))]
    fn quoted(self, alloc: Global) -> Result<Option<(Line, Place<'a>)>, NoMemory>
        ensures { IfOk result (IsQuoted self.entry) }
    {
        let mut value = Vec::new(alloc);
        let mut escaped = false;
        let mut here = self.here;
        while let Some((byte, rest)) = here.split_first() {
            if escaped {
                value.push(escaped_byte(*byte))?;
                escaped = false;
            } else if *byte == b'"' {
                let behind = Place {
                    line: self.line,
                    here: rest,
                    below: self.below,
                };
                return Ok(Some((text_of(value), behind)));
            } else if *byte == b'\\' {
                escaped = true;
            } else {
                value.push(*byte)?;
            }
            here = rest;
        }
        Ok(None)
    }

    /// The first piece from this place on, behind white space and comments; none where the text ends before one.
    #[tactic(auto, unfolding(crate::specs::Pieces::piece_ahead))]
    pub fn next(self, alloc: Global) -> Result<Option<Found<'a>>, TokenFault>
        ensures { IsFront (piece_ahead None self.entry.line (text_at self.entry)) result }
    {
        let place = self.lead()?;
        let Some((byte, behind)) = place.first() else {
            return Ok(None);
        };
        if byte != b'"' {
            let (word, behind) = place.word(alloc)?;
            return Ok(Some(Found {
                line: place.line,
                piece: Piece::Word(word),
                behind,
            }));
        }
        match behind.quoted(alloc)? {
            Some((text, behind)) => Ok(Some(Found {
                line: place.line,
                piece: Piece::Text(text),
                behind,
            })),
            None => Err(refused(place.line, FaultKind::OpenString)),
        }
    }
}
