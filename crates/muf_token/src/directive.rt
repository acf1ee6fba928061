// Directives, and what stands behind them.
ghost use Rattle.std.specs.Prelude.{◌≡◌, ◌∷◌, [], Some, None, true};
ghost use Rattle.muf_token.specs.inner.Bytes.{are_inside};
ghost use Rattle.muf_token.specs.Directives.{directive_of, name_behind, body_at, is_enddef, rest_of_line, end_of_line};
ghost use Rattle.muf_token.specs.inner.Spots.{spot_of, IsName, IsBody};

use crate::expansion::is_directive;
use crate::fault::refused;
use crate::piece::Piece;
use crate::place::{Found, Place};
use crate::{FaultKind, TokenFault};
use muck_model::{Line, Row};
use std::alloc::Global;

/// What a word that begins with `$` asks for.
#[derive(Clone, Copy)]
pub(crate) enum Directive {
    Def,
    Define,
    Undef,
    Ifdef,
    Ifndef,
    Else,
    Endif,
    Include,
}

/// The directive that a word asks for.
#[tactic(auto, unfolding(crate::specs::Directives::directive_of))]
pub(crate) fn directive_of(word: &Line) -> Option<Directive>
    ensures { result ≡ directive_of word.now }
{
    let word = word.as_slice();
    if word == b"$def".as_slice() {
        Some(Directive::Def)
    } else if word == b"$define".as_slice() {
        Some(Directive::Define)
    } else if word == b"$undef".as_slice() {
        Some(Directive::Undef)
    } else if word == b"$ifdef".as_slice() {
        Some(Directive::Ifdef)
    } else if word == b"$ifndef".as_slice() {
        Some(Directive::Ifndef)
    } else if word == b"$else".as_slice() {
        Some(Directive::Else)
    } else if word == b"$endif".as_slice() {
        Some(Directive::Endif)
    } else if word == b"$include".as_slice() {
        Some(Directive::Include)
    } else {
        None
    }
}

/// A name behind a directive, its line, and the place behind it.
#[derive(Drop)]
pub(crate) struct Name<'a> {
    pub line: u32,
    pub name: Line,
    pub behind: Place<'a>,
}

/// The name behind the directive at this line.
pub(crate) fn name_at(alloc: Global, line: u32, place: Place<'_>) -> Result<Name<'_>, TokenFault>
    ensures { IsName (name_behind line (spot_of place.entry)) result }
{
    let fault = refused(line, FaultKind::BadDirective);
    let Some(
        Found {
            line: at,
            piece,
            behind,
        },
    ) = place.next(alloc)?
    else {
        return Err(fault);
    };
    let Piece::Word(name) = piece else {
        return Err(fault);
    };
    if is_directive(&name) {
        return Err(fault);
    }
    Ok(Name {
        line: at,
        name,
        behind,
    })
}

// Whether a piece ends the words of a `$define`.
fn is_enddef(piece: &Piece) -> bool
    ensures { result ≡ is_enddef piece.now }
{
    match piece {
        Piece::Word(word) => word.as_slice() == b"$enddef".as_slice(),
        _ => false,
    }
}

/// The pieces up to the first `$enddef`, for the `$define` at this line, and the place behind it.
#[tactic(auto, using(crate::proofs::Bodies::bodies))]
pub(crate) fn body_at(
    alloc: Global,
    line: u32,
    place: Place<'_>,
) -> Result<(Row<Piece>, Place<'_>), TokenFault>
    ensures { IsBody (body_at line (spot_of place.entry)) result }
{
    let mut body = Row::new(alloc)?;
    let mut place = place;
    while let Some(found) = place.next(alloc)? {
        place = found.behind;
        if is_enddef(&found.piece) {
            return Ok((body, place));
        }
        body.push(found.piece)?;
    }
    Err(refused(line, FaultKind::BadDirective))
}
