// What the pieces of a text stand for.
ghost use Rattle.std.specs.Prelude.{◌≡◌, ◌∷◌};
ghost use Rattle.muf_token.specs.Expansion.{is_directive, expanded};
ghost use Rattle.muf_token.specs.Output.{Leads};
ghost use Rattle.muf_token.specs.inner.Layers.{told};

use crate::fault::refused;
use crate::layers::Layers;
use crate::number::kind_of;
use crate::output::Output;
use crate::piece::Piece;
use crate::{FaultKind, TokenFault, TokenKind};
use muck_model::Line;
use std::alloc::Global;

/// Whether a word asks for a directive.
pub(crate) fn is_directive(word: &Line) -> bool
    ensures { result ≡ is_directive word.now }
{
    matches!(word.as_slice().first(), Some(b'$'))
}

/// Puts out what a piece at this line stands for, where this many more definitions may be open at once.
#[tactic(auto, unfolding(crate::specs::Expansion::expanded))]
pub(crate) fn expand(
    alloc: Global,
    definitions: &Layers,
    line: u32,
    piece: &Piece,
    deeper: usize,
    out: &mut Output,
) -> Result<(), TokenFault>
    ensures { Leads (expanded deeper (told definitions.now) line piece.now out.old) result out.new }
{
    let word = match piece {
        Piece::Broken(kind) => return Err(refused(line, *kind)),
        Piece::Text(text) => return out.put(line, Some(TokenKind::Text(text.copy(alloc)?))),
        Piece::Word(word) => word,
    };
    if is_directive(word) {
        return Err(refused(line, FaultKind::BadDirective));
    }
    let Some(body) = definitions.get(word) else {
        return out.put(line, kind_of(alloc, word)?);
    };
    if deeper == 0 {
        return Err(refused(line, FaultKind::EndlessDefs));
    }
    out.count_use(line)?;
    for inner in body.as_slice() {
        expand(alloc, definitions, line, inner, deeper - 1, out)?;
    }
    Ok(())
}
