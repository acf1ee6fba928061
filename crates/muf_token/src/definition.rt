// Definitions, as the pieces that they are made of.
ghost use Rattle.std.specs.Prelude.{◌≡◌, IfOk, ◌≤◌, length, true};
ghost use Rattle.muck_model.specs.Bytes.{text_most};
ghost use Rattle.muf_token.specs.inner.Bytes.{are_inside};
ghost use Rattle.muf_token.specs.Pieces.{source_pieces};

use crate::TokenFault;
use crate::piece::Piece;
use crate::place::Place;
use muck_model::{NoMemory, Row};
use std::alloc::Global;

/// The pieces of a text that is one line, up to a fault.
#[tactic(auto, unfolding(crate::specs::Pieces::source_pieces), using(crate::proofs::Fronts::pieces_rules))]
pub(crate) fn pieces_of(alloc: Global, text: &[u8]) -> Result<Row<Piece>, NoMemory>
    requires inside { are_inside text.now ≡ true }
    requires short { length text.now ≤ text_most }
    ensures { IfOk result (λ list. list ≡ source_pieces text.now) }
{
    let mut list = Row::new(alloc)?;
    let mut place = Place::in_text(text);
    loop {
        match place.next(alloc) {
            Ok(Some(found)) => {
                list.push(found.piece)?;
                place = found.behind;
            }
            Ok(None) => return Ok(list),
            Err(TokenFault::Refused(refusal)) => {
                list.push(Piece::Broken(refusal.kind))?;
                return Ok(list);
            }
            Err(TokenFault::NoMemory) => return Err(NoMemory),
        }
    }
}
