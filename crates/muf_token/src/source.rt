// The words of a source.
ghost use Rattle.std.specs.Prelude.{◌≡◌, List};
ghost use Rattle.muf_token.specs.declared.token.Token.{Token};
ghost use Rattle.muf_token.specs.Source.{words};
ghost use Rattle.muf_token.specs.inner.Spots.{IsAnswer};

use crate::includes::Includes;
use crate::place::Place;
use crate::reader::Reader;
use crate::{TokenFault, TokenList};
use muck_model::Line;
use std::alloc::Global;

/// The words of a source with their lines, where objects lend the definitions that `include` finds; or the first
/// refusal. `NoMemory` says nothing of the source.
#[tactic(auto, unfolding(crate::specs::Source::words), using(crate::proofs::Renewals::takings))]
pub fn tokens<I: Includes>(
    alloc: Global,
    source: &[Line],
    include: &I,
) -> Result<TokenList, TokenFault>
    ensures { IsAnswer (λ (list : List Token). list) (words (I.lent include.now) source.now) result }
{
    let mut reader = Reader::new(alloc)?;
    let mut place = Place::in_source(source);
    while let Some(next) = reader.read(alloc, include, place)? {
        place = next;
    }
    let words = reader.finish()?;
    Ok(words)
}
