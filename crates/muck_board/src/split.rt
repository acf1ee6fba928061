// The lines of a text that is sent.
ghost use Rattle.std.specs.Prelude.{◌≡◌, ◌+◌, ◌≤◌, length, take, ◌∷◌};
ghost use Rattle.std.specs.List.{slice_split};
ghost use Rattle.std.specs.Option.{option_map_or};
ghost use Rattle.spec_live.specs.Output.{is_return};
ghost use Rattle.muck_board.specs.inner.Pieces.{pieces_after};
ghost use Rattle.muck_model.specs.Bytes.{text_most};

use muck_model::{TEXT_MOST, count_before};

/// The front of a text, as much as is sent.
pub fn cut(text: &[u8]) -> &[u8]
    ensures front { result.now ≡ take text_most text.now }
    ensures most { length result.now ≤ text_most }
{
    if text.len() <= TEXT_MOST {
        return text;
    }
    text.split_at(TEXT_MOST).0
}

/// The first line of a text, and what stands behind the byte that ends it.
pub fn cut_piece(text: &[u8]) -> (&[u8], Option<&[u8]>)
    ensures pieces { slice_split is_return text.now ≡ result.0.now ∷ pieces_after result.1 }
    ensures within { length result.0.now ≤ length text.now }
    ensures shorter { option_map_or (λ rest. length rest.now + 1) result.1 0 ≤ length text.now }
{
    let (piece, rest) = text.split_at(count_before(text, b'\r'));
    match rest.split_first() {
        Some((_, others)) => (piece, Some(others)),
        None => (piece, None),
    }
}
