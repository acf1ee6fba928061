// The flag that a text asks for.
ghost use Rattle.std.specs.Prelude.{◌≡◌, ◌<◌, ◌==◌, IfSome, take};
ghost use Rattle.std.specs.List.{list_any};
ghost use Rattle.muf_frame.specs.inner.Shown.{Shown, flat};
ghost use Rattle.muf_model.specs.declared.prims.Primitive.TheVariants.{HasFlag};
ghost use Rattle.spec_prims.specs.ObjectRows.{flag_asked, flag_bit_lettered, misasked};
ghost use Rattle.spec_prims.specs.Shared.{items_taken};

use muf_frame::Frame;
use muf_model::{MufFault, Prim};
use spec_live::flag_of;

/// The letters of all flags.
const LETTERS: &[u8] = b"ABCDHJKLQSVWXZ";

// Whether a letter is one of these.
fn stands_in(letter: u8, letters: &[u8]) -> bool
    ensures { result ≡ list_any (λ other. other == letter) letters.now }
{
    letters.iter().any(|other| *other == letter)
}

// The flag of a letter, in any case.
fn flag_lettered(letter: u8) -> Option<u16>
    ensures value { result ≡ flag_bit_lettered letter }
    ensures some { IfSome result (λ flag. 0 < flag) }
{
    let upper = letter.to_ascii_uppercase();
    if stands_in(upper, LETTERS) {
        Some(flag_of(upper))
    } else {
        None
    }
}

/// The flag that a letter asks for, and whether it asks whether it is set; with a `!` before it, whether it isn't.
pub(crate) fn flag_asked(letters: &[u8]) -> Option<(bool, u16)>
    ensures value { result ≡ flag_asked letters.now }
    ensures some { IfSome result (λ asked. 0 < asked.1) }
{
    match letters {
        [letter] => Some((true, flag_lettered(*letter)?)),
        [b'!', letter] => Some((false, flag_lettered(*letter)?)),
        _ => None,
    }
}

/// The fault that a primitive's own rule finds in its arguments.
#[tactic(auto, using(crate::proofs::Items::flag_steps))]
pub(crate) fn argued(prim: Prim, frame: &Frame) -> Option<MufFault>
    ensures { result ≡ misasked prim (take (items_taken prim (flat frame.now).stack) (flat frame.now).stack) }
{
    match prim {
        Prim::HasFlag => {
            let letters = frame.text_at(0)?;
            match flag_asked(letters.as_slice()) {
                Some(_) => None,
                None => Some(MufFault::BadArgument),
            }
        }
        _ => None,
    }
}
