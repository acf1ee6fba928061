// Bodies.
ghost use Rattle.std.specs.Prelude.{◌≡◌, ◌≤◌, ◌<◌, ◌+◌, List, ℕ, length, take, drop, Some, None, option_map, if◌then◌else◌, IfOk, OnOk, OnErr, Option};
ghost use Rattle.std.specs.Int.{w64, from_be_bytes};
ghost use Rattle.muck_log.specs.inner.Head.{head_in};

// Generation and number of a body.
#[derive(Clone, Copy, Drop)]
pub struct Head {
    pub generation: u64,
    pub number: u64,
}

const MAGIC: [u8; 5] = *b"MUCK\x01";

pub(crate) fn word_at(bytes: &[u8], at: usize) -> u64
    requires { at + 8 ≤ length bytes.now }
    ensures { result ≡ from_be_bytes w64 (take 8 (drop at bytes.now)) }
{
    let (part, _) = bytes.split_at(at).1.split_at(8);
    let mut word = [0u8; 8];
    word.copy_from_slice(part);
    u64::from_be_bytes(word)
}

#[tactic(auto, unfolding(crate::specs::Body::body_of, crate::specs::Body::magic))]
pub fn head_of(bytes: &[u8]) -> Option<Head>
    ensures { result ≡ head_in bytes.now }
{
    if bytes.len() < 25 || bytes.split_at(5).0 != MAGIC.as_slice() {
        return None;
    }
    Some(Head {
        generation: word_at(bytes, 5),
        number: word_at(bytes, 13),
    })
}
