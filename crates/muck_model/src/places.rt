// Where a byte stands.
ghost use Rattle.std.specs.Prelude.{◌≡◌, ◌==◌, ◌≤◌, length};
ghost use Rattle.std.specs.List.{position, position_or_len};

/// Where the first of that byte stands.
pub fn byte_at(bytes: &[u8], byte: u8) -> Option<usize>
    ensures { result ≡ position (λ b. b == byte) bytes.now }
{
    bytes.iter().position(|b| *b == byte)
}

/// How many bytes stand before the first of that byte: all of them, where there is none.
#[tactic(auto, using(crate::proofs::Positions::positions))]
pub fn count_before(bytes: &[u8], byte: u8) -> usize
    ensures at { result ≡ position_or_len (λ b. b == byte) bytes.now }
    ensures within { result ≤ length bytes.now }
{
    byte_at(bytes, byte).unwrap_or(bytes.len())
}
