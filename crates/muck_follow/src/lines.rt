// Lines of bytes.
ghost use Rattle.std.specs.Prelude.{◌≡◌, ◌<◌, ◌≤◌, ◌∷◌, length};
ghost use Rattle.std.specs.List.{position, position_or_len};
ghost use Rattle.muck_follow.specs.Lines.{is_line_feed, lines_of};

// Where the first line feed stands.
fn line_feed_at(bytes: &[u8]) -> Option<usize>
    ensures { result ≡ position is_line_feed bytes.now }
{
    bytes.iter().position(|b| *b == b'\n')
}

// Where the first line feed stands, or the length.
#[tactic(auto, using(muck_model::proofs::Positions::positions))]
fn line_len(bytes: &[u8]) -> usize
    ensures at { result ≡ position_or_len is_line_feed bytes.now }
    ensures within { result ≤ length bytes.now }
{
    line_feed_at(bytes).unwrap_or(bytes.len())
}

/// The first line, and what stands behind its end.
pub fn cut_line(bytes: &[u8]) -> (&[u8], &[u8])
    requires { 0 < length bytes.now }
    ensures lines { lines_of bytes.now ≡ result.0.now ∷ lines_of result.1.now }
    ensures shorter { length result.1.now < length bytes.now }
{
    let (line, rest) = bytes.split_at(line_len(bytes));
    match rest.split_first() {
        Some((_, others)) => (line, others),
        None => (line, rest),
    }
}
