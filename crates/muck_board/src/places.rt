// Where connections stand that are kept by rising number.
ghost use Rattle.std.specs.Prelude.{◌≡◌, ◌≤◌, length, nat_lt};
ghost use Rattle.std.specs.List.{position, position_or_len};
ghost use Rattle.spec_live.specs.Connections.{is_connection};

use crate::connection::Connection;

/// The place of the connection of a number.
pub fn place_of(connections: &[Connection], d: u32) -> Option<usize>
    ensures { result ≡ position (is_connection d) connections.now }
{
    connections.iter().position(|c| c.number() == d)
}

// The place of the first connection of a greater number.
fn above(connections: &[Connection], d: u32) -> Option<usize>
    ensures { result ≡ position (λ c. nat_lt d c.number) connections.now }
{
    connections.iter().position(|c| d < c.number())
}

/// That place, or the length where there is none.
#[tactic(auto, using(muck_model::proofs::Positions::positions))]
pub fn greater_at(connections: &[Connection], d: u32) -> usize
    ensures at { result ≡ position_or_len (λ c. nat_lt d c.number) connections.now }
    ensures within { result ≤ length connections.now }
{
    above(connections, d).unwrap_or(connections.len())
}
