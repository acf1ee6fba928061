// The limits of the values of a record.
ghost use Rattle.std.specs.Prelude.{◌≡◌};
ghost use Rattle.std.specs.List.{list_all};
ghost use Rattle.muck_store.specs.Limits.{is_hex_digit, is_digest, record_fits};

use muck_codec::Stored;
use muck_model::LINES_MOST;

fn are_digits(bytes: &[u8]) -> bool
    ensures { result ≡ list_all is_hex_digit bytes.now }
{
    bytes
        .iter()
        .all(|b| (*b >= 48 && *b <= 57) || (*b >= 97 && *b <= 102))
}

#[tactic(auto, unfolding(crate::specs::Limits::is_digest))]
fn is_digest(digest: &[u8]) -> bool
    ensures { result ≡ is_digest digest.now }
{
    digest.is_empty() || (digest.len() == 80 && are_digits(digest))
}

/// Whether every value of a record is within its limits.
#[tactic(auto, unfolding(crate::specs::Limits::record_fits))]
pub fn fits(record: &Stored) -> bool
    ensures { result ≡ record_fits record.now }
{
    let name = record.name.as_slice().len();
    name >= 1
        && name <= 80
        && record.level <= 3
        && record.flags.0 < 16_384
        && record.lines.len() <= LINES_MOST
        && is_digest(record.digest.as_slice())
}
