// The head of a body.
ghost use Rattle.std.specs.Prelude.{◌≡◌, IfOk};
ghost use Rattle.std.specs.Int.{w64};
ghost use Rattle.muck_codec.specs.Reading.{number_at};
ghost use Rattle.muck_mirror.specs.Bodies.{literal_at, version_at, body_head_at};
ghost use Rattle.muck_mirror.specs.inner.Heading.{Gives, seen};

/// Version and number of a body.
#[derive(Clone, Copy, Drop)]
pub struct Head {
    pub version: u8,
    pub number: u64,
}

// The bytes behind these, or how many are left from the first on that differs.
fn literal_at<'a>(wanted: &[u8], bytes: &'a [u8]) -> Result<&'a [u8], usize>
    ensures { Gives (λ x. x.now) result (literal_at wanted.now bytes.now) }
{
    for i in 0..wanted.len() {
        if i >= bytes.len() {
            return Err(0);
        }
        if bytes[i] != wanted[i] {
            return Err(bytes.len() - i);
        }
    }
    Ok(bytes.split_at(wanted.len()).1)
}

#[tactic(auto, unfolding(crate::specs::Bodies::version_at))]
fn version_at(bytes: &[u8]) -> Result<(u8, &[u8]), usize>
    ensures reads { Gives (λ x. (x.0, x.1.now)) result (version_at bytes.now) }
    ensures one { IfOk result (λ x. x.0 ≡ 1) }
{
    match bytes {
        [] => Err(0),
        [b, rest @ ..] => {
            if *b == 1 {
                return Ok((1, rest));
            }
            Err(bytes.len())
        }
    }
}

fn number_at(bytes: &[u8]) -> Result<(u64, &[u8]), usize>
    ensures { Gives (λ x. (x.0, x.1.now)) result (number_at w64 bytes.now) }
{
    if bytes.len() < 8 {
        return Err(0);
    }
    let (part, rest) = bytes.split_at(8);
    let mut word = [0u8; 8];
    word.copy_from_slice(part);
    Ok((u64::from_be_bytes(word), rest))
}

/// The head of a body of this generation, and the bytes behind it; or how many are left from the first on that no body continues.
#[tactic(auto, unfolding(crate::specs::Bodies::body_head_at))]
pub(crate) fn head_at(generation: u64, bytes: &[u8]) -> Result<(Head, &[u8]), usize>
    ensures reads { Gives (λ x. (seen x.0, x.1.now)) result (body_head_at generation bytes.now) }
    ensures one { IfOk result (λ x. x.0.version ≡ 1) }
{
    let rest = literal_at(b"MUCK", bytes)?;
    let (version, rest) = version_at(rest)?;
    let rest = literal_at(&generation.to_be_bytes(), rest)?;
    let (number, rest) = number_at(rest)?;
    Ok((Head { version, number }, rest))
}
