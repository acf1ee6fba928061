// How a password is kept.
ghost use Rattle.std.specs.Prelude.{◌≡◌, ◌≤◌, ◌++◌, length, IfOk, OnErr, Err, take, bytes_eq};
ghost use Rattle.sha2.specs.Sha256.{sha256};
ghost use Rattle.muck_db.specs.inner.Shown.{is_memory};
ghost use Rattle.spec_live.specs.Password.{digest_of, is_digest_of, salt_bytes};

use hex::FromHexError;
use muck_model::{Line, NoMemory};
use sha2::{Digest, Sha256};
use spec_live::DbFault;
use std::alloc::Global;

// The SHA-256 of two pieces taken as one message.
fn sha256_of(salt: &[u8], word: &[u8]) -> [u8; 32]
    ensures { result ≡ sha256 (salt.now ++ word.now) }
{
    let mut hasher = Sha256::new();
    hasher.update(salt);
    hasher.update(word);
    hasher.finalize()
}

// The bytes of a salt and of the digest of a word under it.
fn salted(alloc: Global, salt: &[u8], word: &[u8]) -> Result<Vec<u8>, NoMemory>
    ensures { IfOk result (λ kept. kept.items ≡ salt.now ++ sha256 (salt.now ++ word.now)) }
{
    let digest = sha256_of(salt, word);
    let mut kept = Vec::new(alloc);
    kept.extend_from_slice(salt)?;
    kept.extend_from_slice(&digest)?;
    Ok(kept)
}

// The digest of a word under a salt, which is short enough for a text.
#[tactic(auto, unfolding(spec_live::specs::Password::digest_of))]
pub fn digest_text(alloc: Global, salt: &[u8], word: &[u8]) -> Result<Line, NoMemory>
    requires { length salt.now ≤ 8 }
    ensures { IfOk result (λ text. text ≡ digest_of salt.now word.now) }
{
    let kept = salted(alloc, salt, word)?;
    let digits = hex::encode(alloc, kept.as_slice())?;
    Ok(Line::of_text_vec(digits.into_bytes()))
}

// The digest of a word under a number as the salt.
pub fn digest_word(alloc: Global, salt: u64, word: &Line) -> Result<Line, DbFault>
    ensures digest { IfOk result (λ text. text ≡ digest_of (salt_bytes salt) word.now) }
    ensures memory { OnErr result (result ≡ Err DbFault.NoMemory) }
{
    let salt = salt.to_be_bytes();
    match digest_text(alloc, &salt, word.as_slice()) {
        Ok(text) => Ok(text),
        Err(NoMemory) => Err(DbFault::NoMemory),
    }
}

// The digits of the salt.
fn salt_digits(digest: &[u8]) -> &[u8]
    ensures { result.now ≡ take 16 digest.now }
{
    if digest.len() > 16 {
        &digest[..16]
    } else {
        digest
    }
}

fn is_digest_under(alloc: Global, salt: &[u8], word: &[u8], digest: &Line) -> Result<bool, DbFault>
    requires { length salt.now ≤ 8 }
    ensures is { IfOk result (λ same. same ≡ bytes_eq digest.now (digest_of salt.now word.now)) }
    ensures memory { OnErr result (result ≡ Err DbFault.NoMemory) }
{
    match digest_text(alloc, salt, word) {
        Ok(found) => Ok(*digest == found),
        Err(NoMemory) => Err(DbFault::NoMemory),
    }
}

fn is_memory(fault: FromHexError) -> bool
    ensures { result ≡ is_memory fault }
{
    matches!(fault, FromHexError::OutOfMemory)
}

// Whether a digest is that of a word, under the salt that it begins with.
pub fn is_digest_of(alloc: Global, word: &[u8], digest: &Line) -> Result<bool, DbFault>
    ensures is { IfOk result (λ same. same ≡ is_digest_of word.now digest.now) }
    ensures memory { OnErr result (result ≡ Err DbFault.NoMemory) }
{
    match hex::decode(alloc, salt_digits(digest.as_slice())) {
        Ok(salt) => {
            let same = is_digest_under(alloc, salt.as_slice(), word, digest)?;
            Ok(same)
        }
        Err(fault) => {
            if is_memory(fault) {
                return Err(DbFault::NoMemory);
            }
            Ok(false)
        }
    }
}
