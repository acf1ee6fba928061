// What stands at a gate.
ghost use Rattle.std.specs.Prelude.{◌≡◌, ◌≤◌, ◌<◌, ◌+◌, ◌-◌, length, take, drop, true, min, IfOk, OnErr, IfSome, List, ℕ};
ghost use Rattle.std.specs.Int.{w64, from_be_bytes};
ghost use Rattle.muck_io.specs.Faults.{Rose};
ghost use Rattle.muck_log.specs.Store.{LeavesOnly};
ghost use Rattle.muck_bodies.specs.Bodies.{generation_of, body_number};
ghost use Rattle.muck_bodies.specs.inner.Heads.{IsHead};

use muck_disk::{Disk, DiskFault};

// The body behind a gate: how many bytes it has, its generation and its number.
#[derive(Clone, Copy, Drop)]
pub struct Head {
    pub size: u64,
    pub generation: u64,
    pub number: u64,
}

const MAGIC: [u8; 5] = *b"MUCK\x01";

fn word_of(bytes: &[u8]) -> u64
    requires { 8 ≤ length bytes.now }
    ensures { result ≡ from_be_bytes w64 (take 8 bytes.now) }
{
    let mut word = [0u8; 8];
    word.copy_from_slice(bytes.split_at(8).0);
    u64::from_be_bytes(word)
}

#[tactic(auto, unfolding(muck_log::specs::Body::body_of, muck_log::specs::Body::magic))]
fn generation_of(body: &[u8]) -> u64
    ensures { result ≡ generation_of body.now }
{
    if body.len() < 25 || body.split_at(5).0 != MAGIC.as_slice() {
        return 0;
    }
    word_of(body.split_at(5).1)
}

#[tactic(auto, unfolding(muck_log::specs::Body::body_of, muck_log::specs::Body::magic))]
fn number_of(body: &[u8]) -> u64
    ensures { result ≡ body_number body.now }
{
    if body.len() < 25 || body.split_at(5).0 != MAGIC.as_slice() {
        return 0;
    }
    word_of(body.split_at(13).1)
}

// The head at the front of a file that has so many bytes, of which these are the first 34, or all, where it has fewer.
fn head_of(front: &[u8], left: u64) -> Option<Head>
    requires { length front.now ≡ min left 34 }
    ensures head { (file : List ℕ) → length file ≡ left → front.now ≡ take 34 file → IsHead result file }
    ensures inside { IfSome result (λ x. 9 + x.size ≤ left) }
{
    if front.len() < 9 {
        return None;
    }
    if front[0] != 1 {
        return None;
    }
    let size = word_of(front.split_at(1).1);
    if size > left - 9 {
        return None;
    }
    if size < 25 {
        return Some(Head {
            size,
            generation: 0,
            number: 0,
        });
    }
    let body = front.split_at(9).1;
    Some(Head {
        size,
        generation: generation_of(body),
        number: number_of(body),
    })
}

fn less(n: usize, left: u64) -> usize
    ensures { result ≡ min n left }
{
    if (n as u64) < left { n } else { left as usize }
}

// The head at a place of a file that has so many bytes. Where the disk gives fewer than there are, which no disk does that tells its bytes,
// there is none.
pub fn read_head<D: Disk>(disk: &mut D, at: u64, end: u64) -> Result<Option<Head>, DiskFault>
    requires within { at < end }
    ensures head { D.tells ≡ true → end ≡ length (D.seen disk.old) → IfOk result (λ h. IsHead h (drop at (D.seen disk.old))) }
    ensures inside { IfOk result (λ h. IfSome h (λ x. 9 + x.size ≤ end - at)) }
    ensures attached { D.attached disk.new ≡ D.attached disk.old }
    ensures seen { D.tells ≡ true → D.seen disk.new ≡ D.seen disk.old }
    ensures any { D.tells ≡ true → LeavesOnly D.moment D.images disk.old disk.new (D.images disk.old (D.moment disk.old)) }
    ensures later { D.faults disk.old ≤ D.faults disk.new }
    ensures cause { OnErr result (Rose (D.faults disk.old) (D.faults disk.new)) }
{
    let mut front = [0u8; 34];
    let n = disk.read(at, &mut front)?;
    let left = end - at;
    if n != less(34, left) {
        return Ok(None);
    }
    Ok(head_of(front.split_at(n).0, left))
}
