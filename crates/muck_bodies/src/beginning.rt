// Where the batches of a store begin.
ghost use Rattle.std.specs.Prelude.{◌≡◌, ◌⊎◌, ◌≤◌, true, IfOk, OnErr, Ok, length};
ghost use Rattle.muck_io.specs.Faults.{Rose};
ghost use Rattle.muck_log.specs.Store.{Chosen, LeavesOnly, store_of, pick};
ghost use Rattle.muck_bodies.specs.Bodies.{IsStart};
ghost use Rattle.muck_bodies.specs.inner.Heads.{IsHead, chosen_start};

use crate::head::{Head, read_head};
use muck_disk::{Disk, DiskFault};

/// Where the batches of a store begin: whether they stand in its second file, their generation, and the number of the first of them.
#[derive(Clone, Copy, Debug, PartialEq, Eq)]
pub struct Start {
    pub second: bool,
    pub generation: u64,
    pub first: u64,
}

// The first head of a file.
fn first_head<D: Disk>(disk: &mut D) -> Result<Option<Head>, DiskFault>
    ensures head { D.tells ≡ true → IfOk result (λ h. IsHead h (D.seen disk.old)) }
    ensures attached { D.attached disk.new ≡ D.attached disk.old }
    ensures seen { D.tells ≡ true → D.seen disk.new ≡ D.seen disk.old }
    ensures any { D.tells ≡ true → LeavesOnly D.moment D.images disk.old disk.new (D.images disk.old (D.moment disk.old)) }
    ensures later { D.faults disk.old ≤ D.faults disk.new }
    ensures cause { OnErr result (Rose (D.faults disk.old) (D.faults disk.new)) }
{
    let end = disk.size()?;
    if end == 0 {
        return Ok(None);
    }
    read_head(disk, 0, end)
}

fn start_at(second: bool, head: Head) -> Start
    ensures { result ≡ record { second = second; generation = head.generation; first = head.number } }
{
    Start {
        second,
        generation: head.generation,
        first: head.number,
    }
}

// Where the batches begin, by the first heads of both files: in the one of the higher generation.
fn chosen_start(a: Option<Head>, b: Option<Head>) -> Start
    ensures { result ≡ chosen_start a b }
{
    match (a, b) {
        (None, None) => Start {
            second: false,
            generation: 1,
            first: 1,
        },
        (Some(a), None) => start_at(false, a),
        (None, Some(b)) => start_at(true, b),
        (Some(a), Some(b)) => {
            if b.generation < a.generation {
                start_at(false, a)
            } else {
                start_at(true, b)
            }
        }
    }
}

/// Where the batches of a store that loads begin: generation 1 and number 1 where it has none yet. Of what doesn't load nothing is said.
/// The answer is an error only where the count of faults of a disk rose. Nothing is written.
pub fn start_of<D: Disk>(first: &mut D, second: &mut D) -> Result<Start, DiskFault>
    ensures start { D.tells ≡ true → (s : Chosen) → store_of (D.seen first.old) (D.seen second.old) ≡ Ok s → IfOk result (λ start. IsStart start s (pick s.second (D.seen first.old) (D.seen second.old))) }
    ensures first_attached { D.attached first.new ≡ D.attached first.old }
    ensures second_attached { D.attached second.new ≡ D.attached second.old }
    ensures first_seen { D.tells ≡ true → D.seen first.new ≡ D.seen first.old }
    ensures second_seen { D.tells ≡ true → D.seen second.new ≡ D.seen second.old }
    ensures first_any { D.tells ≡ true → LeavesOnly D.moment D.images first.old first.new (D.images first.old (D.moment first.old)) }
    ensures second_any { D.tells ≡ true → LeavesOnly D.moment D.images second.old second.new (D.images second.old (D.moment second.old)) }
    ensures first_later { D.faults first.old ≤ D.faults first.new }
    ensures second_later { D.faults second.old ≤ D.faults second.new }
    ensures cause { OnErr result (Rose (D.faults first.old) (D.faults first.new) ⊎ Rose (D.faults second.old) (D.faults second.new)) }
{
    let a = first_head(first)?;
    let b = first_head(second)?;
    Ok(chosen_start(a, b))
}
