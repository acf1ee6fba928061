// Following a store by the lines of a script.
ghost use Rattle.std.specs.Prelude.{◌≡◌, ◌⊎◌, ◌≤◌, ◌^◌, true, Ok, OnOk, OnErr, IsErrOf, length};
ghost use Rattle.muck_io.specs.Faults.{Rose};
ghost use Rattle.muck_io.specs.Sink.{Appends, AppendsFront};
ghost use Rattle.muck_log.specs.Store.{Chosen, LeavesOnly, store_of, pick};
ghost use Rattle.muck_bodies.specs.Bodies.{bodies_of};
ghost use Rattle.muck_follow.specs.Following.{replies, script_replies};
ghost use Rattle.muck_follow.specs.Fronts.{AreBytes, FollowsFront};

use crate::reply::reply;
use crate::{Act, FollowFault};
use muck_bodies::start_of;
use muck_disk::Disk;
use muck_io::{Sink, write_all};
use muck_mirror::Mirror;
use std::alloc::Global;

// Does what the lines ask for, and writes the reply to each.
fn run<K: Sink, D: Disk>(
    alloc: Global,
    acts: &[Act],
    disk: &mut D,
    mirror: &mut Mirror,
    out: &mut K,
) -> Result<(), FollowFault>
    ensures whole { D.tells ≡ true → OnOk result (Appends (K.written out.old) (K.written out.new) (replies acts.now (bodies_of (D.seen disk.old)) mirror.old)) }
    ensures front { D.tells ≡ true → OnErr result (AppendsFront (K.written out.old) (K.written out.new) (replies acts.now (bodies_of (D.seen disk.old)) mirror.old)) }
    ensures write_fault { IsErrOf result FollowFault.WriteFault → Rose (K.faults out.old) (K.faults out.new) }
    ensures sink_stands { (IsErrOf result FollowFault.WriteFault → ⊥) → K.faults out.new ≡ K.faults out.old }
    ensures attached { D.attached disk.new ≡ D.attached disk.old }
    ensures seen { D.tells ≡ true → D.seen disk.new ≡ D.seen disk.old }
    ensures any { D.tells ≡ true → LeavesOnly D.moment D.images disk.old disk.new (D.images disk.old (D.moment disk.old)) }
    ensures later { D.faults disk.old ≤ D.faults disk.new }
    ensures cause { IsErrOf result FollowFault.DiskFault → Rose (D.faults disk.old) (D.faults disk.new) }
{
    for act in acts {
        let text = reply(alloc, *act, disk, mirror)?;
        write_all(out, &text)?;
    }
    Ok(())
}

/// Follows the store that two disks hold by the lines of a script: a mirror is made for the file that counts, does what each line asks for, and the reply to each
/// line is written. The disks are only read. Of a store that doesn't load nothing is said of what is written.
///
/// `DiskFault` comes only where the count of faults of a disk rose, `WriteFault` only where that of the sink did; a front of the replies was written then, as it was where
/// memory was wanted.

pub fn follow<K: Sink, D: Disk>(
    alloc: Global,
    acts: &[Act],
    first: &mut D,
    second: &mut D,
    out: &mut K,
) -> Result<(), FollowFault>
    // The replies are those of the mirror of the batches of this store.
    ensures whole { D.tells ≡ true → (s : Chosen) → store_of (D.seen first.old) (D.seen second.old) ≡ Ok s → OnOk result (Appends (K.written out.old) (K.written out.new) (script_replies acts.now s (pick s.second (D.seen first.old) (D.seen second.old)))) }
    ensures front { D.tells ≡ true → (s : Chosen) → store_of (D.seen first.old) (D.seen second.old) ≡ Ok s → OnErr result (AppendsFront (K.written out.old) (K.written out.new) (script_replies acts.now s (pick s.second (D.seen first.old) (D.seen second.old)))) }

    // That mirror holds the stored world of a front of these batches: of the first m, where m is the greatest number such that each of them was fed.
    ensures follows { D.tells ≡ true → (s : Chosen) → store_of (D.seen first.old) (D.seen second.old) ≡ Ok s → AreBytes (pick s.second (D.seen first.old) (D.seen second.old)) → length (pick s.second (D.seen first.old) (D.seen second.old)) ≤ 2 ^ 63
        → FollowsFront acts.now s (pick s.second (D.seen first.old) (D.seen second.old)) }
    ensures write_fault { IsErrOf result FollowFault.WriteFault → Rose (K.faults out.old) (K.faults out.new) }
    ensures sink_stands { (IsErrOf result FollowFault.WriteFault → ⊥) → K.faults out.new ≡ K.faults out.old }
    ensures first_attached { D.attached first.new ≡ D.attached first.old }
    ensures second_attached { D.attached second.new ≡ D.attached second.old }
    ensures first_seen { D.tells ≡ true → D.seen first.new ≡ D.seen first.old }
    ensures second_seen { D.tells ≡ true → D.seen second.new ≡ D.seen second.old }
    ensures first_any { D.tells ≡ true → LeavesOnly D.moment D.images first.old first.new (D.images first.old (D.moment first.old)) }
    ensures second_any { D.tells ≡ true → LeavesOnly D.moment D.images second.old second.new (D.images second.old (D.moment second.old)) }
    ensures first_later { D.faults first.old ≤ D.faults first.new }
    ensures second_later { D.faults second.old ≤ D.faults second.new }
    ensures cause { IsErrOf result FollowFault.DiskFault → Rose (D.faults first.old) (D.faults first.new) ⊎ Rose (D.faults second.old) (D.faults second.new) }
{
    let start = start_of(first, second)?;
    let mut mirror = Mirror::new(alloc, start.generation, start.first)?;
    if start.second {
        return run(alloc, acts, second, &mut mirror, out);
    }
    run(alloc, acts, first, &mut mirror, out)
}
