// A mirror follows the store of a name.
ghost use Rattle.std.specs.Prelude.{◌≡◌};
ghost use Rattle.muck_mirroring.specs.Mirroring.{MirrorDone};
ghost use Rattle.muck_mirroring.specs.inner.Reading.{why_of};

use crate::reading::read_script;
use muck_disk::Disk;
use muck_follow::{FollowFault, follow};
use muck_io::{Sink, Source};
use muck_run::mount;
use muck_why::Why;
use std::alloc::Global;

// Why a call ends that ceased to follow.
fn why_of(fault: FollowFault) -> Why
    ensures { result ≡ why_of fault }
{
    match fault {
        FollowFault::NoMemory => Why::NoMemory,
        FollowFault::DiskFault => Why::DiskFault,
        FollowFault::WriteFault => Why::WriteFault,
    }
}

/// Opens the files of the store of this name, with `.a` and `.b` behind it, as the two disks, mounts the store that they hold, reads the script whole, has a mirror follow the
/// store by its lines, and writes the reply to each. Nothing is written to the files. Answers why it ended; the first cause stands.
///
/// `Damaged` comes where the files hold no store, and before the script is read; `BadScript` where a line is outside the grammar, with the number of the first, and `ReadFault`
/// where the source failed: then nothing is written. `WriteFault` comes where the sink failed, `DiskFault` where a disk did, and `NoMemory` at any time.
pub fn mirror<S: Source, K: Sink, D: Disk>(
    alloc: Global,
    store: &str,
    script: &mut S,
    out: &mut K,
    first: &mut D,
    second: &mut D,
) -> Why
    ensures done { MirrorDone S.left S.faults K.written K.faults D.tells D.attached D.seen D.moment D.images D.faults store.now result script.old script.new out.old out.new first.old second.old first.new second.new }
{
    let log = match mount(alloc, store, first, second) {
        Ok(log) => log,
        Err(why) => return why,
    };
    drop(log);
    let acts = match read_script(alloc, script) {
        Ok(acts) => acts,
        Err(why) => return why,
    };
    match follow(alloc, acts.as_slice(), first, second, out) {
        Ok(()) => Why::Fine,
        Err(fault) => why_of(fault),
    }
}
