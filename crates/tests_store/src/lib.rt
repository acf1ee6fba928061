//! Tests of the store's crates: what a run writes byte for byte, what a crash may leave of it, and records.
#![tactic(auto)]

ghost use Rattle.std.specs.Prelude.{◌<◌, ◌^◌};

#[cfg(test)]
mod mirrors;
#[cfg(test)]
mod records;
#[cfg(test)]
mod runs;

use muck_codec::Batch;
use muck_disk::Disk;
use muck_log::{Log, LogFault};
use muck_model::{Row, Tune};
use std::alloc::Global;

/// Mounts, and writes a batch that leaves out the record of every object: what an empty run does.
pub fn run_once<D: Disk>(
    alloc: Global,
    first: &mut D,
    second: &mut D,
    most: u64,
) -> Result<u64, LogFault>
    requires { most < 2 ^ 63 }
{
    let mut log = Log::mount(alloc, first, second, most)?;
    let batch = Batch {
        records: Row::new(alloc)?,
        tune: Tune::first(),
    };
    log.append(first, second, batch)
}
