// Batches, as they are read.
ghost use Rattle.std.specs.Prelude.{◌≡◌, ◌≤◌, ◌<◌, length, Ok, Err, Some, None, All, IfOk};
ghost use Rattle.muck_codec.specs.inner.Stored.{IsStored};
ghost use Rattle.muck_codec.specs.Reading.{Gives, last_key};
ghost use Rattle.muck_codec.specs.Batches.{is_above, next_record_at, records_at, tune_at, batch_at, whole_batch, IsBatch};

use crate::fault::{CodecFault, Unread};
use crate::reading::u32_at;
use crate::record::record_at;
use crate::stored::{Batch, Stored};
use muck_model::{Dbref, Parameter, Row, Tune};
use std::alloc::Global;

fn is_above(before: Option<Dbref>, dbref: Dbref) -> bool
    ensures { result ≡ is_above before dbref }
{
    match before {
        Some(before) => before.0 < dbref.0,
        None => true,
    }
}

#[tactic(auto, unfolding(crate::specs::Batches::next_record_at))]
fn next_at(
    alloc: Global,
    version: u8,
    before: Option<Dbref>,
    bytes: &[u8],
) -> Result<(Stored, &[u8]), Unread>
    ensures { Gives (λ x. (x.0, x.1.now)) result (next_record_at version before bytes.now) }
{
    let (stored, rest) = record_at(alloc, version, bytes)?;
    if !is_above(before, stored.dbref) {
        return Err(Unread::Left(rest.len() + 1));
    }
    Ok((stored, rest))
}

// The number of the last record.
fn last_dbref(records: &[Stored]) -> Option<Dbref>
    ensures { result ≡ last_key (λ o. o.dbref) records.now }
{
    match records.last() {
        Some(last) => Some(last.dbref),
        None => None,
    }
}

fn records_at(
    alloc: Global,
    version: u8,
    count: u32,
    bytes: &[u8],
) -> Result<(Vec<Stored>, &[u8]), Unread>
    ensures { Gives (λ x. (x.0.items, x.1.now)) result (records_at version count bytes.now) }
{
    let mut records = Vec::new(alloc);
    let mut rest = bytes;
    for _ in 0..count {
        let (stored, after) = next_at(alloc, version, last_dbref(&records), rest)?;
        records.push(stored)?;
        rest = after;
    }
    Ok((records, rest))
}

#[tactic(auto, unfolding(crate::specs::Batches::tune_at), using(crate::proofs::Loops::reads_on, crate::proofs::Loops::reads_fail, crate::proofs::Loops::reads_end))]
fn tune_at(bytes: &[u8]) -> Result<(Tune, &[u8]), Unread>
    ensures { Gives (λ x. (x.0, x.1.now)) result (tune_at bytes.now) }
{
    let mut tune = Tune::first();
    let mut rest = bytes;
    for parameter in Parameter::all() {
        let (value, after) = u32_at(rest)?;
        tune.set(*parameter, value);
        rest = after;
    }
    Ok((tune, rest))
}

#[tactic(auto, unfolding(crate::specs::Batches::batch_at, crate::specs::Batches::whole_batch))]
fn whole(alloc: Global, version: u8, bytes: &[u8]) -> Result<Batch, Unread>
    ensures { Gives (λ x. x) result (whole_batch version bytes.now) }
{
    let (count, rest) = u32_at(bytes)?;
    let (records, rest) = records_at(alloc, version, count, rest)?;
    let (tune, rest) = tune_at(rest)?;
    if !rest.is_empty() {
        return Err(Unread::Left(rest.len()));
    }
    let records = Row::of(records);
    Ok(Batch { records, tune })
}

/// The batch of this version that the bytes are, to their end. `BadRecord` comes exactly where they are none: at the
/// first byte that no batch continues. A record whose dbref isn't above the one before is refused at its last byte. Each
/// record of version 1 has a spelling.
pub fn take_batch(alloc: Global, version: u8, bytes: &[u8]) -> Result<Batch, CodecFault>
    ensures exact { IsBatch version bytes.now result }
    ensures stored { version ≡ 1 → IfOk result (λ batch. All IsStored batch.records) }
{
    match whole(alloc, version, bytes) {
        Ok(batch) => Ok(batch),
        Err(Unread::Left(left)) => Err(CodecFault::BadRecord {
            at: bytes.len().saturating_sub(left),
        }),
        Err(Unread::NoMemory) => Err(CodecFault::NoMemory),
    }
}
