// All lists together, from `#0` on down.
ghost use Rattle.std.specs.Prelude.{◌≡◌, ◌<◌, ◌≤◌, length, true, not, None, Some, if◌then◌else◌, IfOk};
ghost use Rattle.std.specs.List.{count_by};
ghost use Rattle.spec_live.specs.Objects.{is_garbage};
ghost use Rattle.muck_store.specs.Whole.{all_met, held_met, is_tree, list_met, record_stands_in};

use crate::kinds::{is_exit, is_garbage};
use crate::met::Met;
use crate::records::{first_at, is_number, next_at};
use muck_codec::Stored;
use muck_model::NoMemory;
use std::alloc::Global;

// Whether d has its place there, and is an exit or not.
fn stands_in(records: &[Stored], exits: bool, p: u32, d: u32) -> bool
    ensures value { result ≡ record_stands_in records.now exits p d }
    ensures within { result ≡ true → d < length records.now }
{
    match records.get(d as usize) {
        Some(stored) => is_number(stored.place, p) && is_exit(stored.kind) == exits,
        None => false,
    }
}

// Meets what stands in one list: false where one of it was met before, or doesn't stand there.
fn list_met(records: &[Stored], exits: bool, p: u32, met: &mut Met) -> Result<bool, NoMemory>
    requires { length met.old.marks.items ≡ length records.now }
    ensures is { IfOk result (λ yes. list_met records.now exits p met.old.numbers.items ≡ (if yes then Some met.new.numbers.items else None)) }
    ensures size { length met.new.marks.items ≡ length records.now }
{
    let mut at = first_at(records, exits, p);
    while let Some(d) = at {
        if !stands_in(records, exits, p, d) || met.has(d) {
            return Ok(false);
        }
        met.push(d)?;
        at = next_at(records, d);
    }
    Ok(true)
}

// Meets what one object holds.
fn held_met(records: &[Stored], p: u32, met: &mut Met) -> Result<bool, NoMemory>
    requires { length met.old.marks.items ≡ length records.now }
    ensures is { IfOk result (λ yes. held_met records.now p met.old.numbers.items ≡ (if yes then Some met.new.numbers.items else None)) }
    ensures size { length met.new.marks.items ≡ length records.now }
{
    if !list_met(records, false, p, met)? {
        return Ok(false);
    }
    list_met(records, true, p, met)
}

// Meets what those hold that were met, and so on.
fn all_met(records: &[Stored], met: &mut Met) -> Result<bool, NoMemory>
    requires { length met.old.marks.items ≡ length records.now }
    ensures { IfOk result (λ yes. all_met (length records.now) records.now 0 met.old.numbers.items ≡ (if yes then Some met.new.numbers.items else None)) }
{
    let mut i = 0;
    while i < met.len() {
        if !held_met(records, met.at(i), met)? {
            return Ok(false);
        }
        i += 1;
    }
    Ok(true)
}

fn one_there(stored: &Stored) -> usize
    ensures is { result ≡ (if not (is_garbage stored.now.kind) then 1 else 0) }
    ensures most { result ≤ 1 }
{
    if is_garbage(stored.kind) { 0 } else { 1 }
}

// How many objects there are, without garbage.
fn count_there(records: &[Stored]) -> usize
    ensures { result ≡ count_by (λ s. not (is_garbage s.kind)) records.now }
{
    let mut n = 0;
    for stored in records {
        n += one_there(stored);
    }
    n
}

// Whether whatever isn't garbage is met, and nothing twice.
pub fn is_tree(alloc: Global, records: &[Stored]) -> Result<bool, NoMemory>
    requires { 0 < length records.now }
    ensures { IfOk result (λ yes. yes ≡ is_tree records.now) }
{
    let mut met = Met::new(alloc, records.len())?;
    met.push(0)?;
    if !all_met(records, &mut met)? {
        return Ok(false);
    }
    Ok(met.len() == count_there(records))
}
