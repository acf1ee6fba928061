// The world that a mirror holds. A batch is laid over it in place, and what it replaces is kept until nothing can fail any more.
ghost use Rattle.std.specs.Prelude.{◌≡◌, ◌≤◌, ◌<◌, ℕ, All, IfOk, OnOk, OnErr, length, reverse, slice_set, slice_index_or, []};
ghost use Rattle.spec_live.specs.Objects.{index_of};
ghost use Rattle.std.specs.List.{list_all};
ghost use Rattle.muck_codec.specs.inner.Stored.{IsStored};
ghost use Rattle.muck_log.specs.World.{start, is_fine, record_placed, all_placed};
ghost use Rattle.muck_log.specs.inner.Head.{IsPlaced, ArePlaced};
ghost use Rattle.muck_store.specs.Limits.{record_fits};
ghost use Rattle.muck_mirror.specs.Laying.{IsSound, laid_in};
ghost use Rattle.muck_mirror.specs.inner.Undoing.{put_back, undone, undone_world, AreLaid, IsLaid, IsUndone};

use crate::start::{player_one, room_zero};
use muck_codec::{Batch, CodecFault, Stored, take_batch};
use muck_model::{Dbref, NoMemory, Row, Tune};
use muck_store::{fits, is_whole};
use std::alloc::Global;
use std::marker::Model;
use std::mem;

/// What a mirror holds: the record of each object, by its number from 0 on, and the tune parameters.
#[derive(Drop)]
pub struct World {
    alloc: Global,
    objects: Vec<Stored>,
    tune: Tune,
}

impl Model for World {
    ghost use Rattle.muck_log.specs.World.{StoredWorld as Held};

    ghost Value = { Held };

    ghost view = { λ w. record { objects = w.objects.items; tune = w.tune } };
}

// A record that stood at this number before.
#[derive(Drop)]
pub struct Replaced {
    pub at: usize,
    pub was: Stored,
}

// What undoes a batch: how many records there were, those that were replaced, and the parameters.
#[derive(Drop)]
pub struct Undo {
    count: usize,
    replaced: Vec<Replaced>,
    tune: Tune,
}

fn all_fit(objects: &[Stored]) -> bool
    ensures { result ≡ list_all record_fits objects.now }
{
    objects.iter().all(|object| fits(object))
}

#[tactic(auto, unfolding(muck_log::specs::World::is_fine))]
fn is_fine(alloc: Global, objects: &[Stored], tune: &Tune) -> Result<bool, NoMemory>
    ensures { IfOk result (λ yes. yes ≡ is_fine objects.now tune.now) }
{
    if objects.len() > 100_000 || !all_fit(objects) || !tune.fits() {
        return Ok(false);
    }
    Ok(is_whole(alloc, objects)?)
}

// The number from 0 on.
fn index_of(d: Dbref) -> Option<usize>
    ensures { result ≡ index_of d }
{
    if d.0 < 0 {
        return None;
    }
    Some(d.0 as usize)
}

// Puts a record in the place of another one, which it answers.
fn swapped(objects: &mut Vec<Stored>, at: usize, object: Stored) -> Stored
    requires { at < length objects.old.items }
    ensures set { objects.new.items ≡ slice_set objects.old.items at object }
    ensures was { result ≡ slice_index_or objects.old.items at result }
{
    mem::replace(&mut objects[at], object)
}

// Puts a record in the place of another one, which is put aside. Where memory is wanted all is as it was.
fn exchange(
    objects: &mut Vec<Stored>,
    at: usize,
    object: Stored,
    replaced: &mut Vec<Replaced>,
) -> Result<(), NoMemory>
    requires { at < length objects.old.items }
    ensures set { OnOk result (objects.new.items ≡ slice_set objects.old.items at object) }
    ensures same { OnErr result (objects.new.items ≡ objects.old.items) }
    ensures back { (count : ℕ) → undone count replaced.new.items objects.new.items ≡ undone count replaced.old.items objects.old.items }
{
    let was = swapped(objects, at, object);
    match replaced.push(Replaced { at, was }) {
        Ok(()) => Ok(()),
        Err(failed) => {
            swapped(objects, at, failed.value.was);
            Err(NoMemory)
        }
    }
}

// Puts a record in the place of its number, or at the next number; false where that can't be. What it replaces is put aside.
fn place(
    objects: &mut Vec<Stored>,
    object: Stored,
    replaced: &mut Vec<Replaced>,
) -> Result<bool, NoMemory>
    ensures placed { IfOk result (λ yes. IsPlaced yes object objects.old.items objects.new.items) }
    ensures stored { IsStored object → All IsStored objects.old.items → All IsStored objects.new.items }
    ensures back { (count : ℕ) → count ≤ length objects.old.items → undone count replaced.new.items objects.new.items ≡ undone count replaced.old.items objects.old.items }
    ensures longer { length objects.old.items ≤ length objects.new.items }
{
    let Some(at) = index_of(object.dbref) else {
        return Ok(false);
    };
    if at < objects.len() {
        exchange(objects, at, object, replaced)?;
        return Ok(true);
    }
    if at == objects.len() {
        objects.push(object)?;
        return Ok(true);
    }
    Ok(false)
}

// Puts these records in their places, the last one first; false where one has none.
fn place_all(
    objects: &mut Vec<Stored>,
    records: Vec<Stored>,
    replaced: &mut Vec<Replaced>,
) -> Result<bool, NoMemory>
    ensures placed { IfOk result (λ yes. ArePlaced yes (reverse records.items) objects.old.items objects.new.items) }
    ensures stored { All IsStored (reverse records.items) → All IsStored objects.old.items → All IsStored objects.new.items }
    ensures back { (count : ℕ) → count ≤ length objects.old.items → undone count replaced.new.items objects.new.items ≡ undone count replaced.old.items objects.old.items }
{
    let mut left = records;
    while let Some(object) = left.pop() {
        if !place(objects, object, replaced)? {
            return Ok(false);
        }
    }
    Ok(true)
}

fn in_order(records: Row<Stored>) -> Vec<Stored>
    ensures { reverse result.items ≡ records }
{
    let mut records = records.into_vec();
    records.reverse();
    records
}

// Puts these records in their places again, the last one first.
fn put_back(objects: &mut Vec<Stored>, replaced: Vec<Replaced>)
    ensures { objects.new.items ≡ put_back replaced.items objects.old.items }
{
    let mut left = replaced;
    while let Some(one) = left.pop() {
        let Replaced { at, was } = one;
        if at < objects.len() {
            objects[at] = was;
        }
    }
}

// There are so many records again, as they were.
fn undo_records(objects: &mut Vec<Stored>, count: usize, replaced: Vec<Replaced>)
    ensures { objects.new.items ≡ undone count replaced.items objects.old.items }
{
    objects.truncate(count);
    put_back(objects, replaced);
}

// Puts the records of a batch in their places; false where that doesn't make a consistent world within the limits. Nothing is put back.
#[tactic(auto, unfolding(muck_log::specs::World::laid_over))]
fn put(
    alloc: Global,
    objects: &mut Vec<Stored>,
    batch: Batch,
    replaced: &mut Vec<Replaced>,
) -> Result<bool, NoMemory>
    requires none { replaced.old.items ≡ [] }
    ensures laid { IfOk result (λ yes. AreLaid yes batch objects.old.items objects.new.items) }
    ensures stored { All IsStored batch.records → All IsStored objects.old.items → All IsStored objects.new.items }
    ensures back { undone (length objects.old.items) replaced.new.items objects.new.items ≡ objects.old.items }
{
    let Batch { records, tune } = batch;
    if !place_all(objects, in_order(records), replaced)? {
        return Ok(false);
    }
    Ok(is_fine(alloc, objects, &tune)?)
}

impl World {
    #[tactic(auto, unfolding(muck_log::specs::World::start))]
    pub(crate) fn starting(alloc: Global) -> Result<World, NoMemory>
        ensures start { IfOk result (λ w. w ≡ start) }
        ensures sound { IfOk result (λ w. IsSound w) }
    {
        let mut objects = Vec::new(alloc);
        objects.push(room_zero(alloc)?)?;
        objects.push(player_one(alloc)?)?;
        Ok(World {
            alloc,
            objects,
            tune: Tune::first(),
        })
    }

    /// The record of each object, by its number from 0 on.
    pub fn objects(&self) -> &[Stored]
        ensures { result.now ≡ self.now.objects }
    {
        &self.objects
    }

    /// The tune parameters.
    pub fn tune(&self) -> Tune
        ensures { result ≡ self.now.tune }
    {
        self.tune
    }

    // Lays a batch over it, and answers what undoes it; none where that can't be. Nothing is changed then, nor where memory is wanted.
    fn lay_batch(&mut self, batch: Batch) -> Result<Option<Undo>, NoMemory>
        requires stored { All IsStored batch.records }
        requires sound { IsSound self.old }
        ensures laid { IfOk result (λ undo. IsUndone undo batch self.old self.new) }
        ensures unchanged { OnErr result (self.new ≡ self.old) }
        ensures sound { OnOk result (IsSound self.new) }
    {
        let count = self.objects.len();
        let tune = batch.tune;
        let mut replaced = Vec::new(self.alloc);
        match put(self.alloc, &mut self.objects, batch, &mut replaced) {
            Ok(true) => {
                let before = self.tune;
                self.tune = tune;
                Ok(Some(Undo {
                    count,
                    replaced,
                    tune: before,
                }))
            }
            Ok(false) => {
                undo_records(&mut self.objects, count, replaced);
                Ok(None)
            }
            Err(fault) => {
                undo_records(&mut self.objects, count, replaced);
                Err(fault)
            }
        }
    }

    // Lays the bytes of a batch over it.
    #[tactic(auto, unfolding(crate::specs::Laying::laid_in))]
    pub(crate) fn lay(&mut self, payload: &[u8]) -> Result<Option<Undo>, NoMemory>
        requires sound { IsSound self.old }
        ensures laid { IfOk result (λ undo. IsLaid undo payload.now self.old self.new) }
        ensures unchanged { OnErr result (self.new ≡ self.old) }
        ensures sound { OnOk result (IsSound self.new) }
    {
        match take_batch(self.alloc, 1, payload) {
            Ok(batch) => self.lay_batch(batch),
            Err(CodecFault::BadRecord { .. }) => Ok(None),
            Err(CodecFault::NoMemory) => Err(NoMemory),
        }
    }

    // The world is as it was before the batch.
    pub(crate) fn undo(&mut self, undo: Undo)
        ensures { self.new ≡ undone_world undo self.old }
    {
        let Undo {
            count,
            replaced,
            tune,
        } = undo;
        undo_records(&mut self.objects, count, replaced);
        self.tune = tune;
    }
}
