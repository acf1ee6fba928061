// What is kept of a store.
ghost use Rattle.std.specs.Prelude.{◌≡◌, ◌≤◌, ◌<◌, ◌^◌, ◌++◌, List, length, reverse, true, false, Some, None, IfOk, IfErr, OnOk, All};
ghost use Rattle.std.specs.Bool.{Decides};
ghost use Rattle.std.specs.List.{flat_map, list_all};
ghost use Rattle.muck_model.specs.Bytes.{text_fault};
ghost use Rattle.muck_codec.specs.Spelling.{spelling};
ghost use Rattle.muck_codec.specs.inner.Stored.{IsStored, IsTune};
ghost use Rattle.muck_codec.specs.Batches.{batch_bytes};
ghost use Rattle.muck_log.specs.World.{StoredWorld, stored_room_zero, first_digest, stored_player_one, start, lost, is_fine, IsFine, record_placed, all_placed, laid, kept_record, differs, records_written};
ghost use Rattle.muck_store.specs.Limits.{record_fits};
ghost use Rattle.muck_log.specs.inner.Head.{IsLaid, IsPut, IsPlaced, ArePlaced};

use crate::same::is_same;
use muck_codec::{Batch, CodecFault, Stored, put_record, put_tune, take_batch};
use muck_model::{Dbref, Flags, Kind, Line, LineFault, LineList, NoMemory, Row, Tune};
use muck_store::{fits, is_whole};
use spec_live::WIZARD;
use std::alloc::Global;
use std::marker::Model;

/// What a store holds: the record of each object, by its number from 0 on, and the tune parameters. Each record has a
/// spelling.
#[derive(Drop)]
pub struct Kept {
    alloc: Global,
    objects: Vec<Stored>,
    tune: Tune,
}

impl Model for Kept {
    ghost use Rattle.std.specs.Prelude.{All};
    ghost use Rattle.muck_codec.specs.inner.Stored.{IsStored};
    ghost use Rattle.muck_log.specs.World.{StoredWorld};

    ghost Value = { StoredWorld };

    ghost view = { λ w. record { objects = w.objects.items; tune = w.tune } };

    ghost invariant = { λ w. All IsStored w.objects.items };
}

// A text of these bytes, which are one.
fn text(alloc: Global, bytes: &[u8]) -> Result<Line, NoMemory>
    requires { text_fault bytes.now ≡ None }
    ensures { IfOk result (λ line. line ≡ bytes.now) }
{
    match Line::new(alloc, bytes) {
        Ok(line) => Ok(line),
        Err(LineFault::NoMemory) => Err(NoMemory),
        Err(LineFault::NotLine { .. }) => unreachable!(),
    }
}

// Room Zero, below which all rooms are.
#[tactic(auto, unfolding(crate::specs::World::stored_room_zero))]
fn room_zero(alloc: Global) -> Result<Stored, NoMemory>
    ensures { IfOk result (λ o. o ≡ stored_room_zero) }
{
    Ok(Stored {
        dbref: Dbref(0),
        kind: Kind::Room,
        flags: Flags(0),
        level: 0,
        owner: Dbref(1),
        place: Dbref(-1),
        link: Dbref(-1),
        home: Dbref(-1),
        first_content: Dbref(1),
        first_exit: Dbref(-1),
        next: Dbref(-1),
        name: text(alloc, b"Room Zero")?,
        props: Row::new(alloc)?,
        lines: LineList::new(alloc)?,
        digest: text(alloc, b"")?,
    })
}

// The digest of One's first password.
#[tactic(auto, unfolding(crate::specs::World::first_digest))]
fn first_digest(alloc: Global) -> Result<Line, NoMemory>
    ensures { IfOk result (λ line. line ≡ first_digest) }
{
    text(
        alloc,
        b"0000000000000000788a82af0ffc0d0cdaa372295052de2760a7cbb2947aa0585aab17efefce5216",
    )
}

// One, who is a wizard.
#[tactic(auto, unfolding(crate::specs::World::stored_player_one))]
fn player_one(alloc: Global) -> Result<Stored, NoMemory>
    ensures { IfOk result (λ o. o ≡ stored_player_one) }
{
    Ok(Stored {
        dbref: Dbref(1),
        kind: Kind::Player,
        flags: Flags(WIZARD),
        level: 0,
        owner: Dbref(1),
        place: Dbref(0),
        link: Dbref(-1),
        home: Dbref(0),
        first_content: Dbref(-1),
        first_exit: Dbref(-1),
        next: Dbref(-1),
        name: text(alloc, b"One")?,
        props: Row::new(alloc)?,
        lines: LineList::new(alloc)?,
        digest: first_digest(alloc)?,
    })
}

fn all_fit(objects: &[Stored]) -> bool
    ensures { result ≡ list_all record_fits objects.now }
{
    objects.iter().all(|object| fits(object))
}

#[tactic(auto, unfolding(crate::specs::World::is_fine))]
fn is_fine(alloc: Global, objects: &[Stored], tune: &Tune) -> Result<bool, NoMemory>
    ensures { IfOk result (λ yes. yes ≡ is_fine objects.now tune.now) }
{
    if objects.len() > 100_000 || !all_fit(objects) || !tune.fits() {
        return Ok(false);
    }
    Ok(is_whole(alloc, objects)?)
}

// Puts a record in the place of its number, or at the next number; false where that can't be.
#[tactic(auto, unfolding(crate::specs::World::record_placed))]
fn place(objects: &mut Vec<Stored>, object: Stored) -> Result<bool, NoMemory>
    ensures placed { IfOk result (λ yes. IsPlaced yes object objects.old.items objects.new.items) }
    ensures stored { IsStored object → All IsStored objects.old.items → All IsStored objects.new.items }
{
    if object.dbref.0 < 0 {
        return Ok(false);
    }
    let at = object.dbref.0 as usize;
    if at < objects.len() {
        objects[at] = object;
        return Ok(true);
    }
    if at == objects.len() {
        objects.push(object)?;
        return Ok(true);
    }
    Ok(false)
}

// Puts these records in their places, the last one first; false where one has none.
fn place_all(objects: &mut Vec<Stored>, records: Vec<Stored>) -> Result<bool, NoMemory>
    ensures placed { IfOk result (λ yes. ArePlaced yes (reverse records.items) objects.old.items objects.new.items) }
    ensures stored { All IsStored (reverse records.items) → All IsStored objects.old.items → All IsStored objects.new.items }
{
    let mut left = records;
    while let Some(object) = left.pop() {
        if !place(objects, object)? {
            return Ok(false);
        }
    }
    Ok(true)
}

fn in_order(records: Row<Stored>) -> Vec<Stored>
    ensures { reverse result.items ≡ records }
{
    let mut records = records.into_vec();
    records.reverse();
    records
}

impl Kept {
    #[tactic(auto, unfolding(crate::specs::World::start))]
    pub(crate) fn starting(alloc: Global) -> Result<Kept, NoMemory>
        ensures { IfOk result (λ w. w ≡ start) }
    {
        let mut objects = Vec::new(alloc);
        objects.push(room_zero(alloc)?)?;
        objects.push(player_one(alloc)?)?;
        Ok(Kept {
            alloc,
            objects,
            tune: Tune::first(),
        })
    }

    // What is left behind a batch that is outside the format.
    #[tactic(auto, unfolding(crate::specs::World::lost))]
    pub(crate) fn lose(&mut self)
        ensures { self.new ≡ lost }
    {
        self.objects.clear();
        self.tune = Tune::first();
    }

    /// The record of each object, by its number from 0 on.
    pub fn objects(&self) -> &[Stored]
        ensures objects { result.now ≡ self.now.objects }
        ensures storable { All IsStored self.now.objects }
    {
        &self.objects
    }

    /// The tune parameters.
    pub fn tune(&self) -> Tune
        ensures { result ≡ self.now.tune }
    {
        self.tune
    }

    // Puts the records and the parameters of a batch over it; false where that can't be, and nothing is said of it then.
    #[tactic(auto, unfolding(crate::specs::World::laid_over))]
    fn put(&mut self, batch: Batch) -> Result<bool, NoMemory>
        requires storable { All IsStored batch.records }
        ensures { IfOk result (λ yes. IsPut yes batch self.old self.new) }
    {
        let Batch { records, tune } = batch;
        if !place_all(&mut self.objects, in_order(records))? {
            return Ok(false);
        }
        self.tune = tune;
        Ok(true)
    }

    // Lays the bytes of a batch over it; false where that can't be, and nothing is said of it then.
    #[tactic(auto, unfolding(crate::specs::World::laid))]
    pub(crate) fn lay(&mut self, payload: &[u8]) -> Result<bool, NoMemory>
        ensures laid { IfOk result (λ yes. IsLaid yes payload.now self.old self.new) }
        ensures fine { IfOk result (λ yes. yes ≡ true → IsFine self.new) }
    {
        let batch = match take_batch(self.alloc, 1, payload) {
            Ok(batch) => batch,
            Err(CodecFault::BadRecord { .. }) => return Ok(false),
            Err(CodecFault::NoMemory) => return Err(NoMemory),
        };
        if !self.put(batch)? {
            return Ok(false);
        }
        Ok(is_fine(self.alloc, &self.objects, &self.tune)?)
    }

    // Lays a batch over it whose bytes are known to make a world. They are what would be read again, so nothing is read, and
    // nothing of the world is judged.
    pub(crate) fn lay_known(&mut self, batch: Batch) -> Result<(), NoMemory>
        requires few { length batch.records < 2 ^ 32 }
        requires storable { All IsStored batch.records }
        requires makes { (w : StoredWorld) × (laid (batch_bytes batch.records batch.tune) self.old ≡ Some w) }
        ensures laid { OnOk result (laid (batch_bytes batch.records batch.tune) self.old ≡ Some self.new) }
        ensures fine { OnOk result (IsFine self.new) }
    {
        see_tune(batch.tune);
        if !self.put(batch)? {
            unreachable!();
        }
        Ok(())
    }
}

// For contracts alone: each parameter fits its bytes.
#[tactic(auto, unfolding(muck_model::specs::Parameters::parameters))]
fn see_tune(tune: Tune)
    ensures { IsTune tune }
{}

// Whether a record is what is kept of its object.
fn is_kept(objects: &[Stored], object: &Stored) -> bool
    ensures { Decides result (kept_record objects.now object.now ≡ Some object.now) }
{
    if object.dbref.0 < 0 {
        return false;
    }
    match objects.get(object.dbref.0 as usize) {
        Some(kept) => is_same(kept, object),
        None => false,
    }
}

// Whether a record differs from what is kept of its object.
#[tactic(auto, using(crate::proofs::Differing::kept_differs))]
fn is_written(objects: &[Stored], object: &Stored) -> bool
    ensures { All IsStored objects.now → IsStored object.now → result ≡ differs objects.now object.now }
{
    !is_kept(objects, object)
}

// Leaves out the records that are what is kept of their objects. It takes no memory.
fn leave_out_kept(objects: &[Stored], records: &mut Vec<Stored>)
    requires kept { All IsStored objects.now }
    requires storable { All IsStored records.old.items }
    ensures { records.new.items ≡ records_written objects.now records.old.items }
{
    records.retain(|object| is_written(objects, object));
}

impl Kept {
    // What is written of a batch that is laid over it: its records that differ from what is kept. It takes no memory.
    #[tactic(auto, using(crate::proofs::Written::few))]
    pub(crate) fn leave_out(&self, batch: Batch) -> Batch
        requires storable { All IsStored batch.records }
        ensures records { result.records ≡ records_written self.now.objects batch.records }
        ensures tune { result.tune ≡ batch.tune }
        ensures few { length result.records ≤ length batch.records }
        ensures storable { All IsStored result.records }
        ensures kept { All IsStored self.now.objects }
    {
        let Batch { records, tune } = batch;
        let mut records = records.into_vec();
        leave_out_kept(&self.objects, &mut records);
        Batch {
            records: Row::of(records),
            tune,
        }
    }
}

// Writes these records.
fn put_records(alloc: Global, records: &[Stored], out: &mut Vec<u8>) -> Result<(), NoMemory>
    requires { All IsStored records.now }
    ensures { OnOk result (out.new.items ≡ out.old.items ++ flat_map spelling records.now) }
{
    for object in records {
        put_record(alloc, object, out)?;
    }
    Ok(())
}

// The bytes of a batch.
#[tactic(auto, unfolding(muck_codec::specs::Batches::batch_bytes))]
pub(crate) fn payload(alloc: Global, batch: &Batch) -> Result<Vec<u8>, NoMemory>
    requires few { length batch.now.records < 2 ^ 32 }
    requires storable { All IsStored batch.now.records }
    ensures { IfOk result (λ v. v.items ≡ batch_bytes batch.now.records batch.now.tune) }
{
    let count = batch.records.len() as u32;
    let mut payload = Vec::from_slice(alloc, &count.to_be_bytes())?;
    put_records(alloc, batch.records.as_slice(), &mut payload)?;
    put_tune(&mut payload, &batch.tune)?;
    Ok(payload)
}
