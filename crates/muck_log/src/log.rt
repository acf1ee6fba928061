// The log of a store.
ghost use Rattle.std.specs.Prelude.{◌≡◌, ◌⊎◌, ◌≤◌, ◌<◌, ◌+◌, ◌-◌, ◌^◌, List, ℕ, length, true, false, not, Some, Ok, All, IsSome, IfOk, IfErr, OnOk, OnErr, IsErrOf, if◌then◌else◌};
ghost use Rattle.muck_disk.specs.Images.{Only};
ghost use Rattle.muck_io.specs.Faults.{Rose};
ghost use Rattle.muck_log.specs.Body.{body_bytes};
ghost use Rattle.muck_log.specs.World.{StoredWorld, IsFine, laid};
ghost use Rattle.muck_model.specs.Parameters.{tune_fits};
ghost use Rattle.muck_model.specs.declared.tune.Tune.{Tune};
ghost use Rattle.spec_live.specs.Objects.{Entry as WorldEntry};
ghost use Rattle.muck_store.specs.inner.Changes.{LeavesOut};
ghost use Rattle.muck_store.specs.Forms.{persist};
ghost use Rattle.muck_log.specs.File.{after_number, begin};
ghost use Rattle.muck_log.specs.inner.Mount.{IsLoaded, IsLoadFault};
ghost use Rattle.muck_log.specs.Store.{LeavesBoth, MayBeAt, IsMounted, LogState, target, opens_new, next_body, after_batch, store_of, framed, pick, IsDone};
ghost use Rattle.muck_log.specs.Append.{IsEither, IsAppended, IsLaidNext, IsTarget, IsReady, IsRefused, IsFinished, IsNext, IsTouching, LoadsEither, MakesWorld, base_of, payload_of};
ghost use Rattle.muck_codec.specs.Batches.{batch_bytes};
ghost use Rattle.muck_codec.specs.inner.Stored.{IsStored};

use crate::kept::payload;
use crate::reader::Reader;
use crate::write::put_target;
use crate::{Kept, LogFault};
use muck_codec::{Batch, Stored};
use muck_disk::Disk;
use muck_model::NoMemory;
use std::alloc::{AllocError, Global};
use std::marker::Model;

/// The log of a store that was mounted from two disks.
#[derive(Drop)]
pub struct Log {
    alloc: Global,
    second: bool,
    place: u64,
    generation: u64,
    number: u64,
    count: u64,
    last: u64,
    world: Kept,
    close: bool,
    other_close: bool,
    stale: bool,
    most: u64,
}

impl Model for Log {
    ghost use Rattle.std.specs.Prelude.{◌≡◌, ◌≤◌, ◌<◌, ◌^◌, false};
    ghost use Rattle.muck_log.specs.Store.{LogState};
    ghost use Rattle.muck_log.specs.World.{IsFine};

    ghost Value = { LogState };

    ghost view = { λ l. record { chosen = record { second = l.second; place = l.place; held = record { generation = l.generation; number = l.number; count = l.count; last = l.last; world = l.world } }; close = l.close; other_close = l.other_close; stale = l.stale; most = l.most } };

    ghost invariant = { λ l. (l.count ≤ l.place) × (l.most < 2 ^ 63) × (l.generation < 2 ^ 64) × (l.stale ≡ false → IsFine l.world) };
}

// Where the next batch goes.
#[derive(Clone, Copy, Drop)]
pub struct Target {
    second: bool,
    place: u64,
    generation: u64,
    count: u64,
    close: bool,
    opens: bool,
}

// A batch that is ready to be written.
#[derive(Drop)]
pub struct Ready {
    target: Target,
    number: u64,
    size: u64,
    tail: Vec<u8>,
}

#[tactic(auto, unfolding(crate::specs::Body::body_bytes, crate::specs::Body::magic))]
fn encode(
    alloc: Global,
    generation: u64,
    number: u64,
    payload: &[u8],
) -> Result<Vec<u8>, AllocError>
    ensures { IfOk result (λ v. v.items ≡ body_bytes generation number payload.now) }
{
    let mut body = Vec::from_slice(alloc, b"MUCK\x01")?;
    body.extend_from_slice(&generation.to_be_bytes())?;
    body.extend_from_slice(&number.to_be_bytes())?;
    body.extend_from_slice(payload)?;
    Ok(body)
}

#[tactic(auto, unfolding(crate::specs::Store::framed))]
fn frame(alloc: Global, body: &[u8]) -> Result<Vec<u8>, AllocError>
    ensures { IfOk result (λ v. v.items ≡ framed body.now) }
{
    let mut tail = Vec::from_slice(alloc, &(body.len() as u64).to_be_bytes())?;
    tail.extend_from_slice(body)?;
    tail.push(0)?;
    Ok(tail)
}

impl Log {
    /// Whether the next batch opens a new generation in the other file, and so is laid over the starting world. It takes no
    /// memory.
    #[tactic(auto, unfolding(crate::specs::Store::opens_new))]
    pub fn opens_new(&self) -> bool
        ensures { result ≡ opens_new self.now.chosen.held }
    {
        self.count >= 64 && self.generation < u64::MAX
    }

    // The log of an empty store.
    #[tactic(auto, unfolding(crate::specs::File::begin))]
    pub(crate) fn empty(
        alloc: Global,
        close: bool,
        other_close: bool,
        most: u64,
    ) -> Result<Log, NoMemory>
        requires { most < 2 ^ 63 }
        ensures empty { IfOk result (λ log. log ≡ record { chosen = record { second = false; place = 0; held = begin 1 }; close = close; other_close = other_close; stale = false; most = most }) }
        ensures fine { IfOk result (λ log. IsFine log.chosen.held.world) }
    {
        let world = Kept::starting(alloc)?;
        Ok(Log {
            alloc,
            second: false,
            place: 0,
            generation: 1,
            number: 0,
            count: 0,
            last: 0,
            world,
            close,
            other_close,
            stale: false,
            most,
        })
    }

    // The log of a file that was read.
    pub(crate) fn loaded(
        alloc: Global,
        reader: Reader,
        second: bool,
        other_close: bool,
        most: u64,
    ) -> Result<Log, LogFault>
        requires { most < 2 ^ 63 }
        ensures ok { IfOk result (λ log. IsLoaded reader second other_close most log) }
        ensures err { IfErr result (λ fault. IsLoadFault reader second fault) }
        ensures fine { IfOk result (λ log. IsFine log.chosen.held.world) }
    {
        match reader.finish() {
            Err(at) => Err(LogFault::Damaged { second, at }),
            Ok(parts) => Ok(Log {
                alloc,
                second,
                place: parts.place,
                generation: parts.generation,
                number: parts.number,
                count: parts.count,
                last: parts.last,
                world: parts.world,
                close: parts.close,
                other_close,
                stale: false,
                most,
            }),
        }
    }

    /// What the store holds. While the log is stale it means nothing.
    pub fn kept(&self) -> &Kept
        ensures kept { result.now ≡ self.now.chosen.held.world }
        ensures fine { self.now.stale ≡ false → IsFine self.now.chosen.held.world }
    {
        &self.world
    }

    /// The number of the next batch. It takes no memory.
    #[tactic(auto, unfolding(crate::specs::File::after_number))]
    pub fn next(&self) -> u64
        ensures { result ≡ after_number self.now.chosen.held.number }
    {
        self.number.wrapping_add(1)
    }

    #[tactic(auto, unfolding(crate::specs::Store::target, crate::specs::File::begin, crate::specs::Store::opens_new))]
    fn target(&self) -> Target
        ensures target { IsTarget self.now result }
        ensures count { result.count ≤ result.place }
        ensures wide { result.generation < 2 ^ 64 }
    {
        if self.opens_new() {
            return Target {
                second: !self.second,
                place: 0,
                generation: self.generation + 1,
                count: 0,
                close: self.other_close,
                opens: true,
            };
        }
        Target {
            second: self.second,
            place: self.place,
            generation: self.generation,
            count: self.count,
            close: self.close,
            opens: false,
        }
    }

    // Lays a batch over the world that it stands on, with which it makes a world. The log is stale until that is done.
    #[tactic(auto, unfolding(crate::specs::Store::target, crate::specs::File::begin))]
    fn lay_next(&mut self, batch: Batch) -> Result<(), NoMemory>
        requires fresh { self.old.stale ≡ false }
        requires few { length batch.records < 2 ^ 32 }
        requires storable { All IsStored batch.records }
        requires makes { (w : StoredWorld) × (laid (batch_bytes batch.records batch.tune) (target self.old.chosen).held.world ≡ Some w) }
        ensures { OnOk result (IsLaidNext self.old self.new (batch_bytes batch.records batch.tune)) }
    {
        let opens = self.opens_new();
        self.stale = true;
        if opens {
            self.world = Kept::starting(self.alloc)?;
        }
        self.world.lay_known(batch)?;
        self.stale = false;
        Ok(())
    }

    /// What the next batch may leave out of the records of a world: the objects that are kept, or nothing where it opens a new
    /// generation. While the log is stale it means nothing. It takes no memory.
    #[tactic(auto, unfolding(crate::specs::Append::base_of))]
    pub fn base(&self) -> &[Stored]
        ensures base { result.now ≡ base_of self.now }
        ensures storable { All IsStored result.now }
    {
        if self.opens_new() {
            return &[];
        }
        self.world.objects()
    }

    // What is written of a batch: its records that differ from the world that it is laid over.
    #[tactic(auto, unfolding(crate::specs::Append::payload_of, crate::specs::Store::target, crate::specs::File::begin))]
    fn leave_out(&self, batch: Batch) -> Result<Batch, NoMemory>
        requires storable { All IsStored batch.records }
        ensures bytes { IfOk result (λ left. batch_bytes left.records left.tune ≡ payload_of self.now batch) }
        ensures few { IfOk result (λ left. length left.records ≤ length batch.records) }
        ensures storable { IfOk result (λ left. All IsStored left.records) }
        ensures kept { OnOk result (All IsStored (target self.now.chosen).held.world.objects) }
    {
        if self.opens_new() {
            return Ok(Kept::starting(self.alloc)?.leave_out(batch));
        }
        Ok(self.world.leave_out(batch))
    }

    // All that takes memory, and all refusals but those of the disks.
    #[tactic(auto, unfolding(crate::specs::Append::more_of, crate::specs::Store::next_body))]
    fn prepare(&mut self, batch: Batch) -> Result<Ready, LogFault>
        requires few { length batch.records < 2 ^ 32 }
        requires storable { All IsStored batch.records }
        requires makes { self.old.stale ≡ false → MakesWorld self.old batch }
        ensures ok { IfOk result (λ ready. IsReady self.old self.new (payload_of self.old batch) ready) }
        ensures kept { OnOk result (All IsStored (target self.old.chosen).held.world.objects) }
        ensures err { IfErr result (λ fault. IsRefused self.old self.new batch fault) }
    {
        if self.stale {
            return Err(LogFault::Stale);
        }
        let batch = self.leave_out(batch)?;
        let payload = payload(self.alloc, &batch)?;
        let number = self.next();
        let target = self.target();
        let body = encode(self.alloc, target.generation, number, &payload)?;
        let size = body.len() as u64;
        let more = size.saturating_add(10);
        if more > self.most || target.place > self.most - more {
            return Err(LogFault::StoreFull {
                end: target.place,
                more,
            });
        }
        let tail = frame(self.alloc, &body)?;
        self.lay_next(batch)?;
        Ok(Ready {
            target,
            number,
            size,
            tail,
        })
    }

    // The batch is written.
    fn finish(&mut self, target: Target, number: u64, size: u64)
        requires room { target.place + 10 + size < 2 ^ 63 }
        requires count { target.count ≤ target.place }
        ensures { IsFinished self.old self.new target number size }
    {
        self.second = target.second;
        self.place = target.place + 9 + size;
        self.generation = target.generation;
        self.number = number;
        self.count = target.count + 1;
        self.last = target.place;
        self.close = false;
        if target.opens {
            self.other_close = true;
        }
    }
}

impl Log {
    /// Writes a batch of the records of a world, by rising number, and answers its number. The batch may leave out what
    /// `base` keeps. Records that equal those of the world that the batch is laid over are left out of what is written:
    /// what is kept, or the starting world where a new generation is opened. So it makes the whole world, where that has no
    /// fewer objects than are kept. What is written is moved into what is kept. All memory is taken before the first write.
    ///
    /// Each record of the batch has a spelling, and the batch, laid over that world, makes one that hangs together with
    /// every value within its limits. It isn't judged here: what a world cuts has a spelling, and the batch of a consistent
    /// world makes one (`fit_makes`).
    ///
    /// `StoreFull` comes exactly where such a batch would pass the limit, before any write; the log stays as it was then.
    /// `DiskFault` comes only where a disk's count of faults rose, and leaves the log stale, as memory that ran out while
    /// the batch was laid may. A stale log answers `Stale` until it is mounted again. At each moment since the call began,
    /// whatever a crash leaves of both disks loads as the world before or as the one with the batch, and after `Ok` as the
    /// latter.
    #[tactic(auto, using(crate::proofs::Refusing::refused_whole))]
    pub fn append<D: Disk>(
        &mut self,
        first: &mut D,
        second: &mut D,
        batch: Batch,
    ) -> Result<u64, LogFault>
        requires few { length batch.records < 2 ^ 32 }
        requires storable { All IsStored batch.records }
        requires makes { self.old.stale ≡ false → MakesWorld self.old batch }
        requires mounted { D.tells ≡ true → self.old.stale ≡ false → IsMounted D.seen D.moment D.images self.old first.old second.old }
        ensures answer { IsAppended self.old self.new batch result }
        ensures whole { IsTouching result → (es : List WorldEntry) (tune : Tune) → LeavesOut (base_of self.old) (persist es) batch.records → batch.tune ≡ tune → tune_fits tune ≡ true → 2 ≤ length es
            → length self.old.chosen.held.world.objects ≤ length es → laid (payload_of self.old batch) (target self.old.chosen).held.world ≡ Some (record { objects = persist es; tune = tune }) }
        ensures chosen { OnOk result (IsNext self.old self.new (payload_of self.old batch)) }
        ensures mounted { D.tells ≡ true → OnOk result (IsMounted D.seen D.moment D.images self.new first.new second.new) }
        ensures any { D.tells ≡ true → self.old.stale ≡ false → (w : StoredWorld) → laid (payload_of self.old batch) (target self.old.chosen).held.world ≡ Some w
            → LeavesBoth D.moment D.images first.old second.old first.new second.new (LoadsEither self.old.chosen (after_batch self.old.chosen (payload_of self.old batch) w)) }
        ensures other { pick (target self.old.chosen).second second.new first.new ≡ pick (target self.old.chosen).second second.old first.old }
        ensures untouched { IsTouching result ⊎ ((first.new ≡ first.old) × (second.new ≡ second.old)) }
        ensures first_attached { D.attached first.new ≡ D.attached first.old }
        ensures second_attached { D.attached second.new ≡ D.attached second.old }
        ensures first_later { D.faults first.old ≤ D.faults first.new }
        ensures second_later { D.faults second.old ≤ D.faults second.new }
        ensures cause { IsErrOf result LogFault.DiskFault → Rose (D.faults first.old) (D.faults first.new) ⊎ Rose (D.faults second.old) (D.faults second.new) }
    {
        let ready = self.prepare(batch)?;
        let Ok(()) = put_target(
            first,
            second,
            ready.target.second,
            ready.target.place,
            ready.target.close,
            &ready.tail,
        ) else {
            self.stale = true;
            return Err(LogFault::DiskFault);
        };
        self.finish(ready.target, ready.number, ready.size);
        Ok(ready.number)
    }
}
