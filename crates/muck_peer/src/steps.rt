// Which entry a connection wants next, and its deed.
ghost use Rattle.std.specs.Prelude.{◌≡◌, ◌≢◌, ◌<◌, [], ℕ, List, IfSome, length, true, false, if◌then◌else◌};
ghost use Rattle.muck_model.specs.declared.event.Event.{Event};
ghost use Rattle.spec_events.specs.World.{queue_of};
ghost use Rattle.spec_events.specs.Steps.{is_lawful};
ghost use Rattle.spec_events.specs.Histories.{now, entered, by_porter};
ghost use Rattle.muck_machine.specs.inner.Situations.{situation_in};
ghost use Rattle.muck_peer.specs.Moves.{HasCause, IsWanted, ChoseAs, Clocked, IsUntimed};

use crate::{Peer, tells_time};
use muck_io::Clock;
use muck_machine::{Situation, World};
use muck_model::NoMemory;

// So many bytes that wait are taken before the next line is entered, and any behind so many lines.
const BYTES_MANY: usize = 4096;

const LINES_MANY: usize = 16;

/// What is to be done for a connection.
#[derive(Drop)]
pub enum Want {
    /// It is closed: there is a cause.
    Close,
    /// Of the bytes that wait for it, so many, some are taken.
    Bytes(usize),
    /// A line is entered.
    Line,
    /// There is a cause to close it, and it isn't there: a moment is entered.
    Time,
}

/// What was entered for a connection.
#[derive(Drop)]
pub enum Chose {
    /// A line, bytes that were taken, or a moment.
    Went,
    /// It was closed.
    Closed,
    /// Memory was wanted.
    Dead,
}

// What is to be done where there is a cause to close it: it can go where it is there.
fn ending(there: bool) -> Want
    ensures { result ≡ (if there then Want.Close else Want.Time) }
{
    if there { Want::Close } else { Want::Time }
}

impl Peer {
    // How many bytes wait for it that may be taken: none while some are kept.
    fn takeable(&self, stands: Situation) -> usize
        ensures { 0 < result → (self.now.unsent ≡ []) × (result ≡ stands.queued) }
    {
        if self.has_unsent() {
            return 0;
        }
        stands.queued
    }

    // Whether a line may be entered.
    fn has_next(&self, stands: Situation) -> bool
        ensures { result ≡ true → (self.now.cut.ready ≢ []) × (stands.hears ≡ true) }
    {
        if !self.cutter.has_line() {
            return false;
        }
        stands.hears
    }

    // Whether bytes are taken though not many wait: behind many lines; or where no line may be entered and they aren't held back.
    fn takes_few(&self, has_next: bool) -> bool {
        if has_next {
            self.entered >= LINES_MANY
        } else {
            !self.waits
        }
    }

    // Whether of so many bytes that wait some are taken now. So what comes of many lines goes out in one write.
    fn takes_now(&self, queued: usize, has_next: bool) -> bool
        ensures { result ≡ true → 0 < queued }
    {
        queued > 0 && (queued >= BYTES_MANY || self.takes_few(has_next))
    }

    // What is to be done for the connection, which stands so.
    fn want(&self, stands: Situation, world: &World) -> Option<Want>
        requires alive { (now world.now).dead ≡ false }
        requires seen { stands ≡ situation_in self.now.number (now world.now) }
        ensures { IfSome result (λ want. IsWanted want self.now (now world.now)) }
    {
        if self.may_close(stands, world) {
            return Some(ending(stands.there));
        }
        let queued = self.takeable(stands);
        let hears = self.has_next(stands);
        if self.takes_now(queued, hears) {
            return Some(Want::Bytes(queued));
        }
        if hears {
            return Some(Want::Line);
        }
        None
    }

    /// What is to be done for the connection in this world, if anything: it is closed where there is a cause, bytes are taken where none are kept, or a line
    /// is entered. The connection is looked at once.
    pub fn wants(&self, world: &World) -> Option<Want>
        requires { (now world.now).dead ≡ false }
        ensures { IfSome result (λ want. IsWanted want self.now (now world.now)) }
    {
        self.want(self.situation(world), world)
    }

    // It is closed.
    fn closes(&self, world: &mut World) -> Chose
        requires may { is_lawful (now world.old) (by_porter (Event.Closed self.now.number)) ≡ true }
        requires cause { HasCause self.now (now world.old) }
        ensures { (event : Event) × (world.new ≡ entered world.old (by_porter event)) × ChoseAs result self.now self.now (now world.old) event × IsUntimed event }
    {
        match world.closed(self.number) {
            Ok(()) => Chose::Closed,
            Err(NoMemory) => Chose::Dead,
        }
    }

    // Bytes are taken, as many as there is room for.
    fn takes_some(&mut self, world: &mut World) -> Chose
        requires alive { (now world.old).dead ≡ false }
        requires none { self.old.unsent ≡ [] }
        requires some { 0 < length (queue_of self.old.number (now world.old)) }
        ensures { (event : Event) × (world.new ≡ entered world.old (by_porter event)) × ChoseAs result self.old self.new (now world.old) event × IsUntimed event }
    {
        let n = world.take(self.number, self.buffer.as_mut_slice());
        self.at = 0;
        self.len = n;
        self.entered = 0;
        self.held = 0;
        Chose::Went
    }

    // Bytes are taken, of so many.
    fn takes(&mut self, world: &mut World, queued: usize) -> Chose
        requires alive { (now world.old).dead ≡ false }
        requires none { self.old.unsent ≡ [] }
        requires some { 0 < length (queue_of self.old.number (now world.old)) }
        ensures { (event : Event) × (world.new ≡ entered world.old (by_porter event)) × ChoseAs result self.old self.new (now world.old) event × IsUntimed event }
    {
        self.widens(queued);
        self.takes_some(world)
    }

    // A line is entered.
    fn enters(&mut self, world: &mut World) -> Chose
        requires may { (line : List ℕ) → is_lawful (now world.old) (by_porter (Event.Input self.old.number line)) ≡ true }
        requires some { self.old.cut.ready ≢ [] }
        ensures { (event : Event) × (world.new ≡ entered world.old (by_porter event)) × ChoseAs result self.old self.new (now world.old) event × IsUntimed event }
    {
        let Some(line) = self.cutter.next_line() else {
            unreachable!()
        };
        self.entered = self.entered.saturating_add(1);
        match world.input(self.number, line) {
            Ok(yes) => {
                if yes {
                    return Chose::Went;
                }
                unreachable!()
            }
            Err(NoMemory) => Chose::Dead,
        }
    }

    /// Makes one entry for the connection: what it wants.
    pub fn chooses<C: Clock>(&mut self, want: Want, world: &mut World, clock: &mut C) -> Chose
        requires alive { (now world.old).dead ≡ false }
        requires wanted { IsWanted want self.old (now world.old) }
        ensures { (event : Event) × (world.new ≡ entered world.old (by_porter event)) × ChoseAs result self.old self.new (now world.old) event × Clocked (C.answers clock.old) (C.answers clock.new) (now world.old) event }
    {
        match want {
            Want::Close => self.closes(world),
            Want::Bytes(queued) => self.takes(world, queued),
            Want::Line => self.enters(world),
            Want::Time => {
                tells_time(world, clock);
                Chose::Went
            }
        }
    }
}
