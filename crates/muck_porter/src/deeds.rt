// What the porter does in a hold: each deed makes one entry.
ghost use Rattle.std.specs.Prelude.{◌≡◌, ◌<◌, ℕ, [], IfSome, length, true, false};
ghost use Rattle.muck_model.specs.declared.event.Event.{Event};
ghost use Rattle.spec_events.specs.Histories.{now, entered, by_porter};
ghost use Rattle.spec_events.specs.Steps.{has_claim};
ghost use Rattle.muck_peer.specs.Moves.{Clocked, IsUntimed};
ghost use Rattle.muck_porter.specs.inner.Deeds.{AllOff, IsWantedAt, IsFound, ServedAs, ServedFrom, WorkedAs, DidAs, ClaimOf};

use muck_io::Clock;
use muck_model::NoMemory;
use muck_peer::{Chose, Peer, Want, tells_time};
use muck_work::{Job, World, does_job};

/// A deed that isn't for one peer, nor work.
#[derive(Drop)]
pub enum Deed {
    /// The connection of a link that came is opened.
    Open(u32),
    /// The process that was claimed runs for a slice.
    Slice(i32),
    /// Time goes on.
    Time,
    /// The run is stopped.
    Stop,
    /// The porter has seen the stop.
    Leave,
    /// Memory was wanted outside of the world.
    Die,
}

/// What became of a deed.
#[derive(Drop)]
pub enum Did {
    Done,
    /// It may not be done now: a moment was entered.
    Timed,
    /// Memory was wanted.
    Dead,
}

/// Which peer was served.
#[derive(Drop)]
pub enum Served {
    Went(usize),
    Closed(usize),
    /// None wants anything: a moment was entered.
    Nobody,
    /// Memory was wanted.
    Dead,
}

/// What a turn of work did.
#[derive(Drop)]
pub enum Worked {
    /// A job was done.
    Did(Job),
    /// The run is stopping: a moment was entered.
    Waits,
    /// The same, and each link that is open is worked off.
    Ready,
}

fn all_worked_off(peers: &Vec<Peer>, world: &World) -> bool
    requires { (now world.now).dead ≡ false }
    ensures { result ≡ true → AllOff (now world.now) peers.now.items }
{
    for p in peers.as_slice() {
        if !p.is_worked_off(world) {
            return false;
        }
    }
    true
}

// The first peer from a place on that wants something, and what.
fn finds(peers: &Vec<Peer>, from: usize, world: &World) -> Option<(usize, Want)>
    requires { (now world.now).dead ≡ false }
    ensures { IfSome result (λ found. IsFound from peers.now.items (now world.now) found.0 found.1) }
{
    let mut at = from;
    while at < peers.len() {
        let peer = &peers[at];
        match peer.wants(world) {
            Some(want) => return Some((at, want)),
            None => at += 1,
        }
    }
    None
}

// One entry, for the peer at this place, which wants this.
fn serves_at<C: Clock>(
    world: &mut World,
    clock: &mut C,
    peers: &mut Vec<Peer>,
    at: usize,
    want: Want,
) -> Served
    requires alive { (now world.old).dead ≡ false }
    requires below { at < length peers.old.items }
    requires wanted { IsWantedAt peers.old.items (now world.old) at want }
    ensures step { (event : Event) × (world.new ≡ entered world.old (by_porter event)) × ServedAs result peers.old.items peers.new.items (now world.old) event × Clocked (C.answers clock.old) (C.answers clock.new) (now world.old) event }
    ensures place { ServedFrom at result }
{
    let peer = &mut peers[at];
    match peer.chooses(want, world, clock) {
        Chose::Went => Served::Went(at),
        Chose::Closed => Served::Closed(at),
        Chose::Dead => Served::Dead,
    }
}

/// One entry, for the first peer from a place on that wants something.
pub fn serves<C: Clock>(
    world: &mut World,
    clock: &mut C,
    peers: &mut Vec<Peer>,
    from: usize,
) -> Served
    ensures step { (event : Event) × (world.new ≡ entered world.old (by_porter event)) × ServedAs result peers.old.items peers.new.items (now world.old) event × Clocked (C.answers clock.old) (C.answers clock.new) (now world.old) event }
    ensures place { ServedFrom from result }
{
    if world.is_dead() {
        world.died(0);
        return Served::Dead;
    }
    match finds(peers, from, world) {
        Some((at, want)) => serves_at(world, clock, peers, at, want),
        None => {
            tells_time(world, clock);
            Served::Nobody
        }
    }
}

/// One entry of a turn of work.
pub fn works<C: Clock>(world: &mut World, clock: &mut C, peers: &Vec<Peer>) -> Worked
    ensures { (event : Event) × (world.new ≡ entered world.old (by_porter event)) × WorkedAs result event × Clocked (C.answers clock.old) (C.answers clock.new) (now world.old) event }
{
    if world.is_dead() {
        world.died(0);
        return Worked::Did(Job::Died);
    }
    if !world.is_stopping() {
        return Worked::Did(does_job(world, 0));
    }
    let ready = all_worked_off(peers, world);
    tells_time(world, clock);
    if ready { Worked::Ready } else { Worked::Waits }
}

// A connection is opened, where it may, and not once the note of the links was made.
fn opens<C: Clock>(world: &mut World, clock: &mut C, d: u32, noted: bool) -> Did
    requires { (now world.old).dead ≡ false }
    ensures { (event : Event) × (world.new ≡ entered world.old (by_porter event)) × DidAs (Deed.Open d) result noted [] (now world.old) event × Clocked (C.answers clock.old) (C.answers clock.new) (now world.old) event }
{
    if noted {
        tells_time(world, clock);
        return Did::Timed;
    }
    let opened = match world.opened(d) {
        Ok(opened) => opened,
        Err(NoMemory) => return Did::Dead,
    };
    if opened {
        return Did::Done;
    }
    tells_time(world, clock);
    Did::Timed
}

// The claimed process runs, or it has ended.
fn slices(world: &mut World, pid: i32) -> Did
    requires alive { (now world.old).dead ≡ false }
    requires claim { has_claim 0 pid (now world.old) ≡ true }
    ensures { (event : Event) × (world.new ≡ entered world.old (by_porter event)) × DidAs (Deed.Slice pid) result false [] (now world.old) event × IsUntimed event }
{
    match world.slice(0, pid) {
        Ok(_) => Did::Done,
        Err(NoMemory) => Did::Dead,
    }
}

// The porter has seen the stop, where all is worked off.
fn leaves<C: Clock>(world: &mut World, clock: &mut C, peers: &Vec<Peer>) -> Did
    requires { (now world.old).dead ≡ false }
    ensures { (event : Event) × (world.new ≡ entered world.old (by_porter event)) × DidAs Deed.Leave result false peers.now.items (now world.old) event × Clocked (C.answers clock.old) (C.answers clock.new) (now world.old) event }
{
    if !world.is_stopping() {
        tells_time(world, clock);
        return Did::Timed;
    }
    if !all_worked_off(peers, world) {
        tells_time(world, clock);
        return Did::Timed;
    }
    if world.stopped(0) {
        return Did::Done;
    }
    tells_time(world, clock);
    Did::Timed
}

// The run is stopped, where it isn't yet.
fn halts<C: Clock>(world: &mut World, clock: &mut C) -> Did
    requires { (now world.old).dead ≡ false }
    ensures { (event : Event) × (world.new ≡ entered world.old (by_porter event)) × DidAs Deed.Stop result false [] (now world.old) event × Clocked (C.answers clock.old) (C.answers clock.new) (now world.old) event }
{
    if !world.is_stopping() {
        world.halt();
        return Did::Done;
    }
    tells_time(world, clock);
    Did::Timed
}

/// One entry of any other deed. `noted` tells whether the note of the links was made.
pub fn does<C: Clock>(
    deed: &Deed,
    world: &mut World,
    clock: &mut C,
    peers: &Vec<Peer>,
    noted: bool,
) -> Did
    requires { ClaimOf deed.now (now world.old) }
    ensures { (event : Event) × (world.new ≡ entered world.old (by_porter event)) × DidAs deed.now result noted peers.now.items (now world.old) event × Clocked (C.answers clock.old) (C.answers clock.new) (now world.old) event }
{
    if world.is_dead() {
        world.died(0);
        return Did::Dead;
    }
    match *deed {
        Deed::Open(d) => opens(world, clock, d, noted),
        Deed::Slice(pid) => slices(world, pid),
        Deed::Time => {
            tells_time(world, clock);
            Did::Timed
        }
        Deed::Stop => halts(world, clock),
        Deed::Leave => leaves(world, clock, peers),
        Deed::Die => {
            world.died(0);
            Did::Dead
        }
    }
}
