// The porter.
ghost use Rattle.std.specs.Prelude.{◌≡◌, true};
ghost use Rattle.muck_porter.specs.declared.porting.Why.{Why};
ghost use Rattle.muck_porter.specs.inner.Kept.{account};
ghost use Rattle.muck_porter.specs.inner.Rounds.{is_left};
ghost use Rattle.muck_porter.specs.inner.Porter.{PorterReady, PorterDone};
ghost use Rattle.muck_porter.specs.inner.Desks.{stand, Far, Stands, Fresh, Goes};
ghost use Rattle.muck_porter.specs.inner.Reaches.{round_reach, why_far};

use crate::desk::{Desk, Fault};
use crate::rounds::Round;
use muck_io::{Clock, Gate, Rest};
use muck_links::Links;
use muck_work::World;
use std::alloc::Global;
use std::sync::Wait;
use turn_lock::{Turn, TurnSeat};

// How many bytes are read at once.
const ROOM: usize = 4096;

/// How the porter ended.
#[derive(Debug, Clone, Copy, PartialEq, Eq)]
pub enum Why {
    /// It has seen the stop.
    Fine,
    /// Memory was wanted.
    NoMemory,
    /// It has seen the stop, which came since listening failed.
    ListenFault,
    /// All turns were had.
    Spent,
}

// Room for what is read; none where memory is wanted for it.
fn room(alloc: Global) -> Vec<u8> {
    match vec![in alloc; 0u8; ROOM] {
        Ok(bytes) => bytes,
        Err(_) => Vec::new(alloc),
    }
}

fn has_left(round: &Round) -> bool
    ensures { result ≡ is_left round.now }
{
    match *round {
        Round::Left => true,
        Round::Busy => false,
        Round::Idle => false,
    }
}

// The first party.
const PORTER: u8 = 0;

// Rests behind a round that did nothing; else those who rest are told.
fn rests<R: Rest>(rest: &R, round: &Round, moved: bool) {
    match *round {
        Round::Idle => {
            if moved {
                rest.did(PORTER);
            } else {
                rest.rest(PORTER);
            }
        }
        Round::Busy => rest.did(PORTER),
        Round::Left => rest.ended(PORTER),
    }
}

// Why it ended early.
fn why_of(fault: Fault) -> Why
    ensures far { why_far result ≡ Far.ended fault }
    ensures early { ¬ (result ≡ Why.ListenFault) }
{
    match fault {
        Fault::NoMemory => Why::NoMemory,
        Fault::Spent => Why::Spent,
    }
}

impl<'a, 'w, 't, 's, 'l, 'c, 'g, 'r, W: Wait, L: Links, C: Clock, G: Gate, R: Rest> Desk<
    'a,
    'w,
    't,
    's,
    'l,
    'c,
    'g,
    'r,
    W,
    L,
    C,
    G,
    R,
> {
    // One round.
    #[tactic(auto, using(crate::proofs::Going::free_then))]
    fn goes_round(&mut self) -> Result<Round, Fault>
        requires { Stands Far.free (stand L.tells L.told L.listening C.answers self.old) }
        ensures { Goes (round_reach result) (stand L.tells L.told L.listening C.answers self.old) (stand L.tells L.told L.listening C.answers self.new) }
    {
        match self.welcomes() {
            Ok(()) => {}
            Err(fault) => return Err(fault),
        }
        match self.attends() {
            Ok(round) => Ok(round),
            Err(fault) => Err(fault),
        }
    }

    // Round by round.
    #[tactic(auto, using(crate::proofs::Going::free_then, crate::proofs::Going::goes_still, crate::proofs::Going::goes_as, crate::proofs::Going::round_stays, crate::proofs::Going::round_leaves))]
    fn goes_on(&mut self) -> Why
        requires { Stands Far.free (stand L.tells L.told L.listening C.answers self.old) }
        ensures goes { Goes (why_far result) (stand L.tells L.told L.listening C.answers self.old) (stand L.tells L.told L.listening C.answers self.new) }
        ensures broke { result ≡ Why.ListenFault → self.new.broke ≡ true }
    {
        let rt = self.rt;
        for _ in rt.forever() {
            match self.goes_round() {
                Ok(round) => {
                    rests(self.rest, &round, self.moved);
                    if has_left(&round) {
                        if self.broke {
                            return Why::ListenFault;
                        }
                        return Why::Fine;
                    }
                }
                Err(fault) => return why_of(fault),
            }
        }
        unreachable!()
    }

    // Round by round, from the first one on; or there is no room for what is read.
    fn serves(&mut self) -> Why
        requires { Fresh (stand L.tells L.told L.listening C.answers self.old) }
        ensures same { (self.new.seat.ghost_name ≡ self.old.seat.ghost_name) × (self.new.links.ghost_name ≡ self.old.links.ghost_name) × (self.new.clock.ghost_name ≡ self.old.clock.ghost_name) }
        ensures own { (self.new.seat.now.table_id ≡ self.old.seat.now.table_id) × (self.new.seat.now.id ≡ self.old.seat.now.id) }
        ensures tells { L.tells self.new.links.now ≡ L.tells self.old.links.now }
        ensures done { PorterDone result (L.tells self.old.links.now) (account (L.told self.old.links.now) (L.listening self.old.links.now) (C.answers self.old.clock.now)) (account (L.told self.new.links.now) (L.listening self.new.links.now) (C.answers self.new.clock.now)) self.old.seat.now.me self.new.seat.now.me }
    {
        if self.room.is_empty() {
            return why_of(self.dies());
        }
        self.goes_on()
    }
}

/// Serves all links until the run is stopped and each connection that is open is worked off. `ListenFault` where listening failed.
/// `gate` is passed before the porter ends; `rest` is taken where a round did nothing, and while it waits for a turn; it
/// is told of each round that did something, and of the end.
pub fn porter<W: Wait, L: Links, C: Clock, G: Gate, R: Rest>(
    rt: &W,
    alloc: Global,
    turn: &Turn<World>,
    seat: &mut TurnSeat<World>,
    links: &mut L,
    clock: &mut C,
    gate: &G,
    rest: &R,
) -> Why
    requires own { seat.old.table_id ≡ turn.now.table.shared.table_id }
    requires ready { PorterReady seat.old.me }
    ensures own { (seat.new.table_id ≡ seat.old.table_id) × (seat.new.id ≡ seat.old.id) }
    ensures tells { L.tells links.new ≡ L.tells links.old }
    ensures done { PorterDone result (L.tells links.old) (account (L.told links.old) (L.listening links.old) (C.answers clock.old)) (account (L.told links.new) (L.listening links.new) (C.answers clock.new)) seat.old.me seat.new.me }
{
    let mut bytes = room(alloc);
    let mut peers = Vec::new(alloc);
    let mut coming = None;
    let mut desk = Desk {
        rt,
        alloc,
        turn,
        seat,
        links,
        clock,
        gate,
        rest,
        room: bytes.as_mut_slice(),
        noted: false,
        broke: false,
        moved: false,
        peers: &mut peers,
        coming: &mut coming,
    };
    desk.serves()
}
