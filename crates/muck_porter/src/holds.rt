// Holds: the world is taken, the note of the links is made where it is due, one entry is made, and the world is given back.
ghost use Rattle.std.specs.Prelude.{◌≡◌, ◌≤◌, ◌^◌, IfOk, OnErr, length, None, true, false};
ghost use Rattle.muck_model.specs.declared.event.Event.{Event};
ghost use Rattle.spec_events.specs.Histories.{now, AllLawful};
ghost use Rattle.spec_events.specs.Logged.{IsPlaced};
ghost use Rattle.muck_work.specs.inner.Seats.{Left, Waited};
ghost use Rattle.muck_porter.specs.inner.Kept.{Resting};
ghost use Rattle.muck_porter.specs.inner.Turns.{MarkedIn, Given};
ghost use Rattle.muck_porter.specs.inner.Desks.{stand, Far, Stands, Goes};
ghost use Rattle.muck_porter.specs.inner.Reaches.{MayDo, EndsLast, deed_reach, work_reach, settled_as};

use crate::deeds::{Deed, Did, Worked, does, works};
use crate::desk::{Desk, Fault};
use muck_io::{Clock, Gate, Rest};
use muck_links::Links;
use muck_work::{World, gives, takes};
use std::sync::Wait;
use turn_lock::{Held, Spent, Turn, TurnSeat};

// The note of the links is made where the world is stopping and there is none yet.
fn marks<L: Links>(world: &mut World, links: &L, noted: &mut bool)
    requires { noted.old ≡ false → world.old.counted ≡ None }
    ensures { MarkedIn noted.old noted.new (L.told links.now) world.old world.new }
{
    if *noted {
        return;
    }
    if world.is_dead() {
        return;
    }
    if !world.is_stopping() {
        return;
    }
    world.note_links(links);
    *noted = true;
}

/// The world is taken, and the note of the links is made where it is due.
pub fn begins<W: Wait, L: Links, R: Rest>(
    rt: &W,
    turn: &Turn<World>,
    seat: &mut TurnSeat<World>,
    links: &L,
    rest: &R,
    noted: &mut bool,
) -> Result<Held<World>, Spent>
    requires own { seat.old.table_id ≡ turn.now.table.shared.table_id }
    requires ready { Resting noted.old seat.old.me }
    ensures own { (seat.new.table_id ≡ seat.old.table_id) × (seat.new.id ≡ seat.old.id) }
    ensures ok { IfOk result (λ held. Given noted.old noted.new (L.told links.now) seat.old.me seat.new.me held.state) }
    ensures waited { OnErr result (Waited seat.old.me.0 seat.new.me.0 × (noted.new ≡ noted.old)) }
    ensures left { OnErr result (Left 0 seat.new.me × (2 ^ 62 ≤ length seat.new.me.0.seen)) }
{
    match takes(rt, turn, seat, rest) {
        Ok(held) => {
            let mut held = held;
            marks(&mut held.state, links, noted);
            Ok(held)
        }
        Err(spent) => Err(spent),
    }
}

// What became of a deed, as it is answered: whether it was done; else a moment was entered.
fn settled(did: Did) -> Result<bool, Fault>
    ensures { result ≡ settled_as did }
{
    match did {
        Did::Done => Ok(true),
        Did::Timed => Ok(false),
        Did::Dead => Err(Fault::NoMemory),
    }
}

impl<'a, 'w, 't, 's, 'l, 'c, 'g, 'r, W: Wait, L: Links, C: Clock, G: Gate, R: Rest> Desk<
    'a,
    'w,
    't,
    's,
    'l,
    'c,
    'g,
    'r,
    W,
    L,
    C,
    G,
    R,
> {
    /// One hold, for work.
    pub(crate) fn works(&mut self) -> Result<Worked, Fault>
        requires { Stands Far.timed (stand L.tells L.told L.listening C.answers self.old) }
        ensures { Goes (work_reach result) (stand L.tells L.told L.listening C.answers self.old) (stand L.tells L.told L.listening C.answers self.new) }
    {
        match begins(
            self.rt,
            self.turn,
            self.seat,
            self.links,
            self.rest,
            &mut self.noted,
        ) {
            Ok(held) => {
                let mut held = held;
                let worked = works(&mut held.state, self.clock, &*self.peers);
                gives(self.turn, self.seat, held, self.rest);
                Ok(worked)
            }
            Err(_) => Err(Fault::Spent),
        }
    }

    /// One hold, for a deed that isn't work. Answers whether it was done; else a moment was entered.
    pub(crate) fn does(&mut self, deed: &Deed) -> Result<bool, Fault>
        requires { MayDo deed.now (stand L.tells L.told L.listening C.answers self.old) }
        ensures goes { Goes (deed_reach deed.now result) (stand L.tells L.told L.listening C.answers self.old) (stand L.tells L.told L.listening C.answers self.new) }
        ensures last { EndsLast deed.now (stand L.tells L.told L.listening C.answers self.old) (stand L.tells L.told L.listening C.answers self.new) }
    {
        match begins(
            self.rt,
            self.turn,
            self.seat,
            self.links,
            self.rest,
            &mut self.noted,
        ) {
            Ok(held) => {
                let mut held = held;
                let did = does(deed, &mut held.state, self.clock, &*self.peers, self.noted);
                gives(self.turn, self.seat, held, self.rest);
                settled(did)
            }
            Err(_) => Err(Fault::Spent),
        }
    }
}
