// Holds: the world is taken from the lock, and given back with one entry more.
ghost use Rattle.std.specs.Prelude.{◌≡◌, ◌≤◌, ◌^◌, ℕ, IfOk, OnErr, length};
ghost use Rattle.spec_events.specs.declared.logged.Logged.{Logged};
ghost use Rattle.muck_machine.specs.inner.Seats.{Chair, Rests, Left, Waited};
ghost use Rattle.muck_work.specs.inner.Holds.{HasTurn, HasEntered, HasGiven};

use muck_io::Rest;
use muck_machine::World;
use std::sync::Wait;
use turn_lock::{Held, Spent, Turn, TurnSeat};

/// The world is taken, by the party whose seat this is. `Spent` where all turns were had.
pub fn takes<W: Wait, R: Rest>(
    rt: &W,
    turn: &Turn<World>,
    seat: &mut TurnSeat<World>,
    rest: &R,
) -> Result<Held<World>, Spent>
    requires own { seat.old.table_id ≡ turn.now.table.shared.table_id }
    requires rests { (whose : ℕ) × Rests whose seat.old.me }
    ensures own { (seat.new.table_id ≡ seat.old.table_id) × (seat.new.id ≡ seat.old.id) }
    ensures ok { IfOk result (λ held. (whose : ℕ) → Rests whose seat.old.me → HasTurn whose seat.old.me seat.new.me held.state) }
    ensures waited { OnErr result (Waited seat.old.me.0 seat.new.me.0 × (2 ^ 62 ≤ length seat.new.me.0.seen)) }
    ensures left { OnErr result ((whose : ℕ) → Rests whose seat.old.me → Left whose seat.new.me) }
{
    match turn.hold(rt, seat, rest) {
        Ok(held) => {
            // For contracts alone: each entry so far is lawful where it stands.
            let _dead = held.state.is_dead();
            Ok(held)
        }
        Err(spent) => Err(spent),
    }
}

/// The world is given back, with one entry more.
pub fn gives<R: Rest>(turn: &Turn<World>, seat: &mut TurnSeat<World>, held: Held<World>, rest: &R)
    requires own { seat.old.table_id ≡ turn.now.table.shared.table_id }
    requires entered { (whose : ℕ) × (me : Chair) × (item : Logged) × HasEntered whose me seat.old.me held.state item }
    ensures own { (seat.new.table_id ≡ seat.old.table_id) × (seat.new.id ≡ seat.old.id) }
    ensures given { (whose : ℕ) (me : Chair) (item : Logged) (e : HasEntered whose me seat.old.me held.state item) → HasGiven whose me seat.new.me e.turn.waited.0.0 item }
{
    turn.give(seat, held, rest);
}
