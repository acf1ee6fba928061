// Time goes on.
ghost use Rattle.std.specs.Prelude.{◌≡◌, ℕ, false};
ghost use Rattle.muck_model.specs.declared.event.Event.{Event};
ghost use Rattle.spec_events.specs.Histories.{now, entered, by_porter};
ghost use Rattle.muck_peer.specs.Moves.{IsTime};

use muck_io::Clock;
use muck_machine::World;

/// A moment is entered: the greater of the clock's next answer and the world's second. It takes no memory.
pub fn tells_time<C: Clock>(world: &mut World, clock: &mut C)
    requires { (now world.old).dead ≡ false }
    ensures { (t : ℕ) × (world.new ≡ entered world.old (by_porter (Event.Moment t))) × IsTime (C.answers clock.old) (C.answers clock.new) (now world.old) t }
{
    let answer = clock.now();
    let before = world.now();
    let t = answer.max(before);
    world.moment(t);
}
