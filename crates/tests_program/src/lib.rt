//! Tests of what no script reaches: a world with other players and narrower limits, calls that are answered by that they may
//! not be made, several processes at once, and runs of which a write or a call of a file fails. All that can be typed into the program is tested by `tests/scripts`. The code
//! here is the one function that the tests share.
#![tactic(auto)]

ghost use Rattle.std.specs.Prelude.{◌≡◌, IfOk, OnErr, if◌then◌else◌};
ghost use Rattle.muck_model.specs.declared.event.Event.{Event};
ghost use Rattle.spec_events.specs.Steps.{is_lawful};
ghost use Rattle.spec_events.specs.Histories.{now, entered, by_porter};

#[cfg(test)]
mod calls;
#[cfg(test)]
mod faults;
#[cfg(test)]
mod players;
#[cfg(test)]
mod replay;

use muck_machine::World;
use muck_model::NoMemory;

/// A connection goes; `false` exactly where it isn't there or the world is dead, and then nothing happened. After `NoMemory`
/// the world is dead.
#[tactic(auto, unfolding(spec_events::specs::Steps::is_lawful))]
pub fn close(world: &mut World, d: u32) -> Result<bool, NoMemory>
    ensures lawful { IfOk result (λ yes. yes ≡ is_lawful (now world.old) (by_porter (Event.Closed d))) }
    ensures step { IfOk result (λ yes. world.new ≡ (if yes then entered world.old (by_porter (Event.Closed d)) else world.old)) }
    ensures died { OnErr result (world.new ≡ entered world.old (by_porter Event.Died)) }
{
    if world.is_dead() || !world.connected(d) {
        return Ok(false);
    }
    world.closed(d)?;
    Ok(true)
}
