// The turns after a line.
ghost use Rattle.std.specs.Prelude.{◌≡◌, IfOk, OnErr, is_some};
ghost use Rattle.spec_events.specs.Steps.{next_process};
ghost use Rattle.spec_events.specs.Histories.{now, Grew};
ghost use Rattle.muck_script.specs.Story.{next_turn, turns, turns_most, turns_taken};
ghost use Rattle.muck_script.specs.inner.Settling.{entries_of, slice_of, DiedDuring};

use crate::TURNS_MOST;
use muck_machine::World;
use muck_model::NoMemory;

// The party that does everything in a run of a script.
const PORTER: u8 = 0;

// The process that is to go on runs for a slice; whether there was one.
fn slice_next(world: &mut World) -> Result<bool, NoMemory>
    ensures some { IfOk result (λ yes. yes ≡ is_some (next_process (now world.old))) }
    ensures world { IfOk result (λ _. Grew world.old world.new (entries_of (slice_of (next_process (now world.old))))) }
    ensures died { OnErr result (DiedDuring (entries_of (slice_of (next_process (now world.old)))) world.old world.new) }
{
    match world.claim(PORTER) {
        None => Ok(false),
        Some(pid) => {
            world.slice(PORTER, pid)?;
            Ok(true)
        }
    }
}

// One turn; whether there was one.
fn take_turn(world: &mut World) -> Result<bool, NoMemory>
    ensures some { IfOk result (λ yes. yes ≡ is_some (next_turn (now world.old))) }
    ensures world { IfOk result (λ _. Grew world.old world.new (entries_of (next_turn (now world.old)))) }
    ensures died { OnErr result (DiedDuring (entries_of (next_turn (now world.old))) world.old world.new) }
{
    match world.exec(PORTER)? {
        Some(_) => Ok(true),
        None => slice_next(world),
    }
}

/// Does the lines that wait and runs the processes, in at most [`TURNS_MOST`] turns, each time the first line of the
/// lowest connection that is ready, and where there is none the process that is to go on next; answers how many turns
/// were taken. After `NoMemory` the first of what these turns do happened, and then `Died`.
pub fn settle(world: &mut World) -> Result<u32, NoMemory>
    ensures count { IfOk result (λ n. n ≡ turns_taken turns_most (now world.old)) }
    ensures world { IfOk result (λ _. Grew world.old world.new (turns turns_most (now world.old))) }
    ensures died { OnErr result (DiedDuring (turns turns_most (now world.old)) world.old world.new) }
{
    for done in 0..TURNS_MOST {
        if !take_turn(world)? {
            return Ok(done);
        }
    }
    Ok(TURNS_MOST)
}
