// The turns after a line, of whose units a watch is told.
ghost use Rattle.std.specs.Prelude.{◌≡◌, IfOk, OnErr, is_some};
ghost use Rattle.spec_events.specs.Steps.{next_process};
ghost use Rattle.spec_events.specs.Histories.{now, Grew};
ghost use Rattle.muck_script.specs.Story.{next_turn, turns, turns_most, turns_taken};
ghost use Rattle.muck_script.specs.inner.Settling.{entries_of, slice_of, DiedDuring};
ghost use Rattle.muf_debug.specs.Watching.{SeesAll};
ghost use Rattle.muck_debugging.specs.Seen.{views_in};

use muck_model::NoMemory;
use muck_script::{TURNS_MOST, World};
use muf_debug::Watch;

// The party that does everything in a run of a script.
const PORTER: u8 = 0;

// The process that is to go on runs for a slice; whether there was one.
fn slice_next<W: Watch>(world: &mut World, watch: &mut W) -> Result<bool, NoMemory>
    ensures some { IfOk result (λ yes. yes ≡ is_some (next_process (now world.old))) }
    ensures world { IfOk result (λ _. Grew world.old world.new (entries_of (slice_of (next_process (now world.old))))) }
    ensures seen { IfOk result (λ _. SeesAll W.tells (views_in (now world.old) (entries_of (slice_of (next_process (now world.old))))) watch.old watch.new) }
    ensures died { OnErr result (DiedDuring (entries_of (slice_of (next_process (now world.old)))) world.old world.new) }
{
    match world.claim(PORTER) {
        None => Ok(false),
        Some(pid) => {
            world.slice_seen(PORTER, pid, watch)?;
            Ok(true)
        }
    }
}

// One turn; whether there was one.
fn take_turn<W: Watch>(world: &mut World, watch: &mut W) -> Result<bool, NoMemory>
    ensures some { IfOk result (λ yes. yes ≡ is_some (next_turn (now world.old))) }
    ensures world { IfOk result (λ _. Grew world.old world.new (entries_of (next_turn (now world.old)))) }
    ensures seen { IfOk result (λ _. SeesAll W.tells (views_in (now world.old) (entries_of (next_turn (now world.old)))) watch.old watch.new) }
    ensures died { OnErr result (DiedDuring (entries_of (next_turn (now world.old))) world.old world.new) }
{
    match world.exec(PORTER)? {
        Some(_) => Ok(true),
        None => slice_next(world, watch),
    }
}

/// What `settle` does, whatever the watch is; the watch is told of each unit before it runs, in order.
pub fn settle_seen<W: Watch>(world: &mut World, watch: &mut W) -> Result<u32, NoMemory>
    ensures count { IfOk result (λ n. n ≡ turns_taken turns_most (now world.old)) }
    ensures world { IfOk result (λ _. Grew world.old world.new (turns turns_most (now world.old))) }
    ensures seen { IfOk result (λ _. SeesAll W.tells (views_in (now world.old) (turns turns_most (now world.old))) watch.old watch.new) }
    ensures died { OnErr result (DiedDuring (turns turns_most (now world.old)) world.old world.new) }
{
    for done in 0..TURNS_MOST {
        if !take_turn(world, watch)? {
            return Ok(done);
        }
    }
    Ok(TURNS_MOST)
}
