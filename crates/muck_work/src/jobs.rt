// A turn of work.
ghost use Rattle.std.specs.Prelude.{◌≡◌, ◌<◌, ℕ, None, false};
ghost use Rattle.muck_model.specs.declared.event.Event.{Event};
ghost use Rattle.spec_events.specs.Histories.{now, entered};
ghost use Rattle.spec_events.specs.Steps.{next_ready, next_process};
ghost use Rattle.muck_work.specs.inner.Jobs.{by, JobAs};

use muck_machine::World;
use muck_model::NoMemory;

/// What a party did in its turn of work.
#[derive(Drop)]
pub enum Job {
    /// A line was done.
    Line,
    /// A process was claimed: its slice comes in the party's next turn.
    Claim(i32),
    /// There was nothing to do.
    Idle,
    /// Memory was wanted.
    Died,
}

// There is nothing to do.
fn idles(world: &mut World, party: u8)
    requires alive { (now world.old).dead ≡ false }
    requires few { party < 9 }
    requires no_line { next_ready (now world.old) ≡ None }
    requires no_process { next_process (now world.old) ≡ None }
    ensures { world.new ≡ entered world.old (by party Event.Idle) }
{
    if !world.idle(party) {
        unreachable!()
    }
}

// A process is claimed, or there is nothing to do.
fn claims(world: &mut World, party: u8) -> Job
    requires alive { (now world.old).dead ≡ false }
    requires few { party < 9 }
    requires no_line { next_ready (now world.old) ≡ None }
    ensures { (event : Event) × (world.new ≡ entered world.old (by party event)) × JobAs result event }
{
    match world.claim(party) {
        Some(pid) => Job::Claim(pid),
        None => {
            idles(world, party);
            Job::Idle
        }
    }
}

/// One entry of work: a line is done, or else a process is claimed, or else there is nothing to do.
pub fn does_job(world: &mut World, party: u8) -> Job
    requires alive { (now world.old).dead ≡ false }
    requires few { party < 9 }
    ensures { (event : Event) × (world.new ≡ entered world.old (by party event)) × JobAs result event }
{
    match world.exec(party) {
        Ok(Some(_)) => Job::Line,
        Ok(None) => claims(world, party),
        Err(NoMemory) => Job::Died,
    }
}
