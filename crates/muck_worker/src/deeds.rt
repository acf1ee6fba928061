// What a worker does in a hold: one entry.
ghost use Rattle.std.specs.Prelude.{◌≡◌, ◌<◌, true, false, if◌then◌else◌};
ghost use Rattle.muck_model.specs.declared.event.Event.{Event};
ghost use Rattle.spec_events.specs.Histories.{now, entered};
ghost use Rattle.spec_events.specs.Steps.{has_claim};
ghost use Rattle.muck_work.specs.inner.Jobs.{by};
ghost use Rattle.muck_worker.specs.inner.Deeds.{did_as, DidAs, IsOpen};

use muck_model::NoMemory;
use muck_work::{Job, Sliced, World, does_job};

/// What a worker has to do in its next turn.
#[derive(Clone, Copy)]
pub enum Task {
    /// A line, or a process, if there is any.
    Work,
    /// A slice of the process that it has claimed.
    Slice(i32),
    /// It is to end.
    End,
}

/// What it did.
#[derive(Drop)]
pub enum Did {
    /// A line was done, or a slice.
    Went,
    /// There was nothing to do.
    Idled,
    /// A process was claimed, and this is to be done with it.
    Claimed(Task),
    /// There was nothing to do, and the run is stopping.
    Stops,
    /// It has seen that the run is stopping.
    Over,
    /// Memory was wanted.
    Failed,
}

// The claimed process runs for a slice, or it has ended.
fn slices(world: &mut World, party: u8, pid: i32) -> Did
    requires alive { (now world.old).dead ≡ false }
    requires worker { (0 < party) × (party < 9) }
    requires claim { has_claim party pid (now world.old) ≡ true }
    ensures { (event : Event) × (world.new ≡ entered world.old (by party event)) × DidAs party (Task.Slice pid) result event }
{
    match world.slice(party, pid) {
        Ok(Sliced::Ran) => Did::Went,
        Ok(Sliced::Lost) => Did::Went,
        Err(NoMemory) => Did::Failed,
    }
}

// There was nothing to do.
fn idled(stops: bool) -> Did
    ensures { result ≡ (if stops then Did.Stops else Did.Idled) }
{
    if stops { Did::Stops } else { Did::Idled }
}

// What a job is to a worker, which is to end once there is nothing to do and the run is stopping.
fn outcome_of(job: Job, stops: bool) -> Did
    ensures { result ≡ did_as job stops }
{
    match job {
        Job::Line => Did::Went,
        Job::Claim(pid) => Did::Claimed(Task::Slice(pid)),
        Job::Idle => idled(stops),
        Job::Died => Did::Failed,
    }
}

// A line is done, or a process is claimed, or there is nothing to do.
fn serves(world: &mut World, party: u8) -> Did
    requires alive { (now world.old).dead ≡ false }
    requires worker { (0 < party) × (party < 9) }
    ensures { (event : Event) × (world.new ≡ entered world.old (by party event)) × DidAs party Task.Work result event }
{
    let stops = world.is_stopping();
    let job = does_job(world, party);
    outcome_of(job, stops)
}

// It has seen the stop; or else it works on.
fn ends(world: &mut World, party: u8) -> Did
    requires alive { (now world.old).dead ≡ false }
    requires worker { (0 < party) × (party < 9) }
    ensures { (event : Event) × (world.new ≡ entered world.old (by party event)) × DidAs party Task.End result event }
{
    if world.stopped(party) {
        return Did::Over;
    }
    serves(world, party)
}

/// One entry of a worker.
pub fn works(world: &mut World, party: u8, task: Task) -> Did
    requires worker { (0 < party) × (party < 9) }
    requires claim { IsOpen party task (now world.old) }
    ensures { (event : Event) × (world.new ≡ entered world.old (by party event)) × DidAs party task result event }
{
    if world.is_dead() {
        world.died(party);
        return Did::Failed;
    }
    match task {
        Task::Work => serves(world, party),
        Task::Slice(pid) => slices(world, party, pid),
        Task::End => ends(world, party),
    }
}
