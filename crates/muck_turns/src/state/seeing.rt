// Slices of whose units a watch is told.
ghost use Rattle.std.specs.Prelude.{◌≡◌, OnOk, IfOk};
ghost use Rattle.muck_model.specs.declared.event.Event.{Event};
ghost use Rattle.muf_debug.specs.Views.{view_at};
ghost use Rattle.muf_debug.specs.Watching.{SeesAll};
ghost use Rattle.spec_events.specs.Slices.{last_world, units_run};
ghost use Rattle.spec_events.specs.Steps.{happened, hooked_by};
ghost use Rattle.muck_turns.specs.inner.Hooks.{AreTold};
ghost use Rattle.spec_live.specs.Stood.{IsStill};
ghost use Rattle.spec_views.specs.Views.{views_of};
ghost use Rattle.muck_turns.specs.inner.Limits.{Stops};
ghost use Rattle.muck_turns.specs.inner.Seeing.{SeesNext, views};

use crate::state::State;
use crate::state::limits::{Allowance, next_allowance};
use muck_model::{NoMemory, Tune};
use muf_debug::{View, Watch};
use muf_running::Running;
use spec_hooks::Turned;
use std::alloc::Global;

// The watch is told of a process before a unit.
fn show<W: Watch>(alloc: Global, pid: i32, running: &Running, watch: &mut W) -> Result<(), NoMemory>
    ensures { OnOk result (W.tells watch.old (view_at pid running.now) watch.new) }
{
    let view = View::of(alloc, pid, running)?;
    watch.saw(&view);
    Ok(())
}

impl State {
    /// The same slice as [`State::slice`] makes, of each of whose units the watch is told before it runs, whatever the watch is.
    pub fn slice_seen<W: Watch>(&mut self, pid: i32, watch: &mut W) -> Result<(), NoMemory>
        requires told { AreTold self.old.live.objects }
        requires still { IsStill self.old.live.objects }
        ensures same { OnOk result (self.new ≡ hooked_by self.old (Event.Slice pid) (happened self.old 0 (Event.Slice pid))) }
        ensures seen { OnOk result (SeesAll W.tells (views_of pid self.old) watch.old watch.new) }
    {
        self.take_slice_seen(pid, watch)?;
        self.hook(Turned::Nobody, None)
    }

    // That alone.
    #[tactic(auto, unfolding(spec_events::specs::Slices::sliced))]
    fn take_slice_seen<W: Watch>(&mut self, pid: i32, watch: &mut W) -> Result<(), NoMemory>
        ensures same { OnOk result (self.new ≡ happened self.old 0 (Event.Slice pid)) }
        ensures seen { OnOk result (SeesAll W.tells (views_of pid self.old) watch.old watch.new) }
    {
        let tune = self.board.tune();
        let most = u64::from(tune.instr_slice) + u64::from(tune.preempt_units) + 1;
        self.queue.wake(pid, self.moment);
        self.take_seen(&tune, pid, most, watch)?;
        self.queue.release(pid);
        Ok(())
    }

    // The units of a process that has so many.
    fn take_seen<W: Watch>(
        &mut self,
        tune: &Tune,
        pid: i32,
        most: u64,
        watch: &mut W,
    ) -> Result<(), NoMemory>
        ensures same { OnOk result (self.new ≡ last_world self.old (units_run tune.now most pid self.old)) }
        ensures seen { OnOk result (SeesAll W.tells (views tune.now most pid self.old) watch.old watch.new) }
    {
        let mut left = most;
        while let Some(units) = self.stint_seen(tune, pid, left, watch)? {
            left = units;
        }
        Ok(())
    }

    // One unit, where the process has one left; answers how many are left, where it goes on.
    fn stint_seen<W: Watch>(
        &mut self,
        tune: &Tune,
        pid: i32,
        left: u64,
        watch: &mut W,
    ) -> Result<Option<u64>, NoMemory>
        ensures stops { IfOk result (λ next. Stops tune.now pid left self.old self.new next) }
        ensures seen { IfOk result (λ next. SeesNext W.tells tune.now pid left self.old self.new watch.old watch.new next) }
    {
        let Some((agent, running)) = self.lend(pid) else {
            return Ok(None);
        };
        let actor = self.actor(agent, &running)?;
        match next_allowance(tune, actor.level, &agent, left) {
            Allowance::Through => {
                self.queue.put_back(pid, running);
                Ok(None)
            }
            Allowance::Spent(fault) => {
                show(self.alloc, pid, &running, watch)?;
                let program = running.program();
                self.end_broken(pid, agent.player, program, fault)?;
                Ok(None)
            }
            Allowance::Units(_most) => {
                show(self.alloc, pid, &running, watch)?;
                let Some(units) = self.run(pid, agent, actor, running, 1)? else {
                    return Ok(None);
                };
                Ok(Some(left - units))
            }
        }
    }
}
