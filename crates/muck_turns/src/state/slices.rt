// Slices: the units of a process, one behind the other.
ghost use Rattle.std.specs.Prelude.{◌≡◌, OnOk, IfOk};
ghost use Rattle.muck_model.specs.declared.event.Event.{Event};
ghost use Rattle.muf_model.specs.Chains.{StandsAt};
ghost use Rattle.muf_model.specs.Unit.{fault_met};
ghost use Rattle.spec_events.specs.Slices.{acting, after_deed, broken, deed, last_world, out, units_run, seat, unit_went};
ghost use Rattle.spec_events.specs.Steps.{happened, hooked_by};
ghost use Rattle.muck_turns.specs.inner.Hooks.{AreTold};
ghost use Rattle.spec_live.specs.Stood.{IsStill};
ghost use Rattle.muck_turns.specs.inner.Limits.{LeadsTo, Runs, Stops};

use crate::state::State;
use crate::state::deeds::Done;
use crate::state::limits::{Allowance, next_allowance};
use muck_model::{Dbref, NoMemory, Tune};
use muf_model::{MufFault, Prim};
use muf_running::{Ran, Running, Stint};
use spec_events::{Agent, error_text};
use spec_hooks::Turned;
use spec_rights::Actor;

impl State {
    /// A slice of a process, which wakes, and then nobody claims it any more. It takes its units until it is over or waits, or the
    /// slice is through, outside preempt, or one would be too many. Each unit costs what it touches. Before and after those that
    /// run at once the process is looked for, which is a pass over at most 400.
    pub fn slice(&mut self, pid: i32) -> Result<(), NoMemory>
        requires told { AreTold self.old.live.objects }
        requires still { IsStill self.old.live.objects }
        ensures { OnOk result (self.new ≡ hooked_by self.old (Event.Slice pid) (happened self.old 0 (Event.Slice pid))) }
    {
        self.take_slice(pid)?;
        self.hook(Turned::Nobody, None)
    }

    // That alone.
    #[tactic(auto, unfolding(spec_events::specs::Slices::sliced))]
    fn take_slice(&mut self, pid: i32) -> Result<(), NoMemory>
        ensures { OnOk result (self.new ≡ happened self.old 0 (Event.Slice pid)) }
    {
        let tune = self.board.tune();
        let most = u64::from(tune.instr_slice) + u64::from(tune.preempt_units) + 1;
        self.queue.wake(pid, self.moment);
        self.take_units(&tune, pid, most)?;
        self.queue.release(pid);
        Ok(())
    }

    // The units of a process that has so many.
    fn take_units(&mut self, tune: &Tune, pid: i32, most: u64) -> Result<(), NoMemory>
        ensures { OnOk result (self.new ≡ last_world self.old (units_run tune.now most pid self.old)) }
    {
        let mut left = most;
        while let Some(units) = self.stint(tune, pid, left)? {
            left = units;
        }
        Ok(())
    }

    // As many units as may be taken at once; answers how many are left, where it goes on.
    fn stint(&mut self, tune: &Tune, pid: i32, left: u64) -> Result<Option<u64>, NoMemory>
        ensures { IfOk result (λ next. Stops tune.now pid left self.old self.new next) }
    {
        let Some((agent, running)) = self.lend(pid) else {
            return Ok(None);
        };
        let actor = self.actor(agent, &running)?;
        match next_allowance(tune, actor.level, &agent, left) {
            Allowance::Through => {
                self.queue.put_back(pid, running);
                Ok(None)
            }
            Allowance::Spent(fault) => {
                let program = running.program();
                self.end_broken(pid, agent.player, program, fault)?;
                Ok(None)
            }
            Allowance::Units(most) => {
                let Some(units) = self.run(pid, agent, actor, running, most)? else {
                    return Ok(None);
                };
                Ok(Some(left - units))
            }
        }
    }

    // Many units at once, and a shared primitive where one is asked for; answers how many they were, where it goes on. Who acts as
    // they begin acts still at that primitive: the programs of the process are the same.
    pub(super) fn run(
        &mut self,
        pid: i32,
        agent: Agent,
        actor: Actor,
        running: Running,
        most: u32,
    ) -> Result<Option<u64>, NoMemory>
        requires { actor ≡ acting agent running self.old.live.objects }
        ensures { IfOk result (λ next. Runs pid agent most running self.old self.new next) }
    {
        let program = running.program();
        let Stint { ran, units } = running.run(self.alloc, most)?;
        match ran {
            Ran::Going(next) => {
                self.queue.count(pid, units);
                self.queue.put_back(pid, next);
                Ok(Some(u64::from(units)))
            }
            Ran::Asking(prim, at) => {
                self.queue.count(pid, units + 1);
                let goes_on = self.ask(pid, agent, actor, prim, at)?;
                Ok(if goes_on {
                    Some(u64::from(units) + 1)
                } else {
                    None
                })
            }
            Ran::Ended => {
                self.queue.kill(pid);
                Ok(None)
            }
            Ran::Faulted(fault) => {
                self.end_broken(pid, agent.player, program, fault)?;
                Ok(None)
            }
        }
    }

    // For whom a process acts as the world is, and its state, which is out of it from now on.
    pub(super) fn lend(&mut self, pid: i32) -> Option<(Agent, Running)>
        ensures seat { result ≡ seat pid self.old }
        ensures out { self.new ≡ out pid self.old }
    {
        let agent = Agent::of(self.queue.get(pid)?);
        let running = self.queue.lend(pid)?;
        Some((agent, running))
    }

    // The shared primitive that is asked for, and what follows from it; answers whether the process goes on.
    fn ask(
        &mut self,
        pid: i32,
        agent: Agent,
        actor: Actor,
        prim: Prim,
        running: Running,
    ) -> Result<bool, NoMemory>
        requires at { StandsAt prim running }
        requires actor { actor ≡ acting agent running self.old.live.objects }
        ensures { IfOk result (λ goes_on. LeadsTo goes_on self.new (after_deed pid agent.player running (deed pid agent prim running self.old))) }
    {
        match self.do_deed(pid, agent, actor, prim, running)? {
            Done::Does(next) => {
                self.queue.put_back(pid, next);
                self.settle();
                Ok(true)
            }
            Done::Rests(next) => {
                self.queue.put_back(pid, next);
                self.settle();
                Ok(false)
            }
            Done::Fails(at, fault) => self.raise(pid, agent.player, at, fault),
        }
    }

    // A fault: the process goes on where it was caught, and else ends; answers whether it goes on.
    fn raise(
        &mut self,
        pid: i32,
        player: Dbref,
        running: Running,
        raised: MufFault,
    ) -> Result<bool, NoMemory>
        ensures { IfOk result (λ goes_on. LeadsTo goes_on self.new (unit_went pid player running.program.number (fault_met raised running) self.old)) }
    {
        let program = running.program();
        match running.raise(self.alloc, &raised)? {
            Some(caught) => {
                self.queue.put_back(pid, caught);
                Ok(true)
            }
            None => {
                self.end_broken(pid, player, program, raised)?;
                Ok(false)
            }
        }
    }

    // A process ends by a fault, of which its player is told.
    #[tactic(auto, unfolding(spec_live::specs::Lives::tell_player))]
    pub(super) fn end_broken(
        &mut self,
        pid: i32,
        player: Dbref,
        program: Dbref,
        fault: MufFault,
    ) -> Result<(), NoMemory>
        ensures { OnOk result (self.new ≡ broken pid player program.0 fault self.old) }
    {
        self.queue.kill(pid);
        let text = error_text(self.alloc, program, &fault)?;
        self.board.tell_player(player, text.as_slice())?;
        Ok(())
    }
}
