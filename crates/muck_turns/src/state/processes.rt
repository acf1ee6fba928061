// Primitives of processes.
ghost use Rattle.std.specs.Prelude.{◌≡◌, ◌<◌, ◌≤◌, drop, length, true, is_some, pos, IfOk, OnOk, Some, List, ℕ, ℤ};
ghost use Rattle.muf_model.specs.declared.prims.Family.TheVariants.{Process as ProcessFamily};
ghost use Rattle.muf_model.specs.Prims.{family_of};
ghost use Rattle.muf_model.specs.Datum.{Datum, int};
ghost use Rattle.muf_model.specs.Source.{Source, handed};
ghost use Rattle.muck_queue.specs.Queues.{process};
ghost use Rattle.muck_queue.specs.declared.process.Process.{Process};
ghost use Rattle.muf_frame.specs.inner.Shown.{flat, locked_by};
ghost use Rattle.muf_running.specs.inner.Fitting.{IsAtPrimitive};
ghost use Rattle.spec_processes.specs.ProcessRows.{processed};
ghost use Rattle.spec_events.specs.declared.starting.Agent.{Agent};
ghost use Rattle.spec_events.specs.Starting.{process_joined};
ghost use Rattle.spec_events.specs.Slices.{acting, state_behind, child_of, forked, place_of_use, process_done, queued};
ghost use Rattle.muck_turns.specs.inner.Deeds.{Bears, child_number, queued_call, DoneAs, ProcessAppliedTo};

use crate::state::State;
use crate::state::deeds::{DeedFault, Done, behind, passed};
use muck_model::{Dbref, Line, NoMemory};
use muck_perm::Guard;
use muck_queue::{Events, Mode, Process, Wait};
use muf_frame::PrimFault;
use muf_model::{Prim, Text, Value};
use muf_running::{FrameBox, Running};
use prim_proc::{After, apply};
use spec_events::{Agent, Call, Manner};
use spec_processes::Place;
use spec_rights::Actor;
use std::alloc::Global;

impl State {
    /// A primitive of processes: the world, the processes and the frame of its own one are lent to it, and what it asks for beyond
    /// these is done.
    #[tactic(auto, unfolding(spec_events::specs::Slices::process_done))]
    pub(crate) fn do_process(
        &mut self,
        pid: i32,
        agent: Agent,
        actor: Actor,
        prim: Prim,
        running: Running,
    ) -> Result<Done, NoMemory>
        requires at { IsAtPrimitive running.now }
        requires actor { actor ≡ acting agent running self.old.live.objects }
        requires family { family_of prim ≡ ProcessFamily }
        ensures { IfOk result (λ done. DoneAs (process_done pid agent prim running self.old) running self.new done) }
    {
        let place = self.place_in(pid, &running)?;
        let (programs, mut frame) = running.take_apart();
        match self.apply_process(prim, place, actor, &mut frame) {
            Ok(After::Go) => Ok(Done::Does(passed(programs, frame))),
            Ok(After::Wait) => Ok(Done::Rests(passed(programs, frame))),
            Ok(After::Fork) => {
                let next = self.fork(pid, passed(programs, frame))?;
                Ok(Done::Does(next))
            }
            Ok(After::Call { program, word }) => {
                self.do_call(actor, Running::rejoin(programs, frame), program, word)
            }
            Ok(
                After::Queue {
                    program,
                    delay,
                    argument,
                },
            ) => {
                let call = queued_call(self.alloc, actor.player, program, &argument)?;
                self.do_queue(call, delay, Running::rejoin(programs, frame))
            }
            Err(PrimFault::Fault(fault)) => {
                Ok(Done::Fails(Running::rejoin(programs, frame), fault))
            }
            Err(PrimFault::NoMemory) => Err(NoMemory),
        }
    }

    // Where a primitive of processes is used.
    fn place_in(&self, pid: i32, running: &Running) -> Result<Place, NoMemory>
        ensures { IfOk result (λ place. place ≡ place_of_use pid running.now self.now) }
    {
        let callers = running.callers(self.alloc)?;
        Ok(Place {
            pid,
            program: running.program(),
            caller: callers.as_slice().first().copied(),
            moment: self.moment,
        })
    }

    // The row of a primitive of processes: objects, board and processes are lent to it.
    fn apply_process(
        &mut self,
        prim: Prim,
        place: Place,
        actor: Actor,
        frame: &mut FrameBox,
    ) -> Result<After, PrimFault>
        requires { family_of prim ≡ ProcessFamily }
        ensures { ProcessAppliedTo (processed prim place actor (locked_by (flat frame.old).marks) (flat frame.old).stack self.old.live self.old.queue) frame.old frame.new self.old self.new result }
    {
        let mut guard = Guard::new(self.alloc, &mut self.db, &mut self.board, actor);
        apply(prim, place, &mut self.queue, &mut guard, frame.get_mut())
    }

    // FORK, from the state behind it: a child joins the processes, and the parent gets its number.
    fn fork(&mut self, pid: i32, running: Running) -> Result<Running, NoMemory>
        requires { is_some (process pid self.old.queue) ≡ true }
        ensures { IfOk result (λ next. (s : Source) (stack : List Datum) → running ≡ state_behind stack s → length stack < 1024 → DoneAs (forked pid stack s self.old) s self.new (Done.Does next)) }
    {
        let number = self.bear(pid, &running)?;
        let mut next = running;
        next.hand(Value::Int(number));
        Ok(next)
    }

    // A child of a process at that state joins the processes; answers its number, and -1 where there is no room for it. That is
    // asked first, since a child is a copy of the whole state.
    fn bear(&mut self, pid: i32, running: &Running) -> Result<i32, NoMemory>
        requires { is_some (process pid self.old.queue) ≡ true }
        ensures { IfOk result (λ n. Bears (process pid self.old.queue) running.now self.old self.new n) }
    {
        let Some(parent) = self.queue.get(pid) else {
            unreachable!()
        };
        let tune = self.board.tune();
        if self.queue.is_full(parent.player, &tune) {
            return Ok(-1);
        }
        let child = child_of(self.alloc, self.moment, parent, running)?;
        self.join_child(child)
    }

    // A child joins the processes; answers its number, and -1 where there is no room for it.
    fn join_child(&mut self, child: Process) -> Result<i32, NoMemory>
        ensures number { IfOk result (λ n. n ≡ child_number (process_joined child self.old)) }
        ensures world { OnOk result (self.new ≡ (process_joined child self.old).0) }
    {
        match self.join(child) {
            Ok(number) => Ok(number),
            Err(DeedFault::Fault(_)) => Ok(-1),
            Err(DeedFault::NoMemory) => Err(NoMemory),
        }
    }

    // QUEUE: a program is started in the background, so many seconds later; its items, which stand on the stack still, give way to the
    // number of the process.
    #[tactic(auto, unfolding(spec_events::specs::Slices::queued))]
    fn do_queue(&mut self, call: Call, delay: u32, running: Running) -> Result<Done, NoMemory>
        requires at { IsAtPrimitive running.now }
        requires items { 3 ≤ length running.stack }
        ensures { IfOk result (λ done. (x : Agent) (d : ℤ) (argument : List ℕ) → call ≡ queued_call x.player d argument → DoneAs (queued x (drop 3 running.stack) d delay argument running self.old) running self.new done) }
    {
        let manner = Manner {
            descr: None,
            mode: Mode::Background,
            due: self.moment.saturating_add(u64::from(delay)),
        };
        match self.begin(manner, call) {
            Ok(number) => {
                let mut next = behind(running, 3);
                next.hand(Value::Int(number));
                Ok(Done::Does(next))
            }
            Err(DeedFault::Fault(fault)) => Ok(Done::Fails(running, fault)),
            Err(DeedFault::NoMemory) => Err(NoMemory),
        }
    }
}

// The child of a process, which stands at this state with a 0.
fn child_of(
    alloc: Global,
    moment: u64,
    parent: &Process,
    running: &Running,
) -> Result<Process, NoMemory>
    ensures { IfOk result (λ child. child ≡ child_of moment (handed (int (pos 0)) running.now) parent.now) }
{
    let mut state = running.copy(alloc)?;
    state.hand(Value::Int(0));
    Ok(Process {
        number: 0,
        due: moment,
        player: parent.player,
        trigger: parent.trigger,
        command: parent.command.copy(alloc)?,
        descr: None,
        program: parent.program,
        mode: Mode::Background,
        wait: Wait::Nothing,
        units: 0,
        section: 0,
        events: Events::new(alloc),
        running: Some(state),
    })
}

// How QUEUE starts a program.
#[tactic(auto, unfolding(spec_events::specs::Slices::queued_command))]
fn queued_call(
    alloc: Global,
    player: Dbref,
    program: Dbref,
    argument: &Text,
) -> Result<Call, NoMemory>
    ensures { IfOk result (λ call. call ≡ queued_call player program.0 argument.now) }
{
    Ok(Call {
        player,
        program,
        trigger: Dbref(-1),
        command: Line::of_text(alloc, b"Queued Event.")?,
        argument: argument.as_line().copy(alloc)?,
    })
}
