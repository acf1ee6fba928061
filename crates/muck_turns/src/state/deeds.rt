// What shared primitives do.
ghost use Rattle.std.specs.Prelude.{◌≡◌, ◌+◌, ◌≤◌, drop, length, IfOk};
ghost use Rattle.muf_model.specs.inner.Flat.{Flat};
ghost use Rattle.muf_model.specs.Source.{Source, item_passed};
ghost use Rattle.muck_perm.specs.inner.Guards.{world_of};
ghost use Rattle.muf_frame.specs.inner.Shown.{Shown, flat, locked_by};
ghost use Rattle.muf_running.specs.inner.Fitting.{IsAtPrimitive};
ghost use Rattle.muf_running.specs.inner.Lending.{Apart, Differs, with_frame};
ghost use Rattle.spec_prims.specs.Shared.{shared};
ghost use Rattle.prim_common.specs.inner.Applied.{Applied};
ghost use Rattle.spec_events.specs.Slices.{acting, state_behind, deed, row_done};
ghost use Rattle.muck_turns.specs.inner.Deeds.{AppliedTo, DoneAs, PassesOn};

use crate::state::State;
use muck_model::NoMemory;
use muck_perm::{Guard, level, user};
use muf_frame::{Frame, PrimFault};
use muf_model::{Family, MufFault, Prim};
use muf_running::{FrameBox, Programs, Running};
use spec_events::Agent;
use spec_rights::Actor;

/// What a shared primitive made of the process at it: it was done, and the process is behind it, to go on or to wait; or it was
/// refused, and the process is still there.
#[derive(Drop)]
pub enum Done {
    Does(Running),
    Rests(Running),
    Fails(Running, MufFault),
}

/// Why a shared primitive isn't done.
#[derive(Drop)]
pub enum DeedFault {
    /// The program may not, or with other items.
    Fault(MufFault),
    /// Memory was wanted.
    NoMemory,
}

impl From<MufFault> for DeedFault {
    ghost use Rattle.std.specs.Prelude.{◌≡◌};
    ghost use Rattle.muck_turns.specs.declared.state.deeds.DeedFault.TheVariants.{Fault};

    ghost from_gives = { λ fault e. e ≡ Fault fault };

    fn from(fault: MufFault) -> Self {
        DeedFault::Fault(fault)
    }
}

impl From<NoMemory> for DeedFault {
    ghost use Rattle.std.specs.Prelude.{◌≡◌};
    ghost use Rattle.muck_turns.specs.declared.state.deeds.DeedFault.TheVariants.{NoMemory};

    ghost from_gives = { λ _ e. e ≡ NoMemory };

    fn from(_: NoMemory) -> Self {
        DeedFault::NoMemory
    }
}

impl State {
    /// Does the shared primitive that comes next in a process, for who acts there.
    #[tactic(auto, unfolding(spec_events::specs::Slices::deed))]
    pub(crate) fn do_deed(
        &mut self,
        pid: i32,
        agent: Agent,
        actor: Actor,
        prim: Prim,
        running: Running,
    ) -> Result<Done, NoMemory>
        requires at { IsAtPrimitive running.now }
        requires actor { actor ≡ acting agent running self.old.live.objects }
        ensures { IfOk result (λ done. DoneAs (deed pid agent prim running self.old) running self.new done) }
    {
        match prim.family() {
            Family::Process => self.do_process(pid, agent, actor, prim, running),
            _ => self.do_row(agent, actor, prim, running),
        }
    }

    // A primitive that has a row: the world and the frame of the process are lent to it.
    #[tactic(auto, unfolding(spec_events::specs::Slices::row_done))]
    fn do_row(
        &mut self,
        agent: Agent,
        actor: Actor,
        prim: Prim,
        running: Running,
    ) -> Result<Done, NoMemory>
        requires at { IsAtPrimitive running.now }
        requires actor { actor ≡ acting agent running self.old.live.objects }
        ensures { IfOk result (λ done. DoneAs (row_done agent prim running self.old) running self.new done) }
    {
        let (programs, mut frame) = running.take_apart();
        match self.apply(prim, actor, agent.descr, &mut frame) {
            Ok(()) => Ok(Done::Does(passed(programs, frame))),
            Err(PrimFault::Fault(fault)) => {
                Ok(Done::Fails(Running::rejoin(programs, frame), fault))
            }
            Err(PrimFault::NoMemory) => Err(NoMemory),
        }
    }

    // The row of a primitive: objects and board are lent to it.
    fn apply(
        &mut self,
        prim: Prim,
        actor: Actor,
        descr: Option<u32>,
        frame: &mut FrameBox,
    ) -> Result<(), PrimFault>
        ensures { AppliedTo (shared prim actor descr (locked_by (flat frame.old).marks) (flat frame.old).stack self.old.live) frame.old frame.new self.old self.new result }
    {
        let mut guard = Guard::new(self.alloc, &mut self.db, &mut self.board, actor);
        apply_by_family(prim, &mut guard, frame.get_mut(), descr)
    }

    /// The running program acts by its level and its user, for the player of the process.
    #[tactic(auto, using(crate::proofs::Deeds::callers_numbered))]
    pub(crate) fn actor(&self, agent: Agent, running: &Running) -> Result<Actor, NoMemory>
        ensures { IfOk result (λ a. a ≡ acting agent running.now self.now.live.objects) }
    {
        let Agent {
            player,
            trigger,
            ..
        } = agent;
        let program = running.program();
        let callers = running.callers(self.alloc)?;
        Ok(Actor {
            level: level(&self.db, program, callers.as_slice()),
            user: user(&self.db, player, trigger, program, callers.as_slice()),
            player,
        })
    }
}

// The row of a primitive, by the family that it is of.
#[tactic(auto, using(crate::proofs::Deeds::without_row))]
fn apply_by_family(
    prim: Prim,
    guard: &mut Guard,
    frame: &mut Frame,
    descr: Option<u32>,
) -> Result<(), PrimFault>
    ensures { Applied (shared prim guard.old.actor descr (locked_by (flat frame.old).marks) (flat frame.old).stack (world_of guard.old)) frame.old frame.new guard.old guard.new result }
{
    match prim.family() {
        Family::Object => prim_db::apply(prim, guard, frame),
        Family::Property => prim_prop::apply(prim, guard, frame),
        Family::Talk => prim_talk::apply(prim, guard, frame, descr),
        _ => Err(PrimFault::Fault(MufFault::NotCompiled)),
    }
}

/// The process behind the primitive at which it stands.
pub fn passed(programs: Programs, frame: FrameBox) -> Running
    requires { PassesOn programs (flat frame) }
    ensures { (f : Flat) (s : Source) → Apart programs f s → Differs f (flat frame) → result ≡ item_passed (with_frame (flat frame) s) }
{
    let mut next = Running::rejoin(programs, frame);
    next.pass();
    next
}

/// The process behind a primitive that took so many items.
pub fn behind(running: Running, items: usize) -> Running
    requires at { IsAtPrimitive running.now }
    requires items { items ≤ length running.stack }
    ensures state { result ≡ state_behind (drop items running.stack) running }
    ensures most { length (drop items running.stack) + items ≤ 1024 }
{
    let (programs, mut frame) = running.take_apart();
    frame.drop_items(items);
    passed(programs, frame)
}
