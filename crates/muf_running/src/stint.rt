// Many units of a program that runs, and faults.
ghost use Rattle.std.specs.Prelude.{◌≡◌, IfOk, List, ◌∷◌, reverse, length, ◌<◌, drop};
ghost use Rattle.muf_model.specs.Chains.{taken};
ghost use Rattle.muf_model.specs.inner.Flat.{decode, Flat};
ghost use Rattle.muf_model.specs.inner.Nested.{StaysNested};
ghost use Rattle.muf_model.specs.Unit.{Outcome, units, fault_met};
ghost use Rattle.muf_frame.specs.inner.Shown.{flat};
ghost use Rattle.muf_running.specs.inner.Fitting.{codes_of, ProgramsFit};
ghost use Rattle.muf_running.specs.inner.Stints.{RanAlike, AskedAt, Raised, LocalFits};

use crate::Running;
use crate::entered::Entered;
use crate::frame_box::FrameBox;
use crate::running::{left, running_code};
use muck_model::NoMemory;
use muf_frame::Frame;
use muf_model::{MufFault, Prim};
use muf_run::{Local, run_local};
use std::alloc::Global;

/// How a run of a process ended.
#[derive(Drop)]
pub enum Ran {
    /// It took all units that it was given, or the last one went back into a calling program.
    Going(Running),
    /// A shared primitive comes next.
    Asking(Prim, Running),
    /// The last unit ended the process.
    Ended,
    /// The last unit's fault was caught by no TRY.
    Faulted(MufFault),
}

/// How a run of a process ended, and how many units it took.
#[derive(Drop)]
pub struct Stint {
    pub ran: Ran,
    pub units: u32,
}

// Units of the running program.
fn run_current(
    alloc: Global,
    programs: &[Entered],
    frame: &mut Frame,
    most: u32,
) -> Result<Local, NoMemory>
    requires { ProgramsFit (reverse programs.now) (flat frame.old) }
    ensures answer { IfOk result (λ local. LocalFits (reverse programs.now) local (flat frame.new) (units most (decode (codes_of (reverse programs.now)) (flat frame.old)))) }
    ensures units { IfOk result (λ _. frame.new.units ≡ taken most (decode (codes_of (reverse programs.now)) (flat frame.old))) }
{
    let code = running_code(programs);
    run_local(alloc, code, frame, most)
}

// The process as a run left it.
fn stopped(programs: Vec<Entered>, frame: FrameBox, local: Local) -> Ran
    requires { (o : Outcome) × LocalFits (reverse programs.items) local (flat frame) o }
    ensures { (o : Outcome) → LocalFits (reverse programs.items) local (flat frame) o → RanAlike result o }
{
    match local {
        Local::Spent => Ran::Going(left(programs, frame, 0)),
        Local::Returned(count) => Ran::Going(left(programs, frame, count)),
        Local::Shared(prim) => Ran::Asking(prim, left(programs, frame, 0)),
        Local::Ended => Ran::Ended,
        Local::Faulted(fault) => Ran::Faulted(fault),
    }
}

impl Running {
    /// Runs at most so many units: up to a shared primitive, which then comes next, to the end of the process, or back
    /// into a calling program. No unit is ever stuck. After `NoMemory` nothing is left of the process.
    pub fn run(self, alloc: Global, most: u32) -> Result<Stint, NoMemory>
        ensures ran { IfOk result (λ s. RanAlike s.ran (units most self)) }
        ensures units { IfOk result (λ s. s.units ≡ taken most self) }
        ensures asked { IfOk result (λ s. AskedAt s.ran) }
        ensures nested { IfOk result (λ _. StaysNested (units most self)) }
    {
        let Running {
            programs,
            mut frame,
        } = self;
        let local = run_current(alloc, &programs, frame.get_mut(), most)?;
        let units = frame.get().units();
        let ran = stopped(programs, frame, local);
        Ok(Stint { ran, units })
    }

    /// A fault: the process goes on behind the nearest TRY, `None` where no TRY catches it. After `NoMemory` nothing
    /// is left of the process.
    pub fn raise(self, alloc: Global, fault: &MufFault) -> Result<Option<Running>, NoMemory>
        ensures { IfOk result (λ r. Raised fault.now self r) }
    {
        let Running {
            programs,
            mut frame,
        } = self;
        match frame.get_mut().unwind(alloc, fault)? {
            Some(count) => Ok(Some(left(programs, frame, count))),
            None => Ok(None),
        }
    }
}
