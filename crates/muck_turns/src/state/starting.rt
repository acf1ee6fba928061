// Programs that are started.
ghost use Rattle.std.specs.Prelude.{◌≡◌, OnOk, Some};
ghost use Rattle.spec_live.specs.Lives.{place_at, tell};
ghost use Rattle.spec_rights.specs.Asking.{refused};
ghost use Rattle.muf_model.specs.inner.Decode.{tree_of};
ghost use Rattle.muf_model.specs.Faults.{fault_text};
ghost use Rattle.muf_model.specs.inner.Stands.{TreeStands};
ghost use Rattle.spec_events.specs.World.{on_live};
ghost use Rattle.spec_events.specs.Starting.{program_begun, by_command, first_mode, form_started, process_joined, launched, start_told};
ghost use Rattle.muck_turns.specs.inner.Deeds.{Begins, IsAdding, StartsAs};

use crate::state::State;
use crate::state::deeds::DeedFault;
use cmd_common::refuse;
use muck_model::{Dbref, Denial, NoMemory};
use muck_perm::{Guard, flag_at, verdict};
use muck_queue::{Events, Mode, Process, QueueFault, Wait};
use muf_model::{Code, MufFault, Shared};
use muf_running::{Occasion, Running};
use spec_events::{Call, Manner};
use spec_live::BUILDER;
use spec_rights::{Act, Actor};

impl State {
    /// An actor starts a program from the connection d: by leave, and built where it isn't yet. A denial, a source with a
    /// flaw and too many processes are told to the connection.
    #[tactic(auto, unfolding(spec_events::specs::Starting::launched))]
    pub(crate) fn launch(&mut self, d: u32, actor: Actor, call: Call) -> Result<(), NoMemory>
        ensures { OnOk result (self.new ≡ launched d actor call self.old) }
    {
        let act = Act::Start {
            program: call.program,
        };
        match verdict(&self.db, &actor, &act) {
            Err(denial) => self.refuse(d, actor, denial),
            Ok(_) => self.start(d, call),
        }
    }

    // A rule denies what was asked, and the connection is told which.
    fn refuse(&mut self, d: u32, actor: Actor, denial: Denial) -> Result<(), NoMemory>
        ensures { OnOk result (self.new ≡ on_live (refused d denial) self.old) }
    {
        let mut guard = Guard::new(self.alloc, &mut self.db, &mut self.board, actor);
        refuse(&mut guard, d, denial)?;
        Ok(())
    }

    // Starts a program from the connection d; where it isn't started the connection is told why.
    fn start(&mut self, d: u32, call: Call) -> Result<(), NoMemory>
        ensures { OnOk result (self.new ≡ start_told d (program_begun (by_command d call.program self.old) call self.old)) }
    {
        let manner = Manner {
            descr: Some(d),
            mode: self.first_mode(call.program),
            due: self.moment,
        };
        match self.begin(manner, call) {
            Ok(_) => Ok(()),
            Err(DeedFault::Fault(fault)) => self.tell_fault(d, &fault),
            Err(DeedFault::NoMemory) => Err(NoMemory),
        }
    }

    // A command starts a program with flag B in preempt.
    fn first_mode(&self, program: Dbref) -> Mode
        ensures { result ≡ first_mode program self.now }
    {
        if flag_at(BUILDER, &self.db, program) {
            Mode::Preempt
        } else {
            Mode::Foreground
        }
    }

    // A connection is told of a fault.
    fn tell_fault(&mut self, d: u32, fault: &MufFault) -> Result<(), NoMemory>
        ensures { OnOk result (self.new ≡ on_live (tell d (fault_text fault.now)) self.old) }
    {
        let text = fault.text(self.alloc)?;
        self.tell(d, text.as_slice())
    }

    /// Starts a program from its built form, which is made where it isn't there yet, and answers the number of its
    /// process. `NotCompiled` comes where it can't be built or has no word, `ProcessLimit` where there are too many
    /// processes; then no process has come.
    #[tactic(auto, unfolding(spec_events::specs::Starting::program_begun))]
    pub(crate) fn begin(&mut self, manner: Manner, call: Call) -> Result<i32, DeedFault>
        ensures { Begins (program_begun manner call self.old) self.new result }
    {
        match self.library.formed(self.alloc, &self.db, call.program)? {
            None => Err(DeedFault::Fault(MufFault::NotCompiled)),
            Some(code) => self.begin_word(manner, call, code),
        }
    }

    // Where an object is, nothing where it isn't there.
    pub(crate) fn place_of(&self, x: Dbref) -> Dbref
        ensures { result ≡ place_at x self.now.live }
    {
        match self.db.get(x) {
            Some(object) => object.place(),
            None => Dbref(-1),
        }
    }

    // A new process begins in the last word of a program.
    #[tactic(auto, unfolding(spec_events::specs::Starting::new_process))]
    fn begin_word(
        &mut self,
        manner: Manner,
        call: Call,
        code: Shared<Code>,
    ) -> Result<i32, DeedFault>
        requires { TreeStands code (tree_of code) }
        ensures { Begins (form_started manner call (Some (tree_of code)) self.old) self.new result }
    {
        let Call {
            player,
            program,
            trigger,
            command,
            argument,
        } = call;
        let occasion = Occasion {
            player,
            place: self.place_of(player),
            trigger,
            command: command.copy(self.alloc)?,
        };
        let Manner { descr, mode, due } = manner;
        match Running::begin(self.alloc, program, code, occasion, argument)? {
            None => Err(DeedFault::Fault(MufFault::NotCompiled)),
            Some(running) => self.join(Process {
                number: 0,
                due,
                player,
                trigger,
                command,
                descr,
                program,
                mode,
                wait: Wait::Nothing,
                units: 0,
                section: 0,
                events: Events::new(self.alloc),
                running: Some(running),
            }),
        }
    }

    /// A process joins the others, where there is room for it.
    pub(crate) fn join(&mut self, process: Process) -> Result<i32, DeedFault>
        ensures { Begins (process_joined process self.old) self.new result }
    {
        let tune = self.board.tune();
        let added = self.queue.add(process, &tune);
        started(added)
    }
}

// What a start answers, once its process was added or refused.
fn started(added: Result<i32, QueueFault>) -> Result<i32, DeedFault>
    requires { IsAdding added }
    ensures { StartsAs added result }
{
    match added {
        Ok(number) => Ok(number),
        Err(QueueFault::ProcessLimit) => Err(DeedFault::Fault(MufFault::ProcessLimit)),
        Err(QueueFault::NoMemory) => Err(DeedFault::NoMemory),
        Err(QueueFault::TooManyEvents) => unreachable!(),
    }
}
