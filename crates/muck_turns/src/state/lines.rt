// Lines that are done.
ghost use Rattle.std.specs.Prelude.{◌≡◌, IfOk, OnOk, Some, None};
ghost use Rattle.muck_model.specs.declared.event.Event.{Event};
ghost use Rattle.muck_queue.specs.Queues.{reader};
ghost use Rattle.spec_live.specs.Boards.{editor_in};
ghost use Rattle.spec_commands.specs.Finding.{actor_of};
ghost use Rattle.spec_commands.specs.inner.Rising.{IsRising};
ghost use Rattle.spec_live.specs.Stood.{IsStill};
ghost use Rattle.muck_turns.specs.inner.Hooks.{AreTold, said_of};
ghost use Rattle.spec_events.specs.Lines.{spoken, line_spoken, spoken_by, command, typed, processes_after_line, followed_up, given_line, in_world, is_abort, line_for, with_editor, editor_on};
ghost use Rattle.spec_events.specs.Steps.{happened, hooked_by};
ghost use Rattle.spec_events.specs.World.{on_live, connection};

use crate::commands::{actor_of, play};
use crate::state::State;
use crate::state::hook::Speech;
use cmd_common::copy_lines;
use muck_model::{Dbref, EditState, Line, LineList, NoMemory};
use muck_perm::Guard;
use muf_model::Text;
use spec_commands::Outcome;
use spec_events::Call;

impl State {
    /// The first waiting line of a connection is done, and what is hooked to that starts. The line goes to the process that reads from the connection, where there is one.
    pub fn do_line(&mut self, d: u32) -> Result<(), NoMemory>
        requires told { AreTold self.old.live.objects }
        requires still { IsStill self.old.live.objects }
        requires rising { IsRising self.old.live.board.connections }
        ensures { OnOk result (self.new ≡ hooked_by self.old (Event.Exec d) (happened self.old 0 (Event.Exec d))) }
    {
        let before = self.player_of(d);
        let said = self.first_line(d)?;
        let turned = self.came(d, before);
        self.hook(turned, said)
    }

    // The line alone, and what was said by it.
    fn first_line(&mut self, d: u32) -> Result<Option<Speech>, NoMemory>
        ensures world { OnOk result (self.new ≡ happened self.old 0 (Event.Exec d)) }
        ensures said { IfOk result (λ said. said_of said ≡ spoken d (connection d self.old) self.old) }
    {
        match self.board.take_line(d) {
            None => Ok(None),
            Some((player, line)) => self.bring(d, player, line),
        }
    }

    // A line goes to the process that reads from its connection, or is done.
    fn bring(
        &mut self,
        d: u32,
        player: Option<Dbref>,
        line: Line,
    ) -> Result<Option<Speech>, NoMemory>
        ensures world { OnOk result (self.new ≡ line_for (reader d self.old.queue) player (editor_in d self.old.live.board) d line self.old) }
        ensures said { IfOk result (λ said. said_of said ≡ line_spoken (reader d self.old.queue) player (editor_in d self.old.live.board) d line self.old) }
    {
        match (self.queue.reader(d), player) {
            (Some(pid), _) => {
                self.give_line(d, pid, line)?;
                Ok(None)
            }
            (None, None) => {
                self.at_login(d, line.as_slice())?;
                Ok(None)
            }
            (None, Some(player)) => self.obey(d, player, &line),
        }
    }

    // A process that reads takes a line, or ends by it.
    #[tactic(auto, unfolding(spec_events::specs::Lines::given_line, spec_events::specs::Lines::program_aborted))]
    fn give_line(&mut self, d: u32, pid: i32, line: Line) -> Result<(), NoMemory>
        ensures { OnOk result (self.new ≡ given_line d pid line self.old) }
    {
        if is_abort(&line) {
            self.queue.kill(pid);
            return self.tell(d, b"Foreground program aborted.");
        }
        let text = Text::new(self.alloc, line)?;
        self.queue.give_line(pid, self.moment, text);
        Ok(())
    }

    // A line of a player, who edits a program or gives a command.
    fn obey(&mut self, d: u32, player: Dbref, line: &Line) -> Result<Option<Speech>, NoMemory>
        ensures world { OnOk result (self.new ≡ command (Some player) (editor_in d self.old.live.board) d line.now self.old) }
        ensures said { IfOk result (λ said. said_of said ≡ line_spoken None (Some player) (editor_in d self.old.live.board) d line.now self.old) }
    {
        match self.board.take_editor(d) {
            Some(state) => {
                self.in_editor(d, player, state, line)?;
                Ok(None)
            }
            None => self.in_world(d, player, line),
        }
    }

    // A command of a player is done, with what follows from the objects that it changed and what is to follow it.
    #[tactic(auto, unfolding(spec_events::specs::Lines::in_world))]
    fn in_world(&mut self, d: u32, player: Dbref, line: &Line) -> Result<Option<Speech>, NoMemory>
        ensures world { OnOk result (self.new ≡ in_world d player line.now self.old) }
        ensures said { IfOk result (λ said. said_of said ≡ spoken_by player (typed self.old.queue d (actor_of self.old.live.objects player) line.now self.old.live)) }
    {
        let outcome = self.play(d, player, line)?;
        let said = self.speech(player, &outcome)?;
        self.settle();
        self.follow_up(d, player, outcome)?;
        Ok(said)
    }

    // Does the line, and answers what is to follow.
    fn play(&mut self, d: u32, player: Dbref, line: &Line) -> Result<Outcome, NoMemory>
        ensures world { OnOk result (self.new ≡ record self.old { live = (typed self.old.queue d (actor_of self.old.live.objects player) line.now self.old.live).0; queue = processes_after_line d (actor_of self.old.live.objects player) line.now self.old.live self.old.queue }) }
        ensures outcome { IfOk result (λ outcome. outcome ≡ (typed self.old.queue d (actor_of self.old.live.objects player) line.now self.old.live).1) }
    {
        let actor = actor_of(&self.db, player);
        let mut guard = Guard::new(self.alloc, &mut self.db, &mut self.board, actor);
        let outcome = play(&mut guard, &mut self.queue, d, line)?;
        Ok(outcome)
    }

    // Does what is to follow a command.
    #[tactic(auto, unfolding(spec_live::specs::Lives::leave, spec_rights::specs::Changing::tuned, spec_live::specs::Boards::tuned))]
    fn follow_up(&mut self, d: u32, player: Dbref, outcome: Outcome) -> Result<(), NoMemory>
        ensures { OnOk result (self.new ≡ followed_up d player outcome self.old) }
    {
        match outcome {
            Outcome::Leave => {
                self.board.leave(d);
                Ok(())
            }
            Outcome::Edit(program) => self.open_editor(d, program),
            Outcome::Start {
                program,
                trigger,
                command,
                arg,
            } => {
                let actor = actor_of(&self.db, player);
                let call = Call {
                    player,
                    program,
                    trigger,
                    command,
                    argument: arg,
                };
                self.launch(d, actor, call)
            }
            Outcome::Dump => self.dumps.ask(self.alloc, d),
            Outcome::Stop => {
                self.stopping = true;
                Ok(())
            }
            Outcome::Retune(tune) => {
                self.board.set_tune(tune);
                Ok(())
            }
            Outcome::Done | Outcome::Said { .. } | Outcome::NotMine => Ok(()),
        }
    }

    // Opens the editor on a program, with its source.
    fn open_editor(&mut self, d: u32, program: Dbref) -> Result<(), NoMemory>
        ensures { OnOk result (self.new ≡ on_live (with_editor d (Some (editor_on program self.old.live))) self.old) }
    {
        let lines = self.source_of(program)?;
        let state = EditState {
            program,
            lines,
            inserting: None,
        };
        self.board.set_editor(d, Some(state));
        Ok(())
    }

    // A copy of the source of an object; of what isn't there no line.
    fn source_of(&self, program: Dbref) -> Result<LineList, NoMemory>
        ensures { IfOk result (λ lines. lines ≡ (editor_on program self.now.live).lines) }
    {
        match self.db.get(program) {
            Some(object) => copy_lines(self.alloc, object.lines()),
            None => LineList::new(self.alloc),
        }
    }
}

// Whether a line ends the process that reads it.
fn is_abort(line: &Line) -> bool
    ensures { result ≡ is_abort line.now }
{
    line.as_slice().eq_ignore_ascii_case(b"@q")
}
