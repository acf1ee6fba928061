// Lines of the editor.
ghost use Rattle.std.specs.Prelude.{◌≡◌, OnOk, IfOk};
ghost use Rattle.muck_model.specs.declared.edit.EditState.{EditState};
ghost use Rattle.spec_live.specs.Lives.{tell};
ghost use Rattle.spec_commands.specs.Finding.{actor_of};
ghost use Rattle.spec_commands.specs.Editing.{IsOpen, is_editor_open, edited_by_line};
ghost use Rattle.spec_events.specs.World.{on_live};
ghost use Rattle.spec_events.specs.Lines.{with_editor, next_editor, flaw_text, compiled, edited_line, in_editor};

use crate::commands::actor_of;
use crate::state::State;
use muck_edit::{EditStep, Editor, is_open};
use muck_library::Flaw;
use muck_model::{Dbref, EditState, Line, NoMemory};
use muck_perm::Guard;
use spec_events::flaw_text;

impl State {
    /// A line goes to an editor that was taken from its connection, which goes on or is left. An editor that isn't open
    /// any more is left.
    #[tactic(auto, unfolding(spec_events::specs::Lines::in_editor, spec_commands::specs::Editing::editor_exited))]
    pub(crate) fn in_editor(
        &mut self,
        d: u32,
        player: Dbref,
        state: EditState,
        line: &Line,
    ) -> Result<(), NoMemory>
        ensures { OnOk result (self.new ≡ in_editor d player state line.now self.old) }
    {
        if !self.is_open(player, &state) {
            return self.tell(d, b"Editor exited.");
        }
        self.edit_line(d, player, state, line)
    }

    // Whether an editor is open.
    fn is_open(&mut self, player: Dbref, state: &EditState) -> bool
        ensures answer { result ≡ is_editor_open state.now self.old.live }
        ensures same { self.new ≡ self.old }
    {
        let actor = actor_of(&self.db, player);
        let guard = Guard::new(self.alloc, &mut self.db, &mut self.board, actor);
        is_open(&guard, state)
    }

    // A line of an editor that is open.
    #[tactic(auto, unfolding(spec_events::specs::Lines::edited_line))]
    fn edit_line(
        &mut self,
        d: u32,
        player: Dbref,
        state: EditState,
        line: &Line,
    ) -> Result<(), NoMemory>
        requires { IsOpen state self.old.live }
        ensures { OnOk result (self.new ≡ edited_line d player state line.now self.old) }
    {
        let program = state.program;
        let mut editor = Editor { state };
        let step = self.edit(&mut editor, d, player, line)?;
        self.keep_editor(d, editor, step);
        self.settle();
        match step {
            EditStep::Compile => self.compile(d, program),
            EditStep::Stay | EditStep::Left => Ok(()),
        }
    }

    // The editor takes the line.
    fn edit(
        &mut self,
        editor: &mut Editor,
        d: u32,
        player: Dbref,
        line: &Line,
    ) -> Result<EditStep, NoMemory>
        requires { IsOpen editor.old.state self.old.live }
        ensures world { OnOk result (self.new ≡ record self.old { live = (edited_by_line d (actor_of self.old.live.objects player) editor.old.state line.now self.old.live).0 }) }
        ensures state { OnOk result (editor.new.state ≡ (edited_by_line d (actor_of self.old.live.objects player) editor.old.state line.now self.old.live).1) }
        ensures step { IfOk result (λ step. step ≡ (edited_by_line d (actor_of self.old.live.objects player) editor.old.state line.now self.old.live).2) }
    {
        let actor = actor_of(&self.db, player);
        let mut guard = Guard::new(self.alloc, &mut self.db, &mut self.board, actor);
        let step = editor.line(&mut guard, d, line)?;
        Ok(step)
    }

    // The editor goes back to its connection, unless it was left.
    fn keep_editor(&mut self, d: u32, editor: Editor, step: EditStep)
        ensures { self.new ≡ on_live (with_editor d (next_editor step editor.state)) self.old }
    {
        match step {
            EditStep::Left => self.board.set_editor(d, None),
            EditStep::Stay | EditStep::Compile => self.board.set_editor(d, Some(editor.state)),
        }
    }

    // Builds a program anew, and tells the connection how that went.
    #[tactic(auto, unfolding(spec_events::specs::Lines::compiled, spec_events::specs::Lines::compiler_done))]
    fn compile(&mut self, d: u32, program: Dbref) -> Result<(), NoMemory>
        ensures { OnOk result (self.new ≡ compiled d program self.old) }
    {
        match self.library.rebuild(self.alloc, &self.db, program)? {
            None => self.tell(d, b"Compiler done."),
            Some(flaw) => self.tell_flaw(d, flaw),
        }
    }

    // The connection is told of the flaw of a source.
    fn tell_flaw(&mut self, d: u32, flaw: Flaw) -> Result<(), NoMemory>
        ensures { OnOk result (self.new ≡ on_live (tell d (flaw_text flaw)) self.old) }
    {
        let text = flaw_text(self.alloc, flaw)?;
        self.tell(d, text.as_slice())
    }
}
