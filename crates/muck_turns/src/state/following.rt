// What follows from a change of objects.
ghost use Rattle.std.specs.Prelude.{◌≡◌};
ghost use Rattle.spec_events.specs.Following.{unbuilt, settled};
ghost use Rattle.muck_turns.specs.inner.Followed.{followed_change};

use crate::state::State;
use muck_model::Dbref;
use spec_live::Changed;

impl State {
    /// Everything that is to be told of objects is told, with what follows from it: the built form of a program whose
    /// source changed is dropped and its processes end; of what is gone besides no process was started any more, and
    /// nobody edits it. It takes no memory.
    pub(crate) fn settle(&mut self)
        ensures { self.new ≡ settled self.old }
    {
        while let Some(changed) = self.db.next_changed() {
            self.follow(changed);
        }
    }

    // What follows from one change.
    fn follow(&mut self, changed: Changed)
        ensures { self.new ≡ followed_change changed self.old }
    {
        match changed {
            Changed::Lines(program) => self.unbuild(program),
            Changed::Gone(object) => {
                self.unbuild(object);
                self.queue.clear_trigger(object);
                self.board.close_editors(object);
            }
        }
    }

    // The built form of a program is dropped, and the processes that run it end.
    fn unbuild(&mut self, program: Dbref)
        ensures { self.new ≡ unbuilt program self.old }
    {
        self.library.drop_form(program);
        self.queue.end_running(program);
    }
}
