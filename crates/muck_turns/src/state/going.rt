// Connections that go.
ghost use Rattle.std.specs.Prelude.{◌≡◌, OnOk};
ghost use Rattle.muck_model.specs.declared.event.Event.{Event};
ghost use Rattle.spec_live.specs.Boards.{player_in};
ghost use Rattle.spec_events.specs.World.{on_live};
ghost use Rattle.spec_events.specs.Steps.{happened, hooked_by};
ghost use Rattle.spec_live.specs.Stood.{IsStill};
ghost use Rattle.spec_commands.specs.Talk.{player_parted};

use crate::commands::actor_of;
use crate::state::State;
use cmd_common::show_others;
use muck_model::{Dbref, NoMemory};
use muck_perm::Guard;

impl State {
    /// A connection goes, the processes that are tied to it end, and it asks for no dump any more; and what is hooked to that starts.
    pub fn close(&mut self, d: u32) -> Result<(), NoMemory>
        requires { IsStill self.old.live.objects }
        ensures { OnOk result (self.new ≡ hooked_by self.old (Event.Closed d) (happened self.old 0 (Event.Closed d))) }
    {
        let player = self.player_of(d);
        self.go(d, player)?;
        let turned = self.went(player);
        self.hook(turned, None)
    }

    // That alone.
    #[tactic(auto, unfolding(spec_commands::specs::Talk::gone_away, spec_live::specs::Lives::change_followed, spec_live::specs::Lives::reading))]
    fn go(&mut self, d: u32, player: Option<Dbref>) -> Result<(), NoMemory>
        requires { player ≡ player_in d self.old.live.board }
        ensures { OnOk result (self.new ≡ happened self.old 0 (Event.Closed d)) }
    {
        self.board.close(d);
        self.part(player)?;
        self.queue.end_tied(d);
        self.dumps.forget(d);
        Ok(())
    }

    // The player of a connection, once it has one.
    pub(crate) fn player_of(&self, d: u32) -> Option<Dbref>
        ensures { result ≡ player_in d self.now.live.board }
    {
        self.board.connection(d)?.player()
    }

    // The others where a player is see that its last connection has gone.
    #[tactic(auto, unfolding(spec_commands::specs::Talk::player_parted, spec_commands::specs::Replies::has_disconnected, spec_live::specs::Lives::unchanged, spec_live::specs::Lives::reading))]
    fn part(&mut self, player: Option<Dbref>) -> Result<(), NoMemory>
        ensures { OnOk result (self.new ≡ on_live (player_parted player) self.old) }
    {
        let Some(player) = player else {
            return Ok(());
        };
        if self.board.is_in(player) {
            return Ok(());
        }
        let actor = actor_of(&self.db, player);
        let mut guard = Guard::new(self.alloc, &mut self.db, &mut self.board, actor);
        show_others(&mut guard, player, b" has disconnected.")?;
        Ok(())
    }
}
