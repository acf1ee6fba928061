// The login screen.
ghost use Rattle.std.specs.Prelude.{◌≡◌, IfOk, OnOk};
ghost use Rattle.spec_live.specs.Lives.{change_followed, reading};
ghost use Rattle.spec_events.specs.World.{on_live};
ghost use Rattle.spec_commands.specs.Replies.{has_connected};
ghost use Rattle.spec_commands.specs.Messages.{look_typed};
ghost use Rattle.spec_commands.specs.Finding.{actor_of, shown_others, place_looked_at};
ghost use Rattle.spec_commands.specs.Talking.{who_shown};
ghost use Rattle.spec_commands.specs.Talk.{at_login, connecting, logged_in, proved, let_in, quit};

use crate::commands::actor_of;
use crate::state::State;
use cmd_common::show_others;
use muck_model::{Dbref, NoMemory};
use muck_perm::Guard;
use spec_commands::{alike, cut_word, trim};
use spec_live::DbFault;

/// What a new connection is shown.
pub const WELCOME: &[u8] = b"Use: connect NAME PASSWORD, WHO or QUIT.";

impl State {
    /// A line of the login screen is done.
    #[tactic(auto, unfolding(spec_commands::specs::Talk::at_login, spec_commands::specs::Talk::welcome, spec_live::specs::Lives::either))]
    pub(crate) fn at_login(&mut self, d: u32, line: &[u8]) -> Result<(), NoMemory>
        ensures { OnOk result (self.new ≡ on_live (at_login d line.now) self.old) }
    {
        let text = trim(line);
        if alike(text, b"QUIT") {
            return self.quit(d);
        }
        if alike(text, b"WHO") {
            return self.show_who(d);
        }
        let (word, others) = cut_word(text);
        if !alike(word, b"connect") {
            return self.tell(d, WELCOME);
        }
        let (name, password) = cut_word(trim(others));
        self.connecting(d, name, trim(password))
    }

    #[tactic(auto, unfolding(spec_commands::specs::Talk::connecting, spec_commands::specs::Talk::welcome))]
    fn connecting(&mut self, d: u32, name: &[u8], password: &[u8]) -> Result<(), NoMemory>
        ensures { OnOk result (self.new ≡ on_live (connecting d name.now password.now) self.old) }
    {
        if password.is_empty() {
            return self.tell(d, WELCOME);
        }
        self.log_in(d, name, password)
    }

    #[tactic(auto, unfolding(spec_commands::specs::Talk::logged_in, spec_live::specs::Lives::reading))]
    fn log_in(&mut self, d: u32, name: &[u8], password: &[u8]) -> Result<(), NoMemory>
        ensures { OnOk result (self.new ≡ on_live (logged_in d name.now password.now) self.old) }
    {
        let player = self.proved(name, password)?;
        self.let_in(d, player)
    }

    // The player of a name whose password the word is.
    #[tactic(auto, unfolding(spec_commands::specs::Talk::proved))]
    fn proved(&self, name: &[u8], word: &[u8]) -> Result<Option<Dbref>, NoMemory>
        ensures { IfOk result (λ player. player ≡ proved name.now word.now self.now.live.objects) }
    {
        let Some(player) = self.db.player_named(name) else {
            return Ok(None);
        };
        match self.db.is_password(self.alloc, player, word) {
            Ok(true) => Ok(Some(player)),
            Ok(false) => Ok(None),
            Err(DbFault::NoMemory) => Err(NoMemory),
            Err(_) => Ok(None),
        }
    }

    #[tactic(auto, unfolding(spec_commands::specs::Talk::refused_login, spec_live::specs::Lives::change_followed, spec_live::specs::Lives::enter))]
    fn let_in(&mut self, d: u32, player: Option<Dbref>) -> Result<(), NoMemory>
        ensures { OnOk result (self.new ≡ on_live (let_in d player) self.old) }
    {
        let Some(player) = player else {
            return self.tell(
                d,
                b"Either that player does not exist, or has a different password.",
            );
        };
        self.board.seat(d, player);
        self.arrive(d, player)
    }

    // The others where a player is see that it has connected, and it looks.
    #[tactic(auto, unfolding(spec_commands::specs::Replies::has_connected, spec_live::specs::Lives::change_followed, spec_live::specs::Lives::reading))]
    fn arrive(&mut self, d: u32, player: Dbref) -> Result<(), NoMemory>
        ensures { OnOk result (self.new ≡ on_live (reading (λ w. actor_of w.objects player) (λ a. change_followed (shown_others player has_connected) (place_looked_at d a look_typed))) self.old) }
    {
        let actor = actor_of(&self.db, player);
        let mut guard = Guard::new(self.alloc, &mut self.db, &mut self.board, actor);
        show_others(&mut guard, player, b" has connected.")?;
        cmd_play::look_first(&mut guard, d)?;
        Ok(())
    }

    // Somebody who isn't a player sees who is connected.
    fn show_who(&mut self, d: u32) -> Result<(), NoMemory>
        ensures { OnOk result (self.new ≡ on_live (who_shown d) self.old) }
    {
        let nobody = actor_of(&self.db, Dbref(-1));
        let mut guard = Guard::new(self.alloc, &mut self.db, &mut self.board, nobody);
        cmd_play::who(&mut guard, d)?;
        Ok(())
    }

    #[tactic(auto, unfolding(spec_commands::specs::Talk::quit, spec_commands::specs::Replies::goodbye, spec_live::specs::Lives::change_followed, spec_live::specs::Lives::leave))]
    fn quit(&mut self, d: u32) -> Result<(), NoMemory>
        ensures { OnOk result (self.new ≡ on_live (quit d) self.old) }
    {
        self.tell(d, b"Come back later!")?;
        self.board.leave(d);
        Ok(())
    }
}
