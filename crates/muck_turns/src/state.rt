// The world's own state, without its history.
ghost use Rattle.std.specs.Prelude.{◌≡◌, OnOk};
ghost use Rattle.muck_model.specs.declared.event.Event.{Event};
ghost use Rattle.spec_live.specs.Lives.{tell};
ghost use Rattle.spec_events.specs.World.{on_live};
ghost use Rattle.spec_events.specs.Steps.{happened};

mod calls;
mod deeds;
mod dumping;
mod editing;
mod following;
mod going;
mod hook;
mod limits;
mod lines;
mod login;
mod processes;
mod seeing;
mod slices;
mod starting;
mod turns;

use crate::dumps::Dumps;
pub use login::WELCOME;
use muck_board::Board;
use muck_db::Db;
use muck_library::Library;
use muck_model::{Line, NoMemory};
use muck_queue::Queue;
use std::alloc::Global;
use std::marker::Model;

/// The objects, who is connected, the built forms of programs, the processes, the moment, the dump that runs and those that are
/// asked, and whether the run stops; and what is done to them. Contracts see it as a world that lives.
#[derive(Drop)]
pub struct State {
    pub alloc: Global,
    pub db: Db,
    pub board: Board,
    pub library: Library,
    pub queue: Queue,
    pub moment: u64,
    pub dumps: Dumps,
    pub stopping: bool,
}

impl Model for State {
    ghost use Rattle.spec_events.specs.World.{World};
    ghost use Rattle.std.specs.Prelude.{false};

    ghost Value = { World };

    ghost use Rattle.std.specs.Coded.{codes};
    ghost use Rattle.muck_prop.specs.contracts.props.Props as props;
    ghost use Rattle.muck_model.specs.contracts.lock.Lock as lock;
    ghost use Rattle.muf_model.specs.inner.Codes.{datum_code, block_code, end_code};

    ghost coded = { Prim.hlevel (codes, props.the_row.coded, lock.the_row.coded, datum_code, block_code, end_code) };

    ghost view = { λ s. record { live = record { objects = s.db; board = s.board }; library = s.library; queue = s.queue; moment = s.moment; dumps = s.dumps; stopping = s.stopping; dead = false } };
}

impl State {
    /// A copy of a line comes, and waits.
    pub fn hear(&mut self, d: u32, line: &Line) -> Result<(), NoMemory>
        ensures { OnOk result (self.new ≡ happened self.old 0 (Event.Input d line.now)) }
    {
        let line = line.copy(self.alloc)?;
        self.board.add_line(d, line)?;
        Ok(())
    }

    // A text is sent to a connection.
    #[tactic(auto, unfolding(spec_live::specs::Lives::tell))]
    fn tell(&mut self, d: u32, text: &[u8]) -> Result<(), NoMemory>
        ensures { OnOk result (self.new ≡ on_live (tell d text.now) self.old) }
    {
        self.board.tell(d, text)?;
        Ok(())
    }
}
