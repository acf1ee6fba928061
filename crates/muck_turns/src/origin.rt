// How a world began, kept for contracts alone.
ghost use Rattle.std.specs.Prelude.{◌≡◌, IfOk};
ghost use Rattle.spec_events.specs.World.{world_booted};

use atomic_table::{Table, TableRule};
use muck_db::Db;
use muck_model::{NoMemory, Tune};
use std::alloc::Global;
use std::marker::Model;

/// With what a world begins: its objects, its parameters, the second, and how its random numbers begin.
#[derive(Drop)]
pub struct Begun {
    pub db: Db,
    pub tune: Tune,
    pub moment: u64,
    pub start: u64,
}

// The table's rule, which every state keeps.
struct Free;

impl TableRule<u64, (), Begun> for Free {
    ghost holds = { λ _ _. Unit {0} };

    ghost first = { λ _. tt };
}

/// The world as it began. It isn't stored: contracts see it, and the program keeps one word.
#[derive(Drop)]
pub struct Origin {
    word: Table<u64, (), Begun, Free, Global>,
}

impl Model for Origin {
    ghost use Rattle.spec_events.specs.World.{World, world_booted};
    ghost use Rattle.std.specs.Coded.{codes};
    ghost use Rattle.muck_prop.specs.contracts.props.Props as props;
    ghost use Rattle.muck_model.specs.contracts.lock.Lock as lock;
    ghost use Rattle.muf_model.specs.inner.Codes.{datum_code, block_code, end_code};

    ghost Value = { World };

    ghost coded = { Prim.hlevel (codes, props.the_row.coded, lock.the_row.coded, datum_code, block_code, end_code) };

    ghost view = { λ o. world_booted o.word.shared.key.db o.word.shared.key.tune o.word.shared.key.moment o.word.shared.key.start };
}

impl Origin {
    /// The world that begins so.
    pub fn new(alloc: Global, begun: &Begun) -> Result<Origin, NoMemory>
        ensures { IfOk result (λ o. o ≡ world_booted begun.now.db begun.now.tune begun.now.moment begun.now.start) }
    {
        let (word, _) = Table::of_words(alloc, &[0], begun)?;
        Ok(Origin { word })
    }
}
