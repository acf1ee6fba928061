// A mirror, as it stands.
ghost use Rattle.std.specs.Prelude.{◌≡◌, IfOk};
ghost use Rattle.muck_mirror.specs.Laying.{IsSound};
ghost use Rattle.muck_mirror.specs.Mirrors.{mirror_made};

use crate::World;
use muck_model::NoMemory;
use std::alloc::Global;
use std::marker::Model;

/// What came of a body that was fed.
#[derive(Clone, Copy, Debug, PartialEq, Eq)]
pub enum Fed {
    /// It was next, and this is the last number that was applied.
    Applied { upto: u64 },
    /// Its number was applied before, or is kept.
    Known,
    /// It is kept until those before it come.
    Early,
    /// There are 64 that are kept.
    Full,
    /// It is no body of this generation, from this byte on; or it is next, and doesn't leave a consistent world.
    Strange { at: u64 },
}

// A body that is kept: its number, and the bytes of its batch, which is of version 1.
#[derive(Drop)]
pub struct Waiting {
    pub number: u64,
    pub payload: Vec<u8>,
}

impl Model for Waiting {
    ghost use Rattle.muck_mirror.specs.Bodies.{FedBody};

    ghost Value = { FedBody };

    ghost view = { λ b. record { version = 1; number = b.number; payload = b.payload.items } };
}

/// A mirror of a store, which follows it by its batches. It always holds a consistent world with every value within its limits.
#[derive(Drop)]
pub struct Mirror {
    pub(crate) alloc: Global,
    pub(crate) generation: u64,
    pub(crate) next: u64,
    pub(crate) world: World,
    pub(crate) kept: Vec<Waiting>,
}

impl Model for Mirror {
    ghost use Rattle.muck_mirror.specs.Laying.{IsSound};
    ghost use Rattle.muck_mirror.specs.Mirrors.{Mirror as Held};

    ghost Value = { Held };

    ghost view = { λ m. record { generation = m.generation; next = m.next; world = m.world; kept = m.kept.items } };

    ghost invariant = { λ m. IsSound m.world };
}

impl Mirror {
    /// A mirror of the batches of this generation, from this number on, which holds the starting world.
    #[tactic(auto, unfolding(crate::specs::Mirrors::mirror_made))]
    pub fn new(alloc: Global, generation: u64, first: u64) -> Result<Mirror, NoMemory>
        ensures { IfOk result (λ m. m ≡ mirror_made generation first) }
    {
        Ok(Mirror {
            alloc,
            generation,
            next: first,
            world: World::starting(alloc)?,
            kept: Vec::new(alloc),
        })
    }

    /// The world that it holds, which is consistent, with every value within its limits.
    pub fn world(&self) -> &World
        ensures world { result.now ≡ self.now.world }
        ensures sound { IsSound self.now.world }
    {
        &self.world
    }
}
