// What a formula asks of the world, and does to it.
use crate::fault::MpiFault;
use muck_model::{Dbref, Line};
use std::alloc::Global;

/// A question about the world, whose answer is the text of the function of that name.
#[derive(Drop)]
pub enum Ask {
    /// The name of an object.
    Name(Dbref),
    /// Its place: a player as `*NAME`, all else as `#N`.
    Loc(Dbref),
    /// Its owner, in the same way.
    Owner(Dbref),
    /// What it is.
    Kind(Dbref),
    /// The letters of its flags.
    Flags(Dbref),
    /// The list of what is in it.
    Contents(Dbref),
    /// The list of its exits.
    Exits(Dbref),
    /// Whether the second is the place of the first.
    Holds(Dbref, Dbref),
    /// Whether the player controls it.
    Controls(Dbref),
    /// The property of a path along the places upward, from the object on.
    Prop(Line, Dbref),
    /// The property of the object alone.
    PropHere(Line, Dbref),
    /// Whether properties stand below the path.
    PropDir(Line, Dbref),
}

/// A change of the world, or something that is told.
#[derive(Drop)]
pub enum Deed {
    /// Stores a text as a property.
    Store {
        text: Line,
        path: Line,
        object: Dbref,
    },
    /// Takes the property of that path away.
    DelProp {
        path: Line,
        object: Dbref,
    },
    /// Sends a text to an object; nothing where it is no player.
    Tell {
        text: Line,
        to: Dbref,
    },
    /// Sends a text to all others in a room.
    Otell {
        text: Line,
        room: Dbref,
    },
}

/// What evaluates formulas for a player: it finds, tells and does. Its calls answer [`MpiFault::NoMemory`] where memory was refused,
/// and then say no more.
pub trait Host {
    ghost use Rattle.std.specs.Prelude.{◌≡◌, ◌<◌};
    ghost use Rattle.muck_model.specs.declared.dbref.Dbref.{Dbref};
    ghost use Rattle.mpi.specs.Hosting.{Powers, Means, Meant};

    /// What is seen of a host; it is never made.
    type Seen;

    /// The world as it is seen through the host.
    ghost seen: { Self → Self.Seen };

    /// What its calls answer and change, over what is seen.
    ghost powers: { Powers Self.Seen };

    /// That both are one host, whatever world it has.
    ghost same: { Self → Self → Type 0 };

    /// The player.
    fn player(&self) -> Dbref
        ensures { result ≡ powers.player (seen self.now) };

    /// The player's place.
    fn here(&self) -> Dbref
        ensures { result ≡ powers.place (seen self.now) };

    /// The next random word.
    fn random(&mut self) -> u32
        ensures word { result ≡ (powers.draws (seen self.old)).0 }
        ensures next { seen self.new ≡ (powers.draws (seen self.old)).1 }
        ensures same { same self.old self.new };

    /// The most commands that a text may have.
    fn most_commands(&self) -> u32
        ensures { result ≡ powers.most (seen self.now) };

    /// What a text names for the player; `None` where it names nothing or several objects. It takes no memory.
    fn find(&self, text: &Line) -> Option<Dbref>
        ensures { result ≡ powers.finds text.now (seen self.now) };

    /// The answer to a question.
    fn tells(&self, alloc: Global, ask: &Ask) -> Result<Line, MpiFault>
        ensures { Means (powers.tells ask.now (seen self.now)) result };

    /// Does a deed; after a fault the world is as the powers say.
    fn does(&mut self, alloc: Global, deed: &Deed) -> Result<(), MpiFault>
        ensures does { Meant (powers.does deed.now (seen self.old)) (seen self.new) result }
        ensures same { same self.old self.new };

    ghost same_self: { (x : Self) → same x x };

    ghost same_both: { (x y z : Self) → same x y → same y z → same x z };
}
