// What seats know, and what each atomic step makes of it.

use crate::Story;
use atomic_table::{Join, Play, Seat, Split, Table, TableRule};
use std::alloc::Global;
use std::collections::LinkedList;
use std::marker::{Brand, PhantomData};

/// The rule that allows everything.
pub struct Free;

impl<T> TableRule<u64, (), T> for Free {
    ghost holds = { λ _ _. Unit {0} };

    ghost first = { λ _. tt };
}

/// The state with which a lock began, for contracts alone: the key of a table of one word.
pub type First<T> = Table<u64, (), T, Free, Global>;

/// How a seat stands to the turn.
pub enum Place {
    /// It hasn't asked for a turn.
    Idle,
    /// It waits for the turn of this number.
    Waits(u64),
    /// It has the turn of this number.
    Holds(u64),
    /// It was told that all turns are spent.
    Told,
    /// It was taken in by another seat.
    Gone,
}

/// What is kept of a seat that was taken in. No value of it is ever made.
pub struct Taken<E> {
    /// Whose seat it was.
    pub party: u8,
    /// Its party's own entries.
    pub own: LinkedList<E>,
    /// The history, as far as it had seen it.
    pub seen: LinkedList<E>,
}

/// What a seat knows. No value of it is ever made.
pub struct View<E, B> {
    /// Whose seat it is.
    pub party: u8,
    /// How the first state began, as a list of one; nothing where the seat was taken in.
    pub root: LinkedList<B>,
    /// How it stands to the turn.
    pub place: Place,
    /// The history, as far as it has seen it.
    pub seen: LinkedList<E>,
    /// Its party's own entries.
    pub own: LinkedList<E>,
    /// The parties that were given seats. Only the first seat has any.
    pub given: LinkedList<u8>,
    /// The seats that were taken in. Only the first seat has any.
    pub joined: LinkedList<Taken<E>>,
}

/// What holds of the lock between any two steps: the words are the next ticket and the ticket that is served, and the slot has the
/// state with its history, unless it is out with the seat that has the turn.
pub struct Law<T> {
    of: PhantomData<T>,
}

impl<T: Story> TableRule<Option<T>, View<T::Entry, T::Start>, First<T>> for Law<T> {
    ghost use Rattle.std.specs.Prelude.{[], ◌∷◌};
    ghost use Rattle.turn_lock.specs.inner.Turns.{Kept};
    ghost use Rattle.turn_lock.specs.declared.view.Place.TheVariants.{Idle};

    ghost holds = { λ _. Kept T.history T.party T.start T.allowed };

    ghost first = { λ k. record { party = 0; root = T.start k.shared.key ∷ []; place = Idle; seen = []; own = []; given = []; joined = [] } };
}

// A ticket is drawn.
pub(crate) struct Draw<T> {
    of: PhantomData<T>,
}

impl<T: Story> Play<Option<T>, View<T::Entry, T::Start>> for Draw<T> {
    ghost use Rattle.turn_lock.specs.inner.Turns.{drew};

    ghost then = { drew T.history T.party T.start };
}

// A look at the ticket that is served.
pub(crate) struct Look<T> {
    of: PhantomData<T>,
}

impl<T: Story> Play<Option<T>, View<T::Entry, T::Start>> for Look<T> {
    ghost use Rattle.turn_lock.specs.inner.Turns.{looked};

    ghost then = { looked T.history T.party T.start T.allowed };
}

// The turn is passed on.
pub(crate) struct Pass<T> {
    of: PhantomData<T>,
}

impl<T: Story> Play<Option<T>, View<T::Entry, T::Start>> for Pass<T> {
    ghost use Rattle.turn_lock.specs.inner.Turns.{passed};

    ghost then = { passed T.history T.party T.start T.allowed };
}

// Names a party, for contracts alone.
pub(crate) trait PartyNamed {
    ghost use Rattle.std.specs.Prelude.{ℕ};

    ghost party: { ℕ };
}

impl PartyNamed for Brand {
    ghost party = { 0 };
}

// A seat is given to a party.
pub(crate) struct ForParty<N> {
    of: PhantomData<N>,
}

impl<N: PartyNamed, E, B> Split<View<E, B>> for ForParty<N> {
    ghost use Rattle.turn_lock.specs.inner.Turns.{left_after, newcomer};

    ghost left = { left_after N.party };

    ghost right = { newcomer N.party };
}

// A seat is taken in.
pub(crate) struct TakesIn;

impl<E, B> Join<View<E, B>> for TakesIn {
    ghost use Rattle.turn_lock.specs.inner.Turns.{taken_in, spent_view};

    ghost both = { taken_in };

    ghost spent = { spent_view };
}

/// A seat of a lock: what a party of it has to show.
pub type TurnSeat<T> = Seat<Option<T>, View<<T as Story>::Entry, <T as Story>::Start>>;
