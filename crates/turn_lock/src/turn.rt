// The lock.
ghost use Rattle.std.specs.Prelude.{◌≡◌, ◌++◌, ◌≤◌, ◌<◌, ◌^◌, ◌+◌, ◌⊎◌, ℕ, List, [], ◌∷◌, IfOk, OnOk, OnErr, IfErr, length, Some};
ghost use lib.ListN.{get_elem?};
ghost use mathlib.Core.Option.{some};
ghost use Rattle.turn_lock.specs.Histories.{StartsWith, own_of, AllOf, Has, IsKnown};
ghost use Rattle.turn_lock.specs.inner.Turns.{Same, left_after, newcomer, taken_in};
ghost use Rattle.turn_lock.specs.declared.view.Taken.{Taken};
ghost use Rattle.turn_lock.specs.declared.view.Place.TheVariants.{Idle as AtRest, Holds as HasTurn, Waits as Wanted, Told as Done};

use crate::Story;
use crate::view::{Draw, First, ForParty, Law, Look, PartyNamed, Pass, TakesIn, TurnSeat, View};
use atomic_table::Table;
use muck_io::Rest;
use std::alloc::{AllocError, Global};
use std::marker::Brand;
use std::sync::Wait;

// How many turns there are.
const MOST: u64 = 1 << 62;

/// The lock: a table of two words, the next ticket and the ticket that is served, and a slot with the state.
pub struct Turn<T: Story> {
    table: Table<Option<T>, View<T::Entry, T::Start>, First<T>, Law<T>, Global>,
    pub ghost sized: { (table.shared.table_id.words ≡ 2) × (table.shared.table_id.slots ≡ 1) },
}

/// The state, with the turn. It has to be given back.
pub struct Held<T> {
    /// The state.
    pub state: T,
}

/// All turns are spent.
#[derive(Drop)]
pub struct Spent {
    /// How many there were: 2^62.
    pub turns: u64,
}

impl<T: Story> Turn<T> {
    /// Waits for the turn. `Spent` comes exactly where 2^62 turns were had; then the seat may only be taken in, or close the lock.
    /// It takes no memory.
    pub fn hold<W: Wait, R: Rest>(
        &self,
        rt: &W,
        seat: &mut TurnSeat<T>,
        rest: &R,
    ) -> Result<Held<T>, Spent>
        requires own { (seat.old.table_id ≡ self.now.table.shared.table_id) × (seat.old.me.1 ≡ []) }
        requires idle { seat.old.me.0.place ≡ AtRest }
        ensures own { (seat.new.table_id ≡ seat.old.table_id) × (seat.new.id ≡ seat.old.id) }
        ensures kept { Same T.history T.party T.start seat.old.me seat.new.me }

        // It has the turn of a number below 2^62, has seen the whole history, and knows which entries are its own.
        ensures turn { OnOk result ((n : ℕ) × (seat.new.me.0.place ≡ HasTurn n) × (length seat.new.me.0.seen ≡ n) × (n < 2 ^ 62)) }
        ensures state { IfOk result (λ held. (T.history held.state ≡ seat.new.me.0.seen) × (T.start held.state ∷ [] ≡ seat.new.me.0.root)) }
        ensures mine { OnOk result (seat.new.me.0.own ≡ own_of T.party seat.new.me.0.party seat.new.me.0.seen) }
        ensures out { OnOk result (seat.new.me.1 ≡ (0, None) ∷ []) }

        // What was seen is allowed.
        ensures allowed { AllOf T.allowed seat.new.me.0.seen }

        // All turns were had by then.
        ensures spent { IfErr result (λ spent. (spent.turns ≡ 2 ^ 62) × (2 ^ 62 ≤ length seat.new.me.0.seen)) }
        ensures told { OnErr result ((seat.new.me.0.place ≡ Done) × (seat.new.me.1 ≡ [])) }
    {
        let table = &self.table;
        let ticket = table.shared.fetch_add::<Draw<T>>(seat, 0, 1);
        if ticket >= MOST {
            self.wait_spent(rt, seat, rest);
            return Err(Spent { turns: MOST });
        }
        self.wait_turn(rt, seat, rest, ticket);
        let found = table.shared.exchange(seat, 0, None);
        let Some(state) = found else { unreachable!() };
        Ok(Held { state })
    }

    // Looks until the ticket is served.
    fn wait_turn<W: Wait, R: Rest>(&self, rt: &W, seat: &mut TurnSeat<T>, rest: &R, ticket: u64)
        requires own { (seat.old.table_id ≡ self.now.table.shared.table_id) × (seat.old.me.1 ≡ []) }
        requires drawn { seat.old.me.0.place ≡ Wanted ticket }
        ensures own { (seat.new.table_id ≡ seat.old.table_id) × (seat.new.id ≡ seat.old.id) × Same T.history T.party T.start seat.old.me seat.new.me }
        ensures counted { length seat.new.me.0.seen ≡ ticket }
        ensures allowed { AllOf T.allowed seat.new.me.0.seen }
        ensures turn { (seat.new.me.0.place ≡ HasTurn ticket) × ((x : T) × (seat.new.me.1 ≡ (0, Some x) ∷ []) × (T.history x ≡ seat.new.me.0.seen) × (T.start x ∷ [] ≡ seat.new.me.0.root)) × (seat.new.me.0.own ≡ own_of T.party seat.new.me.0.party seat.new.me.0.seen) }
    {
        let table = &self.table;
        for _ in rt.forever() {
            if table.shared.load::<Look<T>>(seat, 1) == ticket {
                return;
            }
            rest.pause(ticket);
        }
        unreachable!()
    }

    // Looks until all turns were had.
    fn wait_spent<W: Wait, R: Rest>(&self, rt: &W, seat: &mut TurnSeat<T>, rest: &R)
        requires own { seat.old.table_id ≡ self.now.table.shared.table_id }
        requires told { seat.old.me.0.place ≡ Done }
        ensures own { (seat.new.table_id ≡ seat.old.table_id) × (seat.new.id ≡ seat.old.id) × Same T.history T.party T.start seat.old.me seat.new.me }
        ensures spent { 2 ^ 62 ≤ length seat.new.me.0.seen }
        ensures allowed { AllOf T.allowed seat.new.me.0.seen }
        ensures told { (seat.new.me.0.place ≡ Done) × (seat.new.me.1 ≡ seat.old.me.1) }
    {
        let table = &self.table;
        for _ in rt.forever() {
            if table.shared.load::<Look<T>>(seat, 1) >= MOST {
                return;
            }
            rest.pause(MOST);
        }
        unreachable!()
    }

    /// Gives the turn back, with the state one entry of this party further, and tells who waits. It takes no memory.
    pub fn give<R: Rest>(&self, seat: &mut TurnSeat<T>, held: Held<T>, rest: &R)
        requires own { (seat.old.table_id ≡ self.now.table.shared.table_id) × (seat.old.me.1 ≡ (0, None) ∷ []) }
        requires turn { (n : ℕ) × (seat.old.me.0.place ≡ HasTurn n) }
        requires entry { (e : T.Entry) × (T.history held.state ≡ seat.old.me.0.seen ++ e ∷ []) × (T.party e ≡ seat.old.me.0.party) × T.allowed e }
        requires start { T.start held.state ∷ [] ≡ seat.old.me.0.root }
        ensures own { (seat.new.table_id ≡ seat.old.table_id) × (seat.new.id ≡ seat.old.id) × (seat.new.me.1 ≡ []) }
        ensures idle { seat.new.me.0.place ≡ AtRest }
        ensures seen { seat.new.me.0.seen ≡ T.history held.state }
        ensures same { (seat.new.me.0.party ≡ seat.old.me.0.party) × (seat.new.me.0.root ≡ seat.old.me.0.root) × (seat.new.me.0.given ≡ seat.old.me.0.given) × (seat.new.me.0.joined ≡ seat.old.me.0.joined) }
        ensures mine { (e : T.Entry) → T.history held.state ≡ seat.old.me.0.seen ++ e ∷ [] → T.party e ≡ seat.old.me.0.party → T.allowed e → seat.new.me.0.own ≡ seat.old.me.0.own ++ e ∷ [] }
    {
        let Held { state } = held;
        let before = self.table.shared.exchange(seat, 0, Some(state));
        let None = before else { unreachable!() };
        let turn = self.table.shared.fetch_add::<Pass<T>>(seat, 1, 1);
        rest.passed(turn);
    }

    /// A lock round a state without a history yet, and the seat of party 0. After a refusal of memory the state is dropped.
    pub fn new(alloc: Global, start: T) -> Result<(Turn<T>, TurnSeat<T>), AllocError>
    where
        T: Drop,
        requires { T.history start ≡ [] }
        ensures seat { IfOk result (λ r. (r.1.table_id ≡ r.0.table.shared.table_id) × (r.1.id ≡ 0) × (r.1.me.1 ≡ [])) }
        ensures party { IfOk result (λ r. (r.1.me.0.party ≡ 0) × (r.1.me.0.place ≡ AtRest)) }
        ensures history { IfOk result (λ r. (r.1.me.0.seen ≡ []) × (r.1.me.0.own ≡ []) × (r.1.me.0.root ≡ T.start start ∷ [])) }
        ensures alone { IfOk result (λ r. (r.1.me.0.given ≡ []) × (r.1.me.0.joined ≡ [])) }
    {
        let (first, _) = Table::of_words(alloc, &[0], &start)?;
        let mut slots = Vec::new(alloc);
        slots.push(Some(start))?;
        let Ok((table, seat)) = Table::new(alloc, &[0, 0], slots, &first) else {
            return Err(AllocError);
        };
        Ok((Turn { table }, seat))
    }

    // The same for a party that N names.
    fn split_as<N: PartyNamed>(&self, seat: &mut TurnSeat<T>, _party: u8) -> TurnSeat<T>
        requires named { N.party ≡ _party }
        requires own { (seat.old.table_id ≡ self.now.table.shared.table_id) × (seat.old.id ≡ 0) }
        requires idle { (seat.old.me.0.place ≡ AtRest) × (length seat.old.me.0.given < 9) }
        requires fresh { ¬ (_party ≡ 0) × ¬ (Has seat.old.me.0.given _party) }
        ensures own { (seat.new.table_id ≡ seat.old.table_id) × (seat.new.id ≡ 0) × (result.table_id ≡ seat.old.table_id) }
        ensures first { seat.new.me ≡ (left_after _party seat.old.me.0, seat.old.me.1) }
        ensures second { result.me ≡ (newcomer _party seat.old.me.0, []) }
    {
        self.table.shared.split_seat::<ForParty<N>>(seat)
    }

    /// A seat for a party that has none yet, which has seen what the first seat has. There are at most ten seats. It takes no memory.
    pub fn split(&self, seat: &mut TurnSeat<T>, party: u8) -> TurnSeat<T>
        requires own { (seat.old.table_id ≡ self.now.table.shared.table_id) × (seat.old.id ≡ 0) }
        requires idle { (seat.old.me.0.place ≡ AtRest) × (length seat.old.me.0.given < 9) }
        requires fresh { ¬ (party ≡ 0) × ¬ (Has seat.old.me.0.given party) }
        ensures own { (seat.new.table_id ≡ seat.old.table_id) × (seat.new.id ≡ 0) × (result.table_id ≡ seat.old.table_id) }
        ensures first { seat.new.me ≡ (left_after party seat.old.me.0, seat.old.me.1) }
        ensures second { result.me ≡ (newcomer party seat.old.me.0, []) }
    {
        self.split_as::<Brand>(seat, party)
    }

    /// Takes a seat in: its party's entries are kept under its party. It takes no memory.
    pub fn join(&self, seat: &mut TurnSeat<T>, other: TurnSeat<T>)
        requires own { (seat.old.table_id ≡ self.now.table.shared.table_id) × (seat.old.id ≡ 0) × ((seat.old.me.0.place ≡ AtRest) ⊎ (seat.old.me.0.place ≡ Done)) }
        requires other { (other.table_id ≡ self.now.table.shared.table_id) × (other.me.1 ≡ []) }
        requires done { (other.me.0.place ≡ AtRest) ⊎ (other.me.0.place ≡ Done) }
        ensures own { (seat.new.table_id ≡ seat.old.table_id) × (seat.new.id ≡ 0) }
        ensures taken { seat.new.me ≡ (taken_in seat.old.me.0 other.me.0, seat.old.me.1) }
    {
        self.table.shared.join_seat::<TakesIn>(seat, other);
    }

    /// The state with the whole history, once all seats were taken in. It takes no memory.
    pub fn close(self, seat: TurnSeat<T>) -> T
        requires own { (seat.table_id ≡ self.table.shared.table_id) × (seat.id ≡ 0) × ((seat.me.0.place ≡ AtRest) ⊎ (seat.me.0.place ≡ Done)) }
        requires all { length seat.me.0.joined ≡ length seat.me.0.given }
        ensures seen { StartsWith (T.history result) seat.me.0.seen }
        ensures start { T.start result ∷ [] ≡ seat.me.0.root }
        ensures own { seat.me.0.own ≡ own_of T.party seat.me.0.party (T.history result) }
        ensures joined { (i : ℕ) (x : Taken T.Entry) → get_elem? seat.me.0.joined i ≡ some x → Has seat.me.0.given x.party × (x.own ≡ own_of T.party x.party (T.history result)) × StartsWith (T.history result) x.seen }
        ensures known { (i : ℕ) (e : T.Entry) → get_elem? (T.history result) i ≡ some e → IsKnown seat.me.0.given (T.party e) }
        ensures allowed { AllOf T.allowed (T.history result) }
    {
        let Turn { table } = self;
        let mut closed = table.close_with(seat);
        let slot = closed.take(0);
        closed.free();
        let Some(state) = slot else { unreachable!() };
        state
    }
}
