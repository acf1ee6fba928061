// A state of which two threads make entries.
ghost use Rattle.std.specs.Prelude.{◌≡◌, ◌++◌, ◌∷◌, [], IfOk, true};
ghost use Rattle.muck_model.specs.declared.event.Event.{Event};

use muck_model::{Entry, Event, NoMemory, Tale};
use std::alloc::Global;
use turn_lock::Story;

/// How many entries each party made, and their tale.
#[derive(Drop)]
pub struct Book {
    tale: Tale,
    pub first: u64,
    pub second: u64,
    ghost grows: { tale.open_ended ≡ true },
}

impl Book {
    /// No entry.
    pub fn new(alloc: Global) -> Result<Book, NoMemory>
        ensures { IfOk result (λ book. book.tale.entries ≡ []) }
    {
        let tale = Tale::new(alloc)?;
        Ok(Book {
            tale,
            first: 0,
            second: 0,
        })
    }
}

impl Story for Book {
    type Entry = Entry;

    type Start = ();

    ghost start = { λ _. tt };

    ghost history = { λ book. book.tale.entries };

    ghost party = { λ entry. entry.party };

    ghost allowed = { λ _. Unit {0} };
}

/// An entry of this party more.
pub fn enter(book: &mut Book, party: u8)
    ensures { book.new.tale.entries ≡ book.old.tale.entries ++ record { party = party; event = Event.Died } ∷ [] }
{
    let Book {
        tale,
        first,
        second,
    } = book;
    tale.tell(&Entry {
        party,
        event: Event::Died,
    });
    if party == 1 {
        *first = first.saturating_add(1);
    } else {
        *second = second.saturating_add(1);
    }
}
