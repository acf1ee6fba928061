// What tells the time.
ghost use Rattle.std.specs.Prelude.{◌≡◌, Option, List, ℕ, Some, drop};
ghost use Rattle.muck_io.specs.inner.Clock.{Answers};

use std::marker::Model;

/// What tells the time in seconds. It can't fail, and may go back.
pub trait Clock {
    /// The answers that it is going to give, the last of them again and again, where it tells them.
    ghost answers: { Self → Option (List ℕ) };

    /// The time now, in seconds.
    fn now(&mut self) -> u64
        ensures { Answers (answers self.old) (answers self.new) result };
}

/// A clock that gives listed answers. Once its list is over it repeats the last one, or 0 where there
/// was none. Contracts see it as the answers that it still has.
#[derive(Drop)]
pub struct ListClock {
    answers: Vec<u64>,
    at: usize,
}

impl Model for ListClock {
    ghost use Rattle.std.specs.Prelude.{List, ℕ, drop, length, ◌≤◌};

    ghost Value = { List ℕ };

    ghost view = { λ c. drop c.at c.answers.items };

    ghost invariant = { λ c. c.at ≤ length c.answers.items };
}

impl ListClock {
    /// A clock that gives these answers, in order.
    pub fn new(answers: Vec<u64>) -> Self
        ensures { result ≡ answers.items }
    {
        ListClock { answers, at: 0 }
    }
}

impl Clock for ListClock {
    ghost answers = { λ c. Some c };

    fn now(&mut self) -> u64 {
        let coming = self.answers.split_at(self.at).1;
        let answer = coming.first().copied().unwrap_or(0);
        if coming.len() > 1 {
            self.at += 1;
        }
        answer
    }
}
