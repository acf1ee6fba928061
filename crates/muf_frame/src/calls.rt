// What encloses the place.
ghost use Rattle.std.specs.Prelude.{◌≡◌, ◌+◌, ◌<◌, ◌≤◌, ◌++◌, [], ◌∷◌, length, map, drop, vec_len, vec_capacity, IfSome, MatchOption, option_copied, slice_get};
ghost use Rattle.muf_frame.specs.declared.mark.Mark.TheVariants.{Loop, Guard};
ghost use Rattle.muf_frame.specs.inner.Shown.{Shown, flat, locked_by, calls_by, opened_by, HeightFits, RoomAfter, left};
ghost use Rattle.muf_frame.specs.inner.Counting.{counting, with_next};

use crate::{Frame, Mark, Turns};

// One more mark, where there is room.
pub(crate) fn push_mark(marks: &mut Vec<Mark>, mark: Mark)
    requires { vec_len marks.old < vec_capacity marks.old }
    ensures items { marks.new.items ≡ marks.old.items ++ mark ∷ [] }
    ensures len { vec_len marks.new ≡ vec_len marks.old + 1 }
    ensures capacity { vec_capacity marks.old ≤ vec_capacity marks.new }
{
    marks.push_reserved(mark);
}

// A mark's next index, where it is a loop that counts.
#[inline(always)]
fn count_on(mark: &mut Mark, next: Option<i32>)
    ensures { mark.new ≡ counting next mark.old }
{
    if let Mark::Loop {
        turns: Turns::Indices { next: index, .. },
        ..
    } = mark
    {
        *index = next;
    }
}

impl Frame {
    /// How many calls run, beside the first word.
    pub fn calls(&self) -> usize
        ensures value { result ≡ calls_by (flat self.now).marks }
        ensures most { result ≤ 511 }
    {
        self.calls
    }

    /// How many loops and TRYs are open.
    pub fn opened(&self) -> usize
        ensures value { result ≡ opened_by (flat self.now).marks }
        ensures most { result ≤ 512 }
    {
        self.opened
    }

    /// The innermost mark.
    #[inline(always)]
    pub fn innermost(&self) -> Option<&Mark>
        ensures value { option_copied result ≡ slice_get self.now.marks 0 }
        ensures first { MatchOption result (self.now.marks ≡ []) (λ m. self.now.marks ≡ m.now ∷ drop 1 self.now.marks) }
    {
        if self.marks.is_empty() {
            None
        } else {
            Some(&self.marks[self.marks.len() - 1])
        }
    }

    /// Opens a loop, where there is room. Takes no memory.
    pub fn push_loop(&mut self, turns: Turns, again: usize, after: usize)
        requires { opened_by (flat self.old).marks < 512 }
        ensures { self.new ≡ record self.old { marks = Loop turns again after ∷ self.old.marks } }
    {
        push_mark(
            &mut self.marks,
            Mark::Loop {
                turns,
                again,
                after,
            },
        );
        self.opened += 1;
    }

    /// Opens a TRY that locks so many items, where there is room. Takes no memory.
    pub fn push_guard(&mut self, locked: usize, handler: usize)
        requires room { opened_by (flat self.old).marks < 512 }
        requires height { locked < 1024 }
        ensures { self.new ≡ record self.old { marks = Guard locked (locked_by (flat self.old).marks) handler ∷ self.old.marks } }
    {
        let outer = self.locked;
        push_mark(
            &mut self.marks,
            Mark::Guard {
                locked,
                outer,
                handler,
            },
        );
        self.opened += 1;
        self.locked = locked;
    }

    /// The innermost mark goes on at another index, where it is a loop that counts; else it stays as it is. Takes no
    /// memory.
    #[inline(always)]
    pub fn set_next(&mut self, next: Option<i32>)
        ensures { self.new ≡ record self.old { marks = with_next next self.old.marks } }
    {
        let count = self.marks.len();
        if count > 0 {
            count_on(&mut self.marks[count - 1], next);
        }
    }

    /// Leaves the innermost loop, TRY or call, `None` exactly where there is none. Behind a call the variables of the
    /// one before are back, and behind the call of a program that one runs again. The place stays. Takes no memory.
    pub fn pop_mark(&mut self) -> Option<Mark>
        ensures value { MatchOption result ((self.old.marks ≡ []) × (self.new ≡ self.old)) (λ m. (self.old.marks ≡ m ∷ self.new.marks) × (self.new ≡ left m self.new.marks self.old)) }
        ensures height { IfSome result HeightFits }
        ensures room { IfSome result (λ m. RoomAfter m (flat self.new).marks) }
    {
        let mark = self.marks.pop()?;
        match &mark {
            Mark::Loop { .. } => self.opened -= 1,
            Mark::Guard { outer, .. } => {
                self.opened -= 1;
                self.locked = *outer;
            }
            Mark::Back { base, .. } => {
                self.calls -= 1;
                self.variables.truncate(self.base);
                self.base = *base;
            }
            Mark::Leave { caller, base, .. } => {
                self.calls -= 1;
                self.variables.truncate(self.base);
                self.base = *base;
                self.program = *caller;
            }
        }
        Some(mark)
    }
}
