// The stack of values.
ghost use Rattle.std.specs.Prelude.{◌↔◌, IsTrue, ◌≡◌, ◌+◌, ◌-◌, ◌<◌, ◌≤◌, [], ◌∷◌, ◌++◌, length, take, drop, reverse, map, Some, IfNone, MatchResult, MatchOption, slice_get, slice_set, option_copied, option_to_list};
ghost use Rattle.muf_model.specs.declared.fault.MufFault.TheVariants.{StackFull};
ghost use Rattle.muf_model.specs.Answer.{too_few, items_put, makes};
ghost use Rattle.muf_model.specs.inner.View.{view};
ghost use Rattle.muf_frame.specs.inner.Answers.{Answered};
ghost use Rattle.muf_frame.specs.inner.Shown.{Shown, flat, locked_by};

use crate::Frame;
use muf_model::{MufFault, STACK_MOST, Value};

// Reverses the items from a place on.
fn reverse_from(items: &mut [Value], at: usize)
    requires { at ≤ length items.old }
    ensures value { items.new ≡ take at items.old ++ reverse (drop at items.old) }
    ensures len { length items.new ≡ length items.old }
{
    let (_, last) = items.split_at_mut(at);
    last.reverse();
}

impl Frame {
    /// The count of all items.
    #[inline(always)]
    pub fn len(&self) -> usize
        ensures value { result ≡ length self.now.stack }
        ensures most { result ≤ 1024 }
    {
        self.stack.len()
    }

    /// Whether there is no item at all.
    pub fn is_empty(&self) -> bool
        ensures { IsTrue result ↔ (self.now.stack ≡ []) }
    {
        self.stack.is_empty()
    }

    /// How many items at the bottom the nearest TRY locks; 0 without one.
    pub fn locked(&self) -> usize
        ensures value { result ≡ locked_by (flat self.now).marks }
        ensures most { result < 1024 }
    {
        self.locked
    }

    /// The count of the items above the locked part.
    pub fn depth(&self) -> usize
        ensures value { result ≡ length self.now.stack - locked_by (flat self.now).marks }
        ensures most { result ≤ 1024 }
    {
        self.stack.len().saturating_sub(self.locked)
    }

    /// Refused where fewer items stand above the locked part: `StackLocked` where the whole stack has enough of them,
    /// else `StackEmpty`.
    #[inline(always)]
    pub fn need(&self, count: usize) -> Result<(), MufFault>
        ensures { MatchResult result (λ _. locked_by (flat self.now).marks + count ≤ length self.now.stack) (λ f. (length self.now.stack < locked_by (flat self.now).marks + count) × (f ≡ too_few count (flat self.now).stack)) }
    {
        if self.stack.len() < count {
            Err(MufFault::StackEmpty)
        } else if self.stack.len() < self.locked + count {
            Err(MufFault::StackLocked)
        } else {
            Ok(())
        }
    }

    /// The item at this depth below the top, from 0; `None` exactly where there are no more.
    #[inline(always)]
    pub fn peek(&self, depth: usize) -> Option<&Value>
        ensures { option_copied result ≡ slice_get self.now.stack depth }
    {
        if depth < self.stack.len() {
            Some(&self.stack[self.stack.len() - 1 - depth])
        } else {
            None
        }
    }

    /// Puts an item on the top, where there is room. Takes no memory.
    #[inline(always)]
    pub fn push_item(&mut self, item: Value)
        requires { length self.old.stack < 1024 }
        ensures { self.new ≡ record self.old { stack = item ∷ self.old.stack } }
    {
        self.stack.push_reserved(item);
    }

    /// Takes the top item, locked or not; `None` exactly where there is none.
    #[inline(always)]
    pub fn pop_item(&mut self) -> Option<Value>
        ensures some { self.old ≡ record self.new { stack = option_to_list result ++ self.new.stack } }
        ensures none { IfNone result (self.old.stack ≡ []) }
        ensures room { length self.new.stack < 1024 }
    {
        self.stack.pop()
    }

    /// Puts an item on the top: `StackFull` exactly where the stack is full, and then it is unchanged. Takes no
    /// memory.
    #[inline(always)]
    pub fn push(&mut self, item: Value) -> Result<(), MufFault>
        ensures { MatchResult result (λ _. (length self.old.stack < 1024) × (self.new ≡ record self.old { stack = item ∷ self.old.stack })) (λ f. (length self.old.stack ≡ 1024) × (f ≡ StackFull) × (self.new ≡ self.old)) }
    {
        if self.stack.len() < STACK_MOST {
            self.push_item(item);
            Ok(())
        } else {
            Err(MufFault::StackFull)
        }
    }

    /// Takes the top item: `StackEmpty` exactly where there is none, `StackLocked` exactly where it is locked, and
    /// then the frame is unchanged. Takes no memory.
    #[inline(always)]
    pub fn pop(&mut self) -> Result<Value, MufFault>
        ensures { MatchResult result (λ v. (locked_by (flat self.old).marks < length self.old.stack) × (self.old ≡ record self.new { stack = v ∷ self.new.stack })) (λ f. (length self.old.stack ≤ locked_by (flat self.old).marks) × (f ≡ too_few 1 (flat self.old).stack) × (self.new ≡ self.old)) }
    {
        self.need(1)?;
        match self.pop_item() {
            Some(item) => Ok(item),
            None => Err(MufFault::StackEmpty),
        }
    }

    /// Drops the items above so many at the bottom.
    pub fn cut(&mut self, height: usize)
        ensures value { self.new ≡ record self.old { stack = drop (length self.old.stack - height) self.old.stack } }
        ensures most { length self.new.stack ≤ height }
    {
        self.stack.truncate(height);
    }

    /// Drops so many items from the top, which are there.
    pub fn drop_items(&mut self, count: usize)
        requires { count ≤ length self.old.stack }
        ensures value { self.new ≡ record self.old { stack = drop count self.old.stack } }
        ensures most { length self.new.stack + count ≤ 1024 }
    {
        let height = self.len() - count;
        self.stack.truncate(height);
    }

    /// So many items at the top, which are there, give way to one: `StackFull` where the stack is full and none are taken,
    /// and then it is unchanged. Takes no memory.
    #[tactic(auto, using(crate::proofs::Data::give_steps))]
    #[inline(always)]
    pub fn give(&mut self, taken: usize, item: Value) -> Result<(), MufFault>
        requires { taken ≤ length self.old.stack }
        ensures { Answered (items_put taken (makes (view item ∷ [])) (drop taken (flat self.old).stack)) self.old self.new result }
    {
        if taken == 0 {
            return self.push(item);
        }
        self.drop_items(taken);
        self.push_item(item);
        Ok(())
    }

    /// Takes the item at this depth below the top, which is there.
    pub fn take_item(&mut self, depth: usize) -> Value
        requires { depth < length self.old.stack }
        ensures item { slice_get self.old.stack depth ≡ Some result }
        ensures rest { self.new ≡ record self.old { stack = take depth self.old.stack ++ drop (depth + 1) self.old.stack } }
        ensures room { length self.new.stack < 1024 }
    {
        let at = self.len() - 1 - depth;
        self.stack.remove(at)
    }

    /// Puts an item below so many others at the top, where there is room. Takes no memory.
    pub fn put_item(&mut self, depth: usize, item: Value)
        requires within { depth ≤ length self.old.stack }
        requires room { length self.old.stack < 1024 }
        ensures { self.new ≡ record self.old { stack = take depth self.old.stack ++ (item ∷ drop depth self.old.stack) } }
    {
        let at = self.len() - depth;
        match self.stack.insert(at, item) {
            Ok(()) => {}
            Err(_) => unreachable!(),
        }
    }

    #[tactic(auto, using(muck_laws::proofs::Places::replaced))]
    /// Replaces the item at this depth below the top, which is there.
    pub fn set_item(&mut self, depth: usize, item: Value)
        requires { depth < length self.old.stack }
        ensures { self.new ≡ record self.old { stack = slice_set self.old.stack depth item } }
    {
        let _replaced = self.take_item(depth);
        self.put_item(depth, item);
    }

    /// Reverses so many items at the top, which are there.
    pub fn reverse_items(&mut self, count: usize)
        requires { count ≤ length self.old.stack }
        ensures { self.new ≡ record self.old { stack = reverse (take count self.old.stack) ++ drop count self.old.stack } }
    {
        let at = self.len() - count;
        reverse_from(self.stack.as_mut_slice(), at);
    }
}
