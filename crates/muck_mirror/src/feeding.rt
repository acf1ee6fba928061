// Feeding a mirror.
ghost use Rattle.std.specs.Prelude.{◌≡◌, ◌≤◌, length, drop, IfOk, OnOk, OnErr};
ghost use Rattle.muck_mirror.specs.Laying.{IsSound, laid_in};
ghost use Rattle.muck_mirror.specs.Bodies.{fed_body_in};
ghost use Rattle.muck_mirror.specs.Mirrors.{ahead, is_body_kept, bodies_kept_with, bodies_followed, fed, next_fed};
ghost use Rattle.muck_mirror.specs.inner.Feeding.{IsBodyRead, ComesTo, IsPlace};

use crate::World;
use crate::body::head_at;
use crate::mirror::{Fed, Mirror, Waiting};
use muck_codec::{CodecFault, take_batch};
use muck_model::NoMemory;
use std::alloc::Global;

/// The most bodies that are kept.
const KEPT_MOST: usize = 64;

// The number of a body that was read, and the bytes of its batch; or the place of the first byte that no body continues.
enum Reading<'a> {
    Body(u64, &'a [u8]),
    Strange(usize),
}

#[tactic(auto, unfolding(crate::specs::Bodies::fed_body_in))]
fn read_body<'a>(alloc: Global, generation: u64, bytes: &'a [u8]) -> Result<Reading<'a>, NoMemory>
    ensures { IfOk result (λ read. IsBodyRead read (fed_body_in generation bytes.now)) }
{
    let (head, rest) = match head_at(generation, bytes) {
        Ok(found) => found,
        Err(left) => return Ok(Reading::Strange(bytes.len().saturating_sub(left))),
    };
    let before = bytes.len().saturating_sub(rest.len());
    match take_batch(alloc, head.version, rest) {
        Ok(_) => Ok(Reading::Body(head.number, rest)),
        Err(CodecFault::BadRecord { at }) => Ok(Reading::Strange(before.saturating_add(at))),
        Err(CodecFault::NoMemory) => Err(NoMemory),
    }
}

#[tactic(auto, unfolding(crate::specs::Mirrors::ahead))]
fn ahead(next: u64, number: u64) -> u64
    ensures { result ≡ ahead next number }
{
    number.wrapping_sub(next)
}

fn is_kept(number: u64, kept: &[Waiting]) -> bool
    ensures { result ≡ is_body_kept number kept.now }
{
    kept.iter().any(|k| k.number == number)
}

// The number that is next once kept bodies were laid over a world, and how many of them are gone then.
#[derive(Clone, Copy, Drop)]
pub struct Come {
    next: u64,
    gone: usize,
}

// Lays kept bodies that follow over a world, as long as they are next. Where memory is wanted it is as it was.
#[tactic(auto, unfolding(crate::specs::Mirrors::bodies_followed, muck_log::specs::File::after_number))]
fn follow(world: &mut World, kept: &[Waiting], next: u64) -> Result<Come, NoMemory>
    requires sound { IsSound world.old }
    ensures come { IfOk result (λ c. ComesTo c kept.now (bodies_followed kept.now next world.old) world.new) }
    ensures unchanged { OnErr result (world.new ≡ world.old) }
    ensures sound { OnOk result (IsSound world.new) }
{
    let [first, rest @ ..] = kept else {
        return Ok(Come { next, gone: 0 });
    };
    if first.number != next {
        return Ok(Come { next, gone: 0 });
    }
    let Some(undo) = world.lay(&first.payload)? else {
        return Ok(Come { next, gone: 1 });
    };
    match follow(world, rest, next.wrapping_add(1)) {
        Ok(come) => Ok(Come {
            next: come.next,
            gone: come.gone + 1,
        }),
        Err(fault) => {
            world.undo(undo);
            Err(fault)
        }
    }
}

// Where a body stands among those that are kept.
fn place_of(kept: &[Waiting], next: u64, number: u64) -> usize
    ensures within { result ≤ length kept.now }
    ensures place { IsPlace kept.now next number result }
{
    let far = ahead(next, number);
    let mut at = 0;
    for k in kept {
        if ahead(next, k.number) >= far {
            return at;
        }
        at += 1;
    }
    at
}

fn forget(kept: &mut Vec<Waiting>, gone: usize)
    requires { gone ≤ length kept.old.items }
    ensures { kept.new.items ≡ drop gone kept.old.items }
{
    kept.rotate_left(gone);
    let left = kept.len() - gone;
    kept.truncate(left);
}

impl Mirror {
    /// Feeds it the bytes of a body. `Strange` comes exactly where they are none of the grammar and of this generation, with the
    /// place of the first byte that no such body continues; or where it is next and doesn't leave a consistent world with every
    /// value within its limits, with 0. Else `Known` comes exactly where its number was applied or is kept; `Applied` where it is
    /// next; `Full` where it is neither and 64 bodies are kept; and `Early` in all other cases.
    ///
    /// Nothing changes but on `Applied` and `Early`, nor where memory is wanted.
    #[tactic(auto, unfolding(crate::specs::Mirrors::fed))]
    pub fn feed(&mut self, body: &[u8]) -> Result<Fed, NoMemory>
        ensures fed { IfOk result (λ answer. (answer, self.new) ≡ fed self.old body.now) }
        ensures unchanged { OnErr result (self.new ≡ self.old) }
    {
        let (number, payload) = match read_body(self.alloc, self.generation, body)? {
            Reading::Body(number, payload) => (number, payload),
            Reading::Strange(at) => return Ok(Fed::Strange { at: at as u64 }),
        };
        let far = ahead(self.next, number);
        if far >= 1 << 63 || is_kept(number, &self.kept) {
            return Ok(Fed::Known);
        }
        if far == 0 {
            return self.apply(payload);
        }
        if self.kept.len() >= KEPT_MOST {
            return Ok(Fed::Full);
        }
        self.keep(number, payload)?;
        Ok(Fed::Early)
    }

    // The next batch, and those that follow it. Where memory is wanted all is as it was.
    #[tactic(auto, unfolding(muck_log::specs::File::after_number))]
    fn apply(&mut self, payload: &[u8]) -> Result<Fed, NoMemory>
        ensures fed { IfOk result (λ answer. (answer, self.new) ≡ next_fed self.old (laid_in 1 payload.now self.old.world)) }
        ensures unchanged { OnErr result (self.new ≡ self.old) }
    {
        let Some(undo) = self.world.lay(payload)? else {
            return Ok(Fed::Strange { at: 0 });
        };
        match follow(&mut self.world, &self.kept, self.next.wrapping_add(1)) {
            Ok(Come { next, gone }) => {
                self.next = next;
                forget(&mut self.kept, gone);
                Ok(Fed::Applied {
                    upto: next.wrapping_sub(1),
                })
            }
            Err(fault) => {
                self.world.undo(undo);
                Err(fault)
            }
        }
    }

    // One that is ahead.
    fn keep(&mut self, number: u64, payload: &[u8]) -> Result<(), NoMemory>
        ensures kept { OnOk result (self.new ≡ record self.old { kept = bodies_kept_with self.old.next (record { version = 1; number = number; payload = payload.now }) self.old.kept }) }
        ensures unchanged { OnErr result (self.new ≡ self.old) }
    {
        let payload = Vec::from_slice(self.alloc, payload)?;
        let at = place_of(&self.kept, self.next, number);
        self.kept.insert(at, Waiting { number, payload })?;
        Ok(())
    }
}
