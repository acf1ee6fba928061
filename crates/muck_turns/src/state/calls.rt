// CALL.
ghost use Rattle.std.specs.Prelude.{◌≡◌, ◌≤◌, ◌&&◌, drop, length, IfOk, Some};
ghost use Rattle.std.specs.List.{position};
ghost use Rattle.std.specs.Option.{option_copied};
ghost use Rattle.std.specs.Str.{bytes_eq};
ghost use Rattle.muf_model.specs.inner.Decode.{tree_of};
ghost use Rattle.muf_running.specs.inner.Fitting.{IsAtPrimitive};
ghost use Rattle.spec_events.specs.Slices.{state_behind, called_word, form_called, is_offered, program_called};
ghost use Rattle.muck_library.specs.Library.{formed};
ghost use Rattle.prim_proc.specs.inner.Applied.{called_items};
ghost use Rattle.muck_turns.specs.inner.Deeds.{target, DoneAs, Enters, IsWord, MayEnter};

use crate::state::State;
use crate::state::deeds::{DeedFault, Done, behind};
use muck_model::{Dbref, NoMemory};
use muck_perm::MASTER;
use muf_model::{CALLS_MOST, Code, CodeWord, MufFault, Offer, Shared, Text};
use muf_running::Running;
use spec_rights::Actor;
use std::alloc::Global;

// What CALL finds on the stack: a program, the name of a word where there is one, and how many items that is.
#[derive(Drop)]
struct Request<'a> {
    program: Dbref,
    name: Option<&'a Text>,
    items: usize,
}

// A word that is to be entered, by its number among the words of its program.
#[derive(Drop)]
struct Entrance {
    program: Dbref,
    code: Shared<Code>,
    word: usize,
    items: usize,
}

impl State {
    /// CALL of a program, of its last word or of the word of a name: its items, which stand on the stack still, go once the word is
    /// entered.
    pub(crate) fn do_call(
        &mut self,
        actor: Actor,
        running: Running,
        program: Dbref,
        name: Option<Text>,
    ) -> Result<Done, NoMemory>
        requires at { IsAtPrimitive running.now }
        requires items { called_items name ≤ length running.stack }
        ensures { IfOk result (λ done. DoneAs (program_called actor (state_behind (drop (called_items name) running.stack) running) program.0 name self.old) running self.new done) }
    {
        match self.call(&actor, &running, program, name.as_ref()) {
            Ok(entrance) => {
                let next = enter(self.alloc, running, entrance)?;
                Ok(Done::Does(next))
            }
            Err(DeedFault::Fault(fault)) => Ok(Done::Fails(running, fault)),
            Err(DeedFault::NoMemory) => Err(NoMemory),
        }
    }

    // CALL of a program, or of its word of a name: the word that is to be entered.
    #[tactic(auto, using(crate::proofs::Processes::called_so))]
    fn call(
        &mut self,
        actor: &Actor,
        running: &Running,
        program: Dbref,
        name: Option<&Text>,
    ) -> Result<Entrance, DeedFault>
        requires { called_items (option_copied name) ≤ length running.now.stack }
        ensures { Enters (program_called actor.now (state_behind (drop (called_items (option_copied name.entry)) running.now.stack) running.now) program.0 (option_copied name.entry) self.old) running.now self.new result }
    {
        let asked = Request {
            program,
            name,
            items: called_items(name),
        };
        self.find_entrance(actor, running, asked)
    }

    // The word that is asked for, in the built form of its program, which is made where it isn't there yet.
    fn find_entrance(
        &mut self,
        actor: &Actor,
        running: &Running,
        asked: Request<'_>,
    ) -> Result<Entrance, DeedFault>
        requires { asked.items ≤ length running.now.stack }
        ensures { Enters (form_called actor.now (state_behind (drop asked.entry.items running.now.stack) running.now) asked.entry.program.0 (option_copied asked.entry.name) (formed self.old.live.objects asked.entry.program self.old.library) self.old) running.now self.new result }
    {
        let Request {
            program,
            name,
            items,
        } = asked;
        let Some(code) = self.library.formed(self.alloc, &self.db, program)? else {
            return Err(DeedFault::Fault(MufFault::NotCompiled));
        };
        let Some(word) = called_word(self.alloc, code.get(), name, actor)? else {
            return Err(DeedFault::Fault(MufFault::NotPublic));
        };
        if running.calls() + 1 >= CALLS_MOST {
            return Err(DeedFault::Fault(MufFault::CallsFull));
        }
        Ok(Entrance {
            program,
            code,
            word,
            items,
        })
    }
}

// How many items CALL takes: the program, and the name of a word where there is one.
fn called_items(name: Option<&Text>) -> usize
    ensures { result ≡ called_items (option_copied name.entry) }
{
    match name {
        Some(_) => 2,
        None => 1,
    }
}

// The number of the word that is called: of the last one, or of the first one of a name that is offered to the actor.
fn called_word(
    alloc: Global,
    code: &Code,
    name: Option<&Text>,
    actor: &Actor,
) -> Result<Option<usize>, NoMemory>
    ensures { IfOk result (λ at. IsWord (tree_of code.now).words (called_word actor.now (option_copied name.entry) (tree_of code.now)) at) }
{
    let words = code.words.as_slice();
    let Some(name) = name else {
        return Ok(words.len().checked_sub(1));
    };
    let lower = name.as_slice().to_ascii_lowercase(alloc)?;
    Ok(word_named(words, lower.as_slice(), actor))
}

// The place of the first word of that name that is offered to the actor.
fn word_named(words: &[CodeWord], name: &[u8], actor: &Actor) -> Option<usize>
    ensures { result ≡ position (λ w. bytes_eq w.name name.now && is_offered actor.now w.offer) words.now }
{
    words.iter().position(|w| w.name.as_slice() == name && is_offered(actor, w.offer))
}

// Whether a word is offered to an actor.
fn is_offered(actor: &Actor, offer: Offer) -> bool
    ensures { result ≡ is_offered actor.now offer }
{
    match offer {
        Offer::Nobody => false,
        Offer::Wizards => actor.level >= MASTER,
        Offer::All => true,
    }
}

// A word is entered from the state behind CALL.
fn enter(alloc: Global, running: Running, entrance: Entrance) -> Result<Running, NoMemory>
    requires at { IsAtPrimitive running.now }
    requires may { MayEnter entrance running }
    ensures { IfOk result (λ r. target entrance running ≡ Some r) }
{
    let Entrance {
        program,
        code,
        word,
        items,
    } = entrance;
    behind(running, items).call(alloc, program, code, word)
}
