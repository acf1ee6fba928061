// A guard as the host of formulas.
ghost use Rattle.std.specs.Prelude.{◌≡◌, IfOk, None, Err};
ghost use Rattle.muck_model.specs.Bytes.{text_fault};
ghost use Rattle.mpi.specs.Hosting.{Means, IfMemory};
ghost use Rattle.spec_rights.specs.Licence.{Licensed, nobody};
ghost use Rattle.muck_perm.specs.inner.Guards.{world_of, Same, Did};
ghost use Rattle.muck_mpi.specs.inner.Showing.{IsShown};
ghost use Rattle.spec_mpi.specs.Messages.{formula_heard, variables_of, message_spoken};
ghost use Rattle.spec_mpi.specs.Touching.{TouchesNotes};
ghost use Rattle.muck_mpi.specs.inner.Plain.{is_plain};

use crate::answers::answer;
use crate::deeds::does;
use mpi::{Ask, Deed, Host, MpiFault, VarMap, eval};
use muck_match::Found;
use muck_model::{Dbref, Line, NoMemory};
use muck_perm::Guard;
use spec_mpi::Seen;
use std::alloc::Global;

const NOTHING: Dbref = Dbref(-1);

// A guard, lent to a formula.
#[derive(Drop)]
struct Speaker<'g, 'a> {
    guard: &'g mut Guard<'a>,
}

impl<'g, 'a> Host for Speaker<'g, 'a> {
    ghost use Rattle.std.proofs.Common.{refl, ◌∙◌};
    ghost use Rattle.spec_mpi.specs.Doing.{powers};
    ghost use Rattle.muck_mpi.specs.inner.Seeing.{stage_of};
    ghost use Rattle.muck_mpi.specs.inner.Hosts.{SameHost};

    type Seen = Seen;

    ghost seen = { λ s. stage_of s.guard.now };

    ghost powers = { powers };

    ghost same = { SameHost };

    fn player(&self) -> Dbref {
        self.guard.actor().player
    }

    #[tactic(auto, unfolding(spec_live::specs::Lives::place_at))]
    fn here(&self) -> Dbref {
        match self.guard.db().get(self.guard.actor().player) {
            Some(object) => object.place(),
            None => NOTHING,
        }
    }

    fn random(&mut self) -> u32 {
        self.guard.random()
    }

    fn most_commands(&self) -> u32 {
        self.guard.board().tune().mpi_commands
    }

    #[tactic(auto, unfolding(spec_mpi::specs::Telling::finds_in))]
    fn find(&self, text: &Line) -> Option<Dbref> {
        match self.guard.db().find(self.guard.actor().player, text) {
            Found::One(d) => Some(d),
            _ => None,
        }
    }

    #[tactic(auto, unfolding(spec_mpi::specs::Telling::tells_in))]
    fn tells(&self, alloc: Global, ask: &Ask) -> Result<Line, MpiFault> {
        let _ = alloc;
        answer(self.guard, ask)
    }

    fn does(&mut self, alloc: Global, deed: &Deed) -> Result<(), MpiFault> {
        let _ = alloc;
        does(self.guard, deed)
    }

    ghost same_self = { λ x. (refl, (refl, refl)) };

    ghost same_both = { λ x y z p q. (q.0 ∙ p.0, (q.1.0 ∙ p.1.0, q.1.1 ∙ p.1.1)) };
}

/// Evaluates a text that an object carries, for who acts: what it means, or its fault, and the variables and the world after it. What was
/// changed before a fault stays. After `NoMemory` nothing is said of the variables and of the world.
#[tactic(auto, unfolding(spec_mpi::specs::Messages::formula_heard))]
pub fn hear(
    guard: &mut Guard,
    this: Dbref,
    text: &Line,
    vars: &mut VarMap,
) -> Result<Line, MpiFault>
    ensures means { Means (formula_heard guard.old.actor this text.now vars.old (world_of guard.old)).0 result }
    ensures world { IfMemory result (world_of guard.new ≡ (formula_heard guard.old.actor this text.now vars.old (world_of guard.old)).1) }
    ensures actor { IfMemory result (guard.new.actor ≡ guard.old.actor) }
    ensures same { Same guard.old guard.new }
    ensures open { IfMemory result (Licensed guard.old.actor nobody (world_of guard.old) (world_of guard.new)) }
    ensures touches { IfMemory result (TouchesNotes (world_of guard.old) (world_of guard.new)) }
{
    let alloc = guard.alloc();
    let mut speaker = Speaker { guard };
    eval(alloc, &mut speaker, this, text, vars)
}

// What is shown of a fault.
fn fault_line(alloc: Global, fault: MpiFault) -> Result<Line, NoMemory>
    ensures { IsShown (Err fault) result }
{
    match fault {
        MpiFault::Unclosed => Line::of_text(alloc, b"MPI error 60."),
        MpiFault::UnknownFunction => Line::of_text(alloc, b"MPI error 61."),
        MpiFault::BadCount => Line::of_text(alloc, b"MPI error 62."),
        MpiFault::BadValue => Line::of_text(alloc, b"MPI error 63."),
        MpiFault::TooManyCommands => Line::of_text(alloc, b"MPI error 64."),
        MpiFault::TooLong => Line::of_text(alloc, b"MPI error 65."),
        MpiFault::Denied(_) => Line::of_text(alloc, b"MPI error 66."),
        MpiFault::NoMemory => Err(NoMemory),
    }
}

// What is shown of a value or a fault.
#[tactic(auto, unfolding(spec_mpi::specs::Messages::answer_shown))]
fn shown_line(alloc: Global, answer: Result<Line, MpiFault>) -> Result<Line, NoMemory>
    ensures { IsShown answer result }
{
    match answer {
        Ok(line) => Ok(line),
        Err(fault) => fault_line(alloc, fault),
    }
}

/// The variables of a message: how it is called where it is spoken, and what was typed.
#[tactic(auto, unfolding(spec_mpi::specs::Messages::variables_of))]
pub fn variables(alloc: Global, how: &[u8], cmd: &Line, arg: &Line) -> Result<VarMap, NoMemory>
    requires { text_fault how.now ≡ None }
    ensures { IfOk result (λ vars. vars ≡ variables_of how.now cmd.now arg.now) }
{
    let mut vars = VarMap::new(alloc)?;
    vars.put(Line::of_text(alloc, b"how")?, Line::of_text(alloc, how)?)?;
    vars.put(Line::of_text(alloc, b"cmd")?, cmd.copy(alloc)?)?;
    vars.put(Line::of_text(alloc, b"arg")?, arg.copy(alloc)?)?;
    Ok(vars)
}

// Whether a text has neither a bracket nor a `\`, and so means itself.
fn is_plain(text: &[u8]) -> bool
    ensures { result ≡ is_plain text.now }
{
    text.iter()
        .all(|b| *b != b'\\' && (*b != b'{' && *b != b'}'))
}

/// Evaluates a message of an object, called so where it is spoken, behind what was typed: what is shown of it, which is `MPI error N.`
/// where it has a fault, and the world after it. A text without brackets and `\` means itself, so no variable is made for it.
#[tactic(auto, using(crate::proofs::Plain::plain_texts))]
pub fn speak(
    guard: &mut Guard,
    this: Dbref,
    how: &[u8],
    cmd: &Line,
    arg: &Line,
    text: Line,
) -> Result<Line, NoMemory>
    requires { text_fault how.now ≡ None }
    ensures shown { IfOk result (λ line. line ≡ (message_spoken guard.old.actor this how.now cmd.now arg.now text (world_of guard.old)).0) }
    ensures did { Did (λ w. (message_spoken guard.old.actor this how.now cmd.now arg.now text w).1) guard.old guard.new result }
{
    if is_plain(text.as_slice()) {
        return Ok(text);
    }
    let alloc = guard.alloc();
    let mut vars = variables(alloc, how, cmd, arg)?;
    let answer = hear(guard, this, &text, &mut vars);
    shown_line(alloc, answer)
}
