// PARSEMPI: a formula in a program.
ghost use Rattle.std.specs.Prelude.{◌≡◌, take};
ghost use Rattle.spec_commands.specs.Finding.{actor_of};
ghost use Rattle.muf_frame.specs.inner.Shown.{Shown, flat};
ghost use Rattle.muck_perm.specs.inner.Guards.{objects_of, world_of};
ghost use Rattle.spec_prims.specs.Formulas.{parse_done, formula_parsed};
ghost use Rattle.prim_common.specs.inner.Applied.{Makes};
ghost use Rattle.prim_prop.specs.inner.Parsed.{IsAnswered};

use crate::asked::named;
use crate::looking::text_item;
use crate::writing::added_by;
use mpi::MpiFault;
use muck_model::{Dbref, Line};
use muck_mpi::{hear, variables};
use muck_perm::{Guard, command_level};
use muf_frame::{Frame, PrimFault};
use muf_model::{MufFault, Text};
use prim_common::Made;
use spec_rights::Actor;
use std::alloc::Global;

// The player of the process, who acts by its own rights, whatever the program may do.
#[tactic(auto, unfolding(spec_commands::specs::Finding::actor_of))]
fn player_acting(guard: &Guard) -> Actor
    ensures { result ≡ actor_of (objects_of guard.now) guard.now.actor.player }
{
    let player = guard.actor().player;
    Actor {
        level: command_level(guard.db(), player),
        user: player,
        player,
    }
}

// What a program gets of a formula: its value, or the fault for its fault.
fn answered(alloc: Global, answer: Result<Line, MpiFault>) -> Result<Made, PrimFault>
    ensures { IsAnswered answer result }
{
    match answer {
        Ok(line) => Ok(Made::One(text_item(alloc, line)?)),
        Err(MpiFault::NoMemory) => Err(PrimFault::NoMemory),
        Err(MpiFault::Denied(rule)) => Err(PrimFault::Fault(MufFault::Denied(rule))),
        Err(_) => Err(PrimFault::Fault(MufFault::BadArgument)),
    }
}

// The formula of an object is evaluated for the player, and the program acts again behind it.
#[tactic(auto, using(crate::proofs::Parsing::parsing_steps))]
fn evaluate(guard: &mut Guard, object: Dbref, how: &Text, formula: &Text) -> Result<Made, PrimFault>
    ensures { Makes (formula_parsed guard.old.actor how.now formula.now object.0 (world_of guard.old)) guard.old guard.new result }
{
    let alloc = guard.alloc();
    let nothing = Line::of_text(alloc, b"")?;
    let mut vars = variables(alloc, how.as_slice(), &nothing, &nothing)?;
    let player = player_acting(guard);
    let program = guard.swap_actor(player);
    let answer = hear(guard, object, formula.as_line(), &mut vars);
    guard.swap_actor(program);
    answered(alloc, answer)
}

/// PARSEMPI.
pub(crate) fn parse(guard: &mut Guard, frame: &Frame) -> Result<Made, PrimFault>
    ensures { Makes (parse_done guard.old.actor (take 4 (flat frame.now).stack) (world_of guard.old)) guard.old guard.new result }
{
    let Some((_, how)) = added_by(frame) else {
        return Err(PrimFault::Fault(MufFault::BadType));
    };
    let Some((object, formula)) = named(frame, 2) else {
        return Err(PrimFault::Fault(MufFault::BadType));
    };
    evaluate(guard, object, how, formula)
}
