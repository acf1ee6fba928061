// Making, editing, listing and running programs.
ghost use Rattle.std.specs.Prelude.{◌≡◌, ◌≤◌, IfOk, length};
ghost use Rattle.spec_live.specs.Lives.{tell};
ghost use Rattle.spec_rights.specs.declared.act.Act.{Act};
ghost use Rattle.spec_commands.specs.Replies.{entering_editor};
ghost use Rattle.spec_commands.specs.Programming.{source_of, program_new, program_made, program_edited, program_listed, program_run};
ghost use Rattle.muck_perm.specs.inner.Guards.{Did, IsLeave, world_of};
ghost use Rattle.cmd_common.specs.inner.Plays.{Plays};
ghost use Rattle.cmd_build.specs.inner.Entering.{IsEntered};

use cmd_common::{cant_be_done, copy_lines, number_of, refuse, show_created, show_lines};
use muck_model::{Dbref, Line, LineList, NoMemory};
use muck_perm::{Guard, Pass, verdict};
use spec_commands::Outcome;
use spec_live::DbFault;
use spec_rights::Act;

// Tells the connection that an editor is opened.
#[tactic(auto, unfolding(spec_commands::specs::Replies::entering_editor))]
fn tell_entering(guard: &mut Guard, d: u32) -> Result<(), NoMemory>
    ensures { Did (tell d entering_editor) guard.old guard.new result }
{
    guard.tell(d, b"Entering editor.")?;
    Ok(())
}

// Tells the connection what came of making a program, whose editor is to be opened.
#[tactic(auto, unfolding(spec_commands::specs::Going::ended, spec_live::specs::Lives::change_followed))]
fn enter_made(guard: &mut Guard, d: u32, made: Result<Dbref, DbFault>) -> Result<Outcome, NoMemory>
    ensures { IsEntered d made guard.old guard.new result }
{
    match made {
        Ok(x) => {
            show_created(guard, d, number_of(x))?;
            tell_entering(guard, d)?;
            Ok(Outcome::Edit(x))
        }
        Err(DbFault::NoMemory) => Err(NoMemory),
        Err(_) => {
            cant_be_done(guard, d)?;
            Ok(Outcome::Done)
        }
    }
}

// Makes a program that the player carries, where the world allows it.
fn make_program(guard: &mut Guard, d: u32, pass: Pass, name: Line) -> Result<Outcome, NoMemory>
    requires leave { IsLeave pass Act.NewProgram guard.old }
    requires some { 1 ≤ length name }
    requires short { length name ≤ 80 }
    ensures { Plays (program_new d guard.old.actor name) guard.old guard.new result }
{
    let player = guard.actor().player;
    let made = guard.create_program(pass, name, player);
    enter_made(guard, d, made)
}

/// `@program`: makes a program that the player carries, and whose editor is to be opened.
#[tactic(auto, unfolding(spec_commands::specs::Programming::program_made, spec_commands::specs::Going::ended, spec_rights::specs::Asking::asked))]
pub fn program(guard: &mut Guard, d: u32, name: Line) -> Result<Outcome, NoMemory>
    requires some { 1 ≤ length name }
    requires short { length name ≤ 80 }
    ensures { Plays (program_made d guard.old.actor name) guard.old guard.new result }
{
    let actor = guard.actor();
    let act = Act::NewProgram;
    match verdict(guard.db(), &actor, &act) {
        Ok(pass) => return make_program(guard, d, pass, name),
        Err(denial) => refuse(guard, d, denial)?,
    }
    Ok(Outcome::Done)
}

/// `@edit`: the editor of a program is to be opened, where no rule denies it.
#[tactic(auto, unfolding(spec_commands::specs::Programming::program_edited, spec_commands::specs::Going::ended, spec_rights::specs::Asking::asked))]
pub fn edit(guard: &mut Guard, d: u32, x: Dbref) -> Result<Outcome, NoMemory>
    ensures { Plays (program_edited d guard.old.actor x) guard.old guard.new result }
{
    let actor = guard.actor();
    let act = Act::Edit { program: x };
    if let Err(denial) = verdict(guard.db(), &actor, &act) {
        refuse(guard, d, denial)?;
        return Ok(Outcome::Done);
    }
    tell_entering(guard, d)?;
    Ok(Outcome::Edit(x))
}

// A copy of the source of a program.
fn source(guard: &Guard, pass: Pass, x: Dbref) -> Result<LineList, NoMemory>
    requires { IsLeave pass (Act.Change x) guard.now }
    ensures { IfOk result (λ lines. lines ≡ source_of x (world_of guard.now)) }
{
    match guard.lines(pass, x) {
        Some(lines) => copy_lines(guard.alloc(), lines),
        None => LineList::new(guard.alloc()),
    }
}

/// `@list`: shows the source of a program, where no rule denies it.
#[tactic(auto, unfolding(spec_commands::specs::Programming::program_listed, spec_commands::specs::Going::ended, spec_live::specs::Lives::reading, spec_rights::specs::Asking::asked))]
pub fn list(guard: &mut Guard, d: u32, x: Dbref) -> Result<Outcome, NoMemory>
    ensures { Plays (program_listed d guard.old.actor x) guard.old guard.new result }
{
    let actor = guard.actor();
    let act = Act::Change { object: x };
    match verdict(guard.db(), &actor, &act) {
        Err(denial) => refuse(guard, d, denial)?,
        Ok(pass) => {
            let lines = source(guard, pass, x)?;
            show_lines(guard, d, lines.as_slice())?;
        }
    }
    Ok(Outcome::Done)
}

/// `@run`: a program is to be started by a line, with a text on its stack, where no rule denies it.
#[tactic(auto, unfolding(spec_commands::specs::Programming::program_run, spec_commands::specs::Going::ended, spec_live::specs::Lives::unchanged, spec_rights::specs::Asking::asked))]
pub fn start(
    guard: &mut Guard,
    d: u32,
    line: &Line,
    x: Dbref,
    arg: Line,
) -> Result<Outcome, NoMemory>
    ensures { Plays (program_run d guard.old.actor line.now x arg) guard.old guard.new result }
{
    let command = line.copy(guard.alloc())?;
    let actor = guard.actor();
    let act = Act::Call { program: x };
    if let Err(denial) = verdict(guard.db(), &actor, &act) {
        refuse(guard, d, denial)?;
        return Ok(Outcome::Done);
    }
    Ok(Outcome::Start {
        program: x,
        trigger: x,
        command,
        arg,
    })
}
