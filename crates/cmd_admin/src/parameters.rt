// What is tuned.
ghost use Rattle.std.specs.Prelude.{◌≡◌, ◌≤◌, ◌++◌, IfOk};
ghost use Rattle.spec_live.specs.Lives.{reading};
ghost use Rattle.spec_commands.specs.Finding.{for_each};
ghost use Rattle.spec_commands.specs.Going.{ended};
ghost use Rattle.spec_commands.specs.declared.outcome.Outcome.{Outcome};
ghost use Rattle.spec_admin.specs.Replies.{parameter_line};
ghost use Rattle.spec_admin.specs.Parameters.{value_for, retuned};
ghost use Rattle.spec_admin.specs.Lines.{by_wizard, parameter_shown, parameters_shown, retune_told, parameter_set, tune_done};
ghost use Rattle.muck_perm.specs.inner.Guards.{Did, world_of};
ghost use Rattle.cmd_common.specs.inner.Plays.{Plays};

use crate::asking::{deny, wizard_denial};
use cmd_common::{incomplete, parts_in};
use muck_model::{Line, NoMemory, Parameter, Tune, decimal};
use muck_perm::Guard;
use spec_commands::{Form, Outcome};

// The value that a text writes for a parameter; `None` exactly where it writes none in its range.
fn value_for(parameter: Parameter, text: &[u8]) -> Option<u32>
    ensures { result ≡ value_for parameter text.now }
{
    let value = decimal(text, u64::from(parameter.most()))?;
    if value >= 1 { Some(value as u32) } else { None }
}

// With a parameter set; `None` exactly where there is no such parameter, or it can't have this value.
#[tactic(auto, unfolding(spec_admin::specs::Parameters::retuned))]
fn retuned(name: &[u8], text: &[u8], tune: Tune) -> Option<Tune>
    ensures { result ≡ retuned name.now text.now tune }
{
    let parameter = Parameter::named(name)?;
    let value = value_for(parameter, text)?;
    let mut tune = tune;
    tune.set(parameter, value);
    Some(tune)
}

// Shows a parameter.
#[tactic(auto, unfolding(spec_admin::specs::Lines::parameter_shown, spec_admin::specs::Replies::parameter_line))]
fn show_parameter(
    guard: &mut Guard,
    d: u32,
    tune: &Tune,
    parameter: Parameter,
) -> Result<(), NoMemory>
    ensures { Did (parameter_shown d tune.now parameter) guard.old guard.new result }
{
    let value = tune.get(parameter);
    let shown = format!(in guard.alloc(); " = {value}")?;
    let mut line = Vec::new(guard.alloc());
    line.extend_from_slice(parameter.name())?;
    line.extend_from_slice(shown.as_bytes())?;
    guard.tell(d, &line)?;
    Ok(())
}

// Shows these parameters, one a line.
fn show_each(
    guard: &mut Guard,
    d: u32,
    tune: &Tune,
    parameters: &[Parameter],
) -> Result<(), NoMemory>
    ensures { Did (for_each (parameter_shown d tune.now) parameters.now) guard.old guard.new result }
{
    for parameter in parameters {
        show_parameter(guard, d, tune, *parameter)?;
    }
    Ok(())
}

// Shows all parameters, one a line.
#[tactic(auto, using(crate::proofs::Each::all_shown))]
fn show_parameters(guard: &mut Guard, d: u32) -> Result<(), NoMemory>
    ensures { Did (parameters_shown d) guard.old guard.new result }
{
    let tune = guard.board().tune();
    show_each(guard, d, &tune, Parameter::all())
}

// Shows all parameters to a wizard.
#[tactic(auto, unfolding(spec_commands::specs::Going::ended, spec_rights::specs::Asking::asked))]
fn show_all(guard: &mut Guard, d: u32) -> Result<Outcome, NoMemory>
    ensures { Plays (by_wizard d guard.old.actor (ended Outcome.Done (parameters_shown d))) guard.old guard.new result }
{
    if let Some(denial) = wizard_denial(guard) {
        return deny(guard, d, denial);
    }
    show_parameters(guard, d)?;
    Ok(Outcome::Done)
}

// A parameter is to be set, by a wizard.
#[tactic(auto, unfolding(spec_admin::specs::Lines::parameter_set, spec_admin::specs::Replies::bad_parameter, spec_admin::specs::Replies::parameter_reply, spec_commands::specs::Going::ended, spec_live::specs::Lives::reading, spec_rights::specs::Asking::asked))]
fn set(guard: &mut Guard, d: u32, name: &[u8], value: &[u8]) -> Result<Outcome, NoMemory>
    ensures { Plays (by_wizard d guard.old.actor (parameter_set d name.now value.now)) guard.old guard.new result }
{
    if let Some(denial) = wizard_denial(guard) {
        return deny(guard, d, denial);
    }
    let Some(tune) = retuned(name, value, guard.board().tune()) else {
        guard.tell(d, b"Bad parameter.")?;
        return Ok(Outcome::Done);
    };
    guard.tell(d, b"Parameter set.")?;
    Ok(Outcome::Retune(tune))
}

/// `@tune`: alone it shows all parameters, and with a name and a value it sets one: `Retune` comes exactly where name and value are right.
#[tactic(auto, unfolding(spec_admin::specs::Lines::tune_done, spec_commands::specs::Going::ended, spec_live::specs::Lives::either))]
pub fn tune(guard: &mut Guard, d: u32, text: &Line) -> Result<Outcome, NoMemory>
    ensures { Plays (tune_done d guard.old.actor text.now) guard.old guard.new result }
{
    if text.as_slice().is_empty() {
        return show_all(guard, d);
    }
    match parts_in(guard.alloc(), Form::Full, text)? {
        Some(parts) => set(guard, d, parts.left.as_slice(), parts.right.as_slice()),
        None => {
            incomplete(guard, d, b"@tune")?;
            Ok(Outcome::Done)
        }
    }
}
