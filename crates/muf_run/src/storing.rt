// A list or dictionary that is changed and stored back into its variable: three units at once, so that the variable doesn't share it
// while it is changed.
ghost use Rattle.std.specs.Prelude.{◌≡◌, ◌<◌, true, IfOk, IfSome, IsTrue, IsFalse, OnOk, is_some, length};
ghost use Rattle.muf_model.specs.Answer.{variable_at as value_of};
ghost use Rattle.muf_frame.specs.inner.Shown.{flat};
ghost use Rattle.muf_frame.specs.inner.Moves.{scope_of};
ghost use Rattle.muf_model.specs.declared.code.Word.TheVariants.{Primitive, Variable};
ghost use Rattle.muf_model.specs.declared.prims.Primitive.TheVariants.{Store};
ghost use Rattle.muf_array.specs.inner.Open.{prim_of, IsOpen};
ghost use Rattle.muf_run.specs.inner.Ends.{Leads};
ghost use Rattle.muf_run.specs.inner.Storing.{HasWord, Stores, Stored};

use muck_model::NoMemory;
use muf_array::Changer;
use muf_frame::Frame;
use muf_model::{Code, Instr, Prim, Value, VarId, Word};
use std::alloc::Global;

// A changer, and the variable to which what it makes is stored.
#[derive(Clone, Copy)]
struct Storing {
    changer: Changer,
    variable: VarId,
}

// The word at a place.
#[inline(always)]
fn word_at(code: &Code, place: usize) -> Option<&Word>
    ensures { IfSome result (λ word. HasWord code.now place word.now) }
{
    match code.placed.get(place) {
        Some(placed) => match &placed.instr {
            Instr::Plain(word) => Some(word),
            _ => None,
        },
        None => None,
    }
}

// The changer that a word is.
#[inline(always)]
fn changer_of(word: &Word) -> Option<Changer>
    ensures { IfSome result (λ changer. word.now ≡ Primitive (prim_of changer)) }
{
    match word {
        Word::Primitive(prim) => Changer::of(*prim),
        _ => None,
    }
}

// The changer that stands at a place.
#[inline(always)]
pub(crate) fn changer_at(code: &Code, place: usize) -> Option<Changer>
    ensures { IfSome result (λ changer. HasWord code.now place (Primitive (prim_of changer))) }
{
    match word_at(code, place) {
        Some(word) => changer_of(word),
        None => None,
    }
}

// The variable that a word pushes.
fn variable_of(word: &Word) -> Option<VarId>
    ensures { IfSome result (λ v. word.now ≡ Variable v) }
{
    match word {
        Word::Variable(v) => Some(*v),
        _ => None,
    }
}

// The variable that is pushed at a place.
fn variable_at(code: &Code, place: usize) -> Option<VarId>
    ensures { IfSome result (λ v. HasWord code.now place (Variable v)) }
{
    match word_at(code, place) {
        Some(word) => variable_of(word),
        None => None,
    }
}

// Whether a word stores to a variable.
fn is_store(word: &Word) -> bool
    ensures { IsTrue result → word.now ≡ Primitive Store }
{
    match word {
        Word::Primitive(Prim::Store) => true,
        _ => false,
    }
}

// Whether something is stored to a variable at a place.
fn stores_at(code: &Code, place: usize) -> bool
    ensures { IsTrue result → HasWord code.now place (Primitive Store) }
{
    match word_at(code, place) {
        Some(word) => is_store(word),
        None => false,
    }
}

// The changer at a place, where the two words behind it store to a variable.
fn storing_at(code: &Code, place: usize) -> Option<Storing>
    ensures stores { IfSome result (λ storing. Stores code.now place storing.changer storing.variable) }
    ensures room { IfSome result (λ _. place < 18446744073709551613) }
{
    if place >= usize::MAX - 2 {
        return None;
    }
    let changer = changer_at(code, place)?;
    let variable = variable_at(code, place + 1)?;
    if stores_at(code, place + 2) {
        Some(Storing { changer, variable })
    } else {
        None
    }
}

// Whether a variable holds a list or dictionary.
fn holds_many(frame: &Frame, v: VarId) -> bool
    ensures { IsTrue result → is_some (value_of v.0 (scope_of 0 (flat frame.now))) ≡ true }
{
    match frame.variable(v) {
        Some(value) => matches!(value, Value::Items(_) | Value::Dict(_)),
        None => false,
    }
}

// What the changer makes goes into the variable, which lets go what it holds before.
fn store(alloc: Global, frame: &mut Frame, storing: Storing, next: usize) -> Result<(), NoMemory>
    requires there { is_some (value_of storing.variable.0 (scope_of 0 (flat frame.old))) ≡ true }
    requires fine { IsOpen storing.changer (flat frame.old) }
    ensures { OnOk result (Stored storing.changer storing.variable.0 next (flat frame.old) (flat frame.new)) }
{
    let _let_go = frame.set_variable(storing.variable, Value::Int(0));
    storing.changer.change(alloc, frame)?;
    match frame.pop_item() {
        Some(item) => {
            let _stored = frame.set_variable(storing.variable, item);
            frame.go_to(next);
            Ok(())
        }
        None => unreachable!(),
    }
}

// Takes three units, where they change a list or dictionary and store it back; false where they don't, and then nothing has changed.
pub(crate) fn store_changed(alloc: Global, code: &Code, frame: &mut Frame) -> Result<bool, NoMemory>
    ensures yes { IfOk result (λ b. IsTrue b → Leads 3 code.now (flat frame.old) (flat frame.new)) }
    ensures no { IfOk result (λ b. IsFalse b → frame.new ≡ frame.old) }
{
    let place = frame.place();
    let Some(storing) = storing_at(code, place) else {
        return Ok(false);
    };
    if !holds_many(frame, storing.variable) {
        return Ok(false);
    }
    if !storing.changer.is_open(frame)? {
        return Ok(false);
    }
    let _height = frame.len();
    store(alloc, frame, storing, place + 3)?;
    Ok(true)
}
