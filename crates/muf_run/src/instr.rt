// Instructions.
ghost use Rattle.std.specs.Prelude.{◌≡◌, true, IfOk, slice_get, length};
ghost use Rattle.muf_model.specs.declared.prims.Family.TheVariants as family;
ghost use Rattle.muf_model.specs.Prims.{family_of, is_local};
ghost use Rattle.muf_model.specs.Rows.{primitive};
ghost use Rattle.muf_model.specs.inner.View.{view};
ghost use Rattle.muf_model.specs.Unit.{constant};
ghost use Rattle.muf_model.specs.Datum.{address};
ghost use Rattle.muf_frame.specs.inner.Shown.{flat};
ghost use Rattle.muf_frame.specs.inner.Moves.{scope_of};
ghost use Rattle.muf_run.specs.inner.Machine as machine;
ghost use Rattle.muf_run.specs.inner.Machine.{next_of};

use crate::items::{bind, call, keep, push, test};
use crate::keys::{open_each, pair_test};
use crate::loops::{index_test, open_for, open_try};
use crate::marks::{end_try, fault, leave_loop, leave_word, next_turn};
use crate::ran::Ran;
use muck_model::NoMemory;
use muf_frame::{Frame, PrimFault};
use muf_model::{Closer, Code, Family, Instr, Literal, Prim, Value, Word};
use prim_stack::Done;
use std::alloc::Global;

// The value that a literal stands for.
fn constant(literal: &Literal) -> Result<Value, NoMemory>
    ensures { IfOk result (λ v. view v ≡ constant literal.now) }
{
    match literal {
        Literal::Int(number) => Ok(Value::Int(*number)),
        Literal::Text(text) => Ok(Value::Str(text.share()?)),
        Literal::Object(object) => Ok(Value::Ref(*object)),
    }
}

// A primitive of the stack.
#[tactic(auto, using(crate::proofs::Stacks::became_answered))]
#[inline(always)]
fn stack_word(alloc: Global, code: &Code, frame: &mut Frame, prim: Prim) -> Result<Ran, NoMemory>
    requires { family_of prim ≡ family.Stack }
    ensures { IfOk result (λ ran. next_of ran (flat frame.new) ≡ machine.answered code.now (primitive prim (scope_of (length code.now.words) (flat frame.old)) (flat frame.old).stack) (flat frame.old)) }
{
    match prim_stack::apply(prim, frame, code.words.len()) {
        Ok(Done::Kept) => Ok(Ran::Going(0)),
        Ok(Done::Calls(word)) => call(alloc, code, frame, word),
        Err(PrimFault::Fault(refused)) => fault(alloc, frame, refused),
        Err(PrimFault::NoMemory) => Err(NoMemory),
    }
}

// A primitive of numbers.
#[tactic(auto, using(crate::proofs::Stacks::became_answered))]
#[inline(always)]
fn number_word(alloc: Global, code: &Code, frame: &mut Frame, prim: Prim) -> Result<Ran, NoMemory>
    requires { family_of prim ≡ family.Number }
    ensures { IfOk result (λ ran. next_of ran (flat frame.new) ≡ machine.answered code.now (primitive prim (scope_of (length code.now.words) (flat frame.old)) (flat frame.old).stack) (flat frame.old)) }
{
    match prim_math::apply(prim, frame) {
        Ok(()) => Ok(Ran::Going(0)),
        Err(PrimFault::Fault(refused)) => fault(alloc, frame, refused),
        Err(PrimFault::NoMemory) => Err(NoMemory),
    }
}

// A primitive of texts.
#[tactic(auto, using(crate::proofs::Stacks::became_answered))]
fn text_word(alloc: Global, code: &Code, frame: &mut Frame, prim: Prim) -> Result<Ran, NoMemory>
    requires { family_of prim ≡ family.Text }
    ensures { IfOk result (λ ran. next_of ran (flat frame.new) ≡ machine.answered code.now (primitive prim (scope_of (length code.now.words) (flat frame.old)) (flat frame.old).stack) (flat frame.old)) }
{
    match prim_text::apply(alloc, prim, frame) {
        Ok(()) => Ok(Ran::Going(0)),
        Err(PrimFault::Fault(refused)) => fault(alloc, frame, refused),
        Err(PrimFault::NoMemory) => Err(NoMemory),
    }
}

// A primitive of lists and dictionaries.
#[tactic(auto, using(crate::proofs::Stacks::became_answered))]
fn array_word(alloc: Global, code: &Code, frame: &mut Frame, prim: Prim) -> Result<Ran, NoMemory>
    requires { family_of prim ≡ family.Array }
    ensures { IfOk result (λ ran. next_of ran (flat frame.new) ≡ machine.answered code.now (primitive prim (scope_of (length code.now.words) (flat frame.old)) (flat frame.old).stack) (flat frame.old)) }
{
    match muf_array::apply(alloc, prim, frame) {
        Ok(()) => Ok(Ran::Going(0)),
        Err(PrimFault::Fault(refused)) => fault(alloc, frame, refused),
        Err(PrimFault::NoMemory) => Err(NoMemory),
    }
}

// WHILE.
fn while_word(alloc: Global, frame: &mut Frame) -> Result<Ran, NoMemory>
    ensures { IfOk result (λ ran. next_of ran (flat frame.new) ≡ machine.test (flat frame.old) (λ t. machine.going 0 t) (λ t. machine.leave_loop t t.marks)) }
{
    match test(frame) {
        Ok(true) => Ok(Ran::Going(0)),
        Ok(false) => Ok(leave_loop(frame)),
        Err(refused) => fault(alloc, frame, refused),
    }
}

// UNTIL.
fn until_word(alloc: Global, frame: &mut Frame) -> Result<Ran, NoMemory>
    ensures { IfOk result (λ ran. next_of ran (flat frame.new) ≡ machine.test (flat frame.old) (λ t. machine.leave_loop t t.marks) (λ t. machine.next_turn t t.marks)) }
{
    match test(frame) {
        Ok(true) => Ok(leave_loop(frame)),
        Ok(false) => Ok(next_turn(frame)),
        Err(refused) => fault(alloc, frame, refused),
    }
}

// IF, with the place of its second way.
#[inline(always)]
fn branch(alloc: Global, frame: &mut Frame, to: usize) -> Result<Ran, NoMemory>
    ensures { IfOk result (λ ran. next_of ran (flat frame.new) ≡ machine.branch to (flat frame.old)) }
{
    match test(frame) {
        Ok(true) => Ok(Ran::Going(0)),
        Ok(false) => {
            frame.go_to(to);
            Ok(Ran::Going(0))
        }
        Err(refused) => fault(alloc, frame, refused),
    }
}

// `;`, REPEAT and UNTIL.
#[inline(always)]
fn close(alloc: Global, frame: &mut Frame, closer: Closer) -> Result<Ran, NoMemory>
    ensures { IfOk result (λ ran. next_of ran (flat frame.new) ≡ machine.close closer (flat frame.old)) }
{
    match closer {
        Closer::Semicolon => Ok(leave_word(frame)),
        Closer::Repeat => Ok(next_turn(frame)),
        Closer::Until => until_word(alloc, frame),
    }
}

// A word that pushes a value.
fn address(alloc: Global, frame: &mut Frame, word: u32) -> Result<Ran, NoMemory>
    ensures { IfOk result (λ ran. next_of ran (flat frame.new) ≡ machine.pushed (address (flat frame.old).program word) (flat frame.old)) }
{
    let program = frame.program();
    push(alloc, frame, Value::Addr { program, word })
}

// A primitive that needs no world.
#[inline(always)]
fn primitive(alloc: Global, code: &Code, frame: &mut Frame, prim: Prim) -> Result<Ran, NoMemory>
    requires { is_local prim ≡ true }
    ensures { IfOk result (λ ran. next_of ran (flat frame.new) ≡ machine.answered code.now (primitive prim (scope_of (length code.now.words) (flat frame.old)) (flat frame.old).stack) (flat frame.old)) }
{
    match prim.family() {
        Family::Stack => stack_word(alloc, code, frame, prim),
        Family::Number => number_word(alloc, code, frame, prim),
        Family::Text => text_word(alloc, code, frame, prim),
        Family::Array => array_word(alloc, code, frame, prim),
        Family::Object | Family::Property | Family::Talk | Family::Process => unreachable!(),
    }
}

// A word, with the place after it.
#[inline(always)]
fn word(
    alloc: Global,
    code: &Code,
    frame: &mut Frame,
    word: &Word,
    next: usize,
) -> Result<Ran, NoMemory>
    ensures { IfOk result (λ ran. next_of ran (flat frame.new) ≡ machine.word code.now word.now next (flat frame.old)) }
{
    let at = frame.place();
    frame.go_to(next);
    match word {
        Word::Literal(literal) => {
            let value = constant(literal)?;
            push(alloc, frame, value)
        }
        Word::Variable(v) => push(alloc, frame, Value::Var(*v)),
        Word::Address(word) => address(alloc, frame, *word),
        Word::Primitive(prim) if prim.local() => primitive(alloc, code, frame, *prim),
        Word::Primitive(prim) => {
            frame.go_to(at);
            Ok(Ran::Shared(*prim))
        }
        Word::Call(word) => call(alloc, code, frame, *word),
        Word::Bind(count) => bind(alloc, frame, *count),
        Word::Store(v) => keep(alloc, frame, *v),
        Word::Exit => Ok(leave_word(frame)),
        Word::Break => Ok(leave_loop(frame)),
        Word::Continue => Ok(next_turn(frame)),
        Word::While => while_word(alloc, frame),
        Word::NextIndex => index_test(alloc, frame),
        Word::NextPair => pair_test(alloc, frame),
    }
}

// An instruction, with the place after it. BEGIN is none of its own.
#[inline(always)]
pub(crate) fn instr(
    alloc: Global,
    code: &Code,
    frame: &mut Frame,
    instr: &Instr,
    next: usize,
) -> Result<Ran, NoMemory>
    ensures { IfOk result (λ ran. next_of ran (flat frame.new) ≡ machine.instr code.now instr.now next (flat frame.old)) }
{
    match instr {
        Instr::Plain(plain) => word(alloc, code, frame, plain, next),
        Instr::Close(closer) => close(alloc, frame, *closer),
        Instr::When(to) | Instr::IfElse(to) => {
            frame.go_to(next);
            branch(alloc, frame, *to)
        }
        Instr::Try(to) => {
            frame.go_to(next);
            open_try(alloc, frame, *to)
        }
        Instr::Else(to) => {
            frame.go_to(*to);
            Ok(Ran::Going(0))
        }
        Instr::Catch(to) => Ok(end_try(frame, *to)),
        Instr::For(to) => {
            frame.go_to(next);
            open_for(alloc, frame, *to)
        }
        Instr::Each(to) => {
            frame.go_to(next);
            open_each(alloc, frame, *to)
        }
        Instr::Begin(_) | Instr::Unset => Ok(Ran::Stuck),
    }
}
