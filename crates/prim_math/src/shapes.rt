// The shapes of the primitives of numbers: what each takes, and that its answer takes its place.
ghost use Rattle.std.specs.Prelude.{◌≡◌, ◌∷◌, [], ℤ, not, slice_get};
ghost use Rattle.std.specs.Option.{option_and_then};
ghost use Rattle.muf_model.specs.Measures.{is_true_item};
ghost use Rattle.muf_model.specs.NumberRows.{one_int, two_ints, compared, two_truths, to_integer, to_object, objects_equal};
ghost use Rattle.muf_model.specs.StackRows.{item_judged};
ghost use Rattle.muf_model.specs.inner.View.{view};
ghost use Rattle.muf_frame.specs.inner.Shown.{Shown, flat};
ghost use Rattle.muf_frame.specs.inner.Answers.{Used};
ghost use Rattle.muf_model.specs.Needs.{takes_items, anything, an_int, an_object, int_or_object, a_number};
ghost use Rattle.muf_model.specs.declared.prims.Primitive.TheVariants.{Not, ToInt, ToDbref, DbCmp};
ghost use Rattle.prim_math.specs.inner.Alike.{alike, as_number};
ghost use Rattle.prim_math.specs.inner.Tables.{int_of, int_of_two, compares, joined};

use crate::rows::{compares, int_of, int_of_two, joined};
use muck_model::Dbref;
use muf_frame::Frame;
use muf_model::{MufFault, Prim, Value};

/// `++`, `--`, ABS and SIGN.
#[tactic(auto, using(crate::proofs::Taking::int_steps))]
pub(crate) fn one_int(prim: Prim, frame: &mut Frame) -> Result<(), MufFault>
    ensures { Used prim (takes_items (an_int ∷ [])) (one_int (int_of prim)) frame.old frame.new result }
{
    frame.need(1)?;
    match frame.int_at(0) {
        Some(i) => frame.give(1, Value::Int(int_of(prim, i))),
        None => Err(MufFault::BadType),
    }
}

/// The primitives of two integers, the second one on the top.
#[tactic(auto, using(crate::proofs::Taking::int_steps))]
pub(crate) fn two_ints(prim: Prim, frame: &mut Frame) -> Result<(), MufFault>
    ensures { Used prim (takes_items (an_int ∷ an_int ∷ [])) (two_ints (int_of_two prim)) frame.old frame.new result }
{
    frame.need(2)?;
    match frame.int_at(0) {
        Some(j) => match frame.int_at(1) {
            Some(i) => frame.give(2, Value::Int(int_of_two(prim, i, j))),
            None => Err(MufFault::BadType),
        },
        None => Err(MufFault::BadType),
    }
}

// The numbers of two integers or of two objects, the second one on the top.
#[tactic(auto, using(crate::proofs::Taking::alike_steps))]
fn numbers_alike(frame: &Frame) -> Option<(i32, i32)>
    ensures { result ≡ alike (flat frame.now).stack }
{
    match frame.int_at(0) {
        Some(j) => match frame.int_at(1) {
            Some(i) => Some((i, j)),
            None => None,
        },
        None => match frame.object_at(0) {
            Some(j) => match frame.object_at(1) {
                Some(i) => Some((i.0, j.0)),
                None => None,
            },
            None => None,
        },
    }
}

/// The comparisons, of two integers or two objects, the second one on the top.
#[tactic(auto, using(crate::proofs::Taking::compare_steps))]
pub(crate) fn compared(prim: Prim, frame: &mut Frame) -> Result<(), MufFault>
    ensures { Used prim (takes_items (int_or_object ∷ int_or_object ∷ [])) (compared (compares prim)) frame.old frame.new result }
{
    frame.need(2)?;
    match numbers_alike(frame) {
        Some((i, j)) => frame.give(2, Value::truth(compares(prim, i, j))),
        None => Err(MufFault::BadType),
    }
}

/// NOT.
#[tactic(auto, using(crate::proofs::Taking::truth_steps))]
pub(crate) fn negated(frame: &mut Frame) -> Result<(), MufFault>
    ensures { Used Not (takes_items (anything ∷ [])) (item_judged (λ x. not (is_true_item x))) frame.old frame.new result }
{
    frame.need(1)?;
    match frame.pop_item() {
        Some(x) => {
            frame.push_item(Value::truth(!x.is_true()));
            Ok(())
        }
        None => unreachable!(),
    }
}

/// AND, OR and XOR.
#[tactic(auto, using(crate::proofs::Taking::truth_steps))]
pub(crate) fn two_truths(prim: Prim, frame: &mut Frame) -> Result<(), MufFault>
    ensures { Used prim (takes_items (anything ∷ anything ∷ [])) (two_truths (joined prim)) frame.old frame.new result }
{
    frame.need(2)?;
    match frame.pop_item() {
        Some(y) => match frame.pop_item() {
            Some(x) => {
                frame.push_item(Value::truth(joined(prim, x.is_true(), y.is_true())));
                Ok(())
            }
            None => unreachable!(),
        },
        None => unreachable!(),
    }
}

// The number that a value is or has.
fn as_number(value: &Value) -> Option<i32>
    ensures { result ≡ as_number (view value.now) }
{
    match value {
        Value::Int(i) => Some(*i),
        Value::Ref(d) => Some(d.0),
        Value::Var(v) => Some(v.0.cast_signed()),
        _ => None,
    }
}

// The number that the top item is or has.
#[tactic(auto, using(muf_frame::proofs::Data::list_steps))]
fn number_at_top(frame: &Frame) -> Option<i32>
    ensures { result ≡ option_and_then as_number (slice_get (flat frame.now).stack 0) }
{
    match frame.peek(0) {
        Some(value) => as_number(value),
        None => None,
    }
}

/// INT.
#[tactic(auto, using(crate::proofs::Taking::kind_steps))]
pub(crate) fn to_int(frame: &mut Frame) -> Result<(), MufFault>
    ensures { Used ToInt (takes_items (a_number ∷ [])) to_integer frame.old frame.new result }
{
    frame.need(1)?;
    match number_at_top(frame) {
        Some(i) => frame.give(1, Value::Int(i)),
        None => Err(MufFault::BadType),
    }
}

/// DBREF.
#[tactic(auto, using(crate::proofs::Taking::kind_steps))]
pub(crate) fn to_object(frame: &mut Frame) -> Result<(), MufFault>
    ensures { Used ToDbref (takes_items (an_int ∷ [])) to_object frame.old frame.new result }
{
    frame.need(1)?;
    match frame.int_at(0) {
        Some(i) => frame.give(1, Value::Ref(Dbref(i))),
        None => Err(MufFault::BadType),
    }
}

/// DBCMP.
#[tactic(auto, using(crate::proofs::Taking::kind_steps))]
pub(crate) fn objects_equal(frame: &mut Frame) -> Result<(), MufFault>
    ensures { Used DbCmp (takes_items (an_object ∷ an_object ∷ [])) objects_equal frame.old frame.new result }
{
    frame.need(2)?;
    match frame.object_at(0) {
        Some(j) => match frame.object_at(1) {
            Some(i) => frame.give(2, Value::truth(i.0 == j.0)),
            None => Err(MufFault::BadType),
        },
        None => Err(MufFault::BadType),
    }
}
