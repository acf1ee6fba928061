// The tests of items.
ghost use Rattle.std.specs.Prelude.{◌≡◌, ◌≤◌, ◌+◌, drop, length};
ghost use Rattle.spec_rights.specs.Verdict.{verdict};
ghost use Rattle.muf_model.specs.inner.View.{view};
ghost use Rattle.muf_model.specs.Ladder.{first_refusal, times, unfit, absent, distant};
ghost use Rattle.muf_frame.specs.inner.Shown.{Shown, flat};
ghost use Rattle.muck_perm.specs.inner.Guards.{objects_of};
ghost use Rattle.spec_prims.specs.Asking.{fault_of_denial, is_number_there, level_fault, near_fault};
ghost use Rattle.prim_common.specs.inner.Tests.{Passes, AreShort, item_fault, all_needs};

use crate::parts::{Parts, counted_len};
use muck_model::Dbref;
use muck_perm::{Guard, verdict};
use muf_frame::Frame;
use muf_model::{MufFault, Need, Value};
use spec_rights::{Act, Rule};

/// What is asked of an item.
#[derive(Clone, Copy)]
pub enum Asked {
    Kind,
    There,
    Near,
}

// Leave for an act.
#[inline(always)]
fn permit(guard: &Guard, act: &Act) -> Result<(), MufFault>
    ensures { Passes (fault_of_denial (verdict (objects_of guard.now) guard.now.actor act.now)) result }
{
    match verdict(guard.db(), &guard.actor(), act) {
        Ok(_) => Ok(()),
        Err(denial) => Err(MufFault::Denied(denial.rule)),
    }
}

/// Whether the actor has the level of a primitive: the first rule of permission, which alone speaks of that.
#[tactic(auto, unfolding(spec_prims::specs::Asking::level_fault))]
#[inline(always)]
pub(crate) fn reach_level(guard: &Guard, level: u8) -> Result<(), MufFault>
    ensures { Passes (level_fault guard.now.actor (objects_of guard.now) level) result }
{
    if guard.actor().level < level {
        let denial = Rule::P1.denies(guard.actor().player);
        return Err(MufFault::Denied(denial.rule));
    }
    Ok(())
}

// Whether the actor may name an object: only at the lowest level it has to be near.
#[tactic(auto, unfolding(spec_prims::specs::Asking::near_fault))]
#[inline(always)]
fn reach_object(guard: &Guard, object: Dbref) -> Result<(), MufFault>
    ensures { Passes (near_fault guard.now.actor (objects_of guard.now) object.0) result }
{
    if guard.actor().level != 1 {
        return Ok(());
    }
    permit(guard, &Act::Near { object })
}

// Whether an item is of its kind.
#[inline(always)]
fn test_kind(need: &Need, item: &Value) -> Result<(), MufFault>
    ensures { Passes (unfit need.now (view item.now)) result }
{
    if need.kind.suits(item.kind()) {
        Ok(())
    } else {
        Err(MufFault::BadType)
    }
}

// Whether an object is there that must be.
#[tactic(auto, unfolding(spec_prims::specs::Asking::is_number_there))]
#[inline(always)]
fn test_there(need: &Need, item: &Value, guard: &Guard) -> Result<(), MufFault>
    ensures { Passes (absent (is_number_there (objects_of guard.now)) need.now (view item.now)) result }
{
    match item {
        Value::Ref(object) if need.there && guard.db().get(*object).is_none() => {
            Err(MufFault::NoSuchObject)
        }
        _ => Ok(()),
    }
}

// Whether an object is near that must be.
#[inline(always)]
fn test_near(need: &Need, item: &Value, guard: &Guard) -> Result<(), MufFault>
    ensures { Passes (distant (near_fault guard.now.actor (objects_of guard.now)) need.now (view item.now)) result }
{
    match item {
        Value::Ref(object) if need.near => reach_object(guard, *object),
        _ => Ok(()),
    }
}

#[inline(always)]
fn test_item(asked: Asked, need: &Need, item: &Value, guard: &Guard) -> Result<(), MufFault>
    ensures { Passes (item_fault asked guard.now.actor (objects_of guard.now) need.now (view item.now)) result }
{
    match asked {
        Asked::Kind => test_kind(need, item),
        Asked::There => test_there(need, item, guard),
        Asked::Near => test_near(need, item, guard),
    }
}

/// A test of each item behind so many, from the top down.
#[inline(always)]
pub(crate) fn test_items(
    asked: Asked,
    needs: &[Need],
    from: usize,
    guard: &Guard,
    frame: &Frame,
) -> Result<(), MufFault>
    requires { length needs.now + from ≤ 274877906944 }
    ensures { Passes (first_refusal (item_fault asked guard.now.actor (objects_of guard.now)) needs.now (drop from (flat frame.now).stack)) result }
{
    let mut at = 0;
    while at < needs.len() {
        let Some(item) = frame.peek(at + from) else {
            return Ok(());
        };
        test_item(asked, &needs[at], item, guard)?;
        at += 1;
    }
    Ok(())
}

// The same of items that are counted.
fn test_counted(
    asked: Asked,
    each: &[Need],
    count: usize,
    from: usize,
    guard: &Guard,
    frame: &Frame,
) -> Result<(), MufFault>
    requires { length (times count each.now) + from ≤ 274877906944 }
    ensures { Passes (first_refusal (item_fault asked guard.now.actor (objects_of guard.now)) (times count each.now) (drop from (flat frame.now).stack)) result }
{
    let mut depth = from;
    let mut left = count;
    while left > 0 {
        test_items(asked, each, depth, guard, frame)?;
        depth += each.len();
        left -= 1;
    }
    Ok(())
}

/// The same of all items.
#[tactic(auto, using(crate::proofs::Walks::part_steps))]
pub(crate) fn test_parts(
    asked: Asked,
    parts: Parts,
    guard: &Guard,
    frame: &Frame,
) -> Result<(), MufFault>
    requires { AreShort parts }
    ensures { Passes (first_refusal (item_fault asked guard.now.actor (objects_of guard.now)) (all_needs parts) (flat frame.now).stack) result }
{
    let fixed = parts.fixed.len();
    let under = fixed + counted_len(parts);
    test_items(asked, parts.fixed, 0, guard, frame)?;
    test_counted(asked, parts.each, parts.count, fixed, guard, frame)?;
    test_items(asked, parts.under, under, guard, frame)
}
