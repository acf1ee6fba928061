// The primitives that change a list or dictionary: whether one would be done, before it is.
ghost use Rattle.std.specs.Prelude.{◌≡◌, ℕ, IfOk, IfSome, OnOk, IsTrue};
ghost use Rattle.muf_model.specs.Rows.{primitive};
ghost use Rattle.muf_frame.specs.inner.Shown.{Shown, flat};
ghost use Rattle.muf_frame.specs.inner.Moves.{scope_of};
ghost use Rattle.muf_frame.specs.inner.Answers.{AppliedOr, Became};
ghost use Rattle.muf_array.specs.inner.Open.{prim_of, IsOpen, CanChange, CanAppend, CanDelete};

use crate::changes::Change;
use crate::shapes::{append_top_fault, gone_top_fault, top_fault};
use crate::table::apply;
use crate::tops::key_at;
use muck_model::NoMemory;
use muf_frame::{Frame, PrimFault};
use muf_model::Prim;
use std::alloc::Global;

/// A primitive that changes a list or dictionary.
#[derive(Clone, Copy)]
pub enum Changer {
    SetItem,
    InsertItem,
    AppendItem,
    DelItem,
}

// Whether ARRAY_SETITEM or ARRAY_INSERTITEM would be done.
fn can_change(change: Change, frame: &Frame) -> Result<bool, NoMemory>
    ensures { IfOk result (λ yes. IsTrue yes → CanChange change (flat frame.now)) }
{
    if frame.need(3).is_err() {
        return Ok(false);
    }
    match key_at(frame, 0)? {
        Some(key) => Ok(top_fault(change, frame, &key).is_none()),
        None => Ok(false),
    }
}

// Whether ARRAY_APPENDITEM would be done.
fn can_append(frame: &Frame) -> bool
    ensures { IsTrue result → CanAppend (flat frame.now) }
{
    if frame.need(2).is_err() {
        return false;
    }
    append_top_fault(frame).is_none()
}

// Whether ARRAY_DELITEM would be done.
fn can_delete(frame: &Frame) -> Result<bool, NoMemory>
    ensures { IfOk result (λ yes. IsTrue yes → CanDelete (flat frame.now)) }
{
    if frame.need(2).is_err() {
        return Ok(false);
    }
    match key_at(frame, 0)? {
        Some(key) => Ok(gone_top_fault(frame, &key).is_none()),
        None => Ok(false),
    }
}

impl Changer {
    /// The one that a primitive is; `None` where it is none.
    #[inline(always)]
    pub fn of(prim: Prim) -> Option<Changer>
        ensures { IfSome result (λ changer. prim_of changer ≡ prim) }
    {
        match prim {
            Prim::ArraySetItem => Some(Changer::SetItem),
            Prim::ArrayInsertItem => Some(Changer::InsertItem),
            Prim::ArrayAppendItem => Some(Changer::AppendItem),
            Prim::ArrayDelItem => Some(Changer::DelItem),
            _ => None,
        }
    }

    /// Whether it would be done; where it isn't so, it is refused.
    pub fn is_open(self, frame: &Frame) -> Result<bool, NoMemory>
        ensures { IfOk result (λ yes. IsTrue yes → IsOpen self (flat frame.now)) }
    {
        match self {
            Changer::SetItem => can_change(Change::Set, frame),
            Changer::InsertItem => can_change(Change::Insert, frame),
            Changer::AppendItem => Ok(can_append(frame)),
            Changer::DelItem => can_delete(frame),
        }
    }

    // Uses it.
    fn used(self, alloc: Global, frame: &mut Frame) -> Result<(), PrimFault>
        ensures { (words : ℕ) → AppliedOr (primitive (prim_of self) (scope_of words (flat frame.old)) (flat frame.old).stack) frame.old frame.new result }
    {
        match self {
            Changer::SetItem => apply(alloc, Prim::ArraySetItem, frame),
            Changer::InsertItem => apply(alloc, Prim::ArrayInsertItem, frame),
            Changer::AppendItem => apply(alloc, Prim::ArrayAppendItem, frame),
            Changer::DelItem => apply(alloc, Prim::ArrayDelItem, frame),
        }
    }

    /// Does it, where it isn't refused. After `NoMemory` nothing is said of the frame.
    pub fn change(self, alloc: Global, frame: &mut Frame) -> Result<(), NoMemory>
        requires { IsOpen self (flat frame.old) }
        ensures { OnOk result ((words : ℕ) → Became (primitive (prim_of self) (scope_of words (flat frame.old)) (flat frame.old).stack) (flat frame.old) (flat frame.new)) }
    {
        match self.used(alloc, frame) {
            Ok(()) => Ok(()),
            Err(PrimFault::NoMemory) => Err(NoMemory),
            Err(PrimFault::Fault(_)) => unreachable!(),
        }
    }
}
