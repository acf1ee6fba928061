// Faults, and the way back to a TRY.
ghost use Rattle.std.specs.Prelude.{◌≡◌, true, Some, IfOk, OnErr, is_some, reverse, map};
ghost use Rattle.std.specs.Option.{option_map_or};
ghost use Rattle.muf_frame.specs.inner.Shown.{Shown, flat, flat_mark};
ghost use Rattle.muf_frame.specs.inner.Moves.{has_guard, unwound, caught, Unwinds};

use crate::{Frame, Mark};
use muck_model::NoMemory;
use muf_model::{MufFault, Text, Value};
use std::alloc::Global;

/// Why a primitive is refused.
#[derive(Drop)]
pub enum PrimFault {
    Fault(MufFault),
    NoMemory,
}

impl From<MufFault> for PrimFault {
    ghost use Rattle.std.specs.Prelude.{◌≡◌};
    ghost use Rattle.muf_frame.specs.declared.fault.PrimFault.TheVariants.{Fault};

    ghost from_gives = { λ f e. e ≡ Fault f };

    fn from(fault: MufFault) -> Self {
        PrimFault::Fault(fault)
    }
}

impl From<NoMemory> for PrimFault {
    ghost use Rattle.std.specs.Prelude.{◌≡◌};
    ghost use Rattle.muf_frame.specs.declared.fault.PrimFault.TheVariants as refused;

    ghost from_gives = { λ _ e. e ≡ refused.NoMemory };

    fn from(_: NoMemory) -> Self {
        PrimFault::NoMemory
    }
}

impl Frame {
    // Whether a TRY encloses the place.
    fn in_try(&self) -> bool
        ensures { result ≡ has_guard (flat self.now).marks }
    {
        let mut at = self.marks.len();
        while at > 0 {
            at -= 1;
            if matches!(self.marks[at], Mark::Guard { .. }) {
                return true;
            }
        }
        false
    }

    // Back to the nearest TRY, which is there, with a text. Answers how many programs are left.
    #[tactic(auto, using(crate::proofs::Data::data_steps))]
    fn catch(&mut self, text: Text) -> usize
        requires { has_guard (flat self.old).marks ≡ true }
        ensures { unwound text 0 (flat self.old) (flat self.old).marks ≡ Some (result, flat self.new) }
    {
        let _ = &self.calls;
        let mut programs = 0;
        while let Some(mark) = self.pop_mark() {
            match mark {
                Mark::Guard {
                    locked,
                    handler,
                    ..
                } => {
                    self.cut(locked);
                    self.push_item(Value::Str(text));
                    self.go_to(handler);
                    return programs;
                }
                Mark::Leave { .. } => programs += 1,
                Mark::Loop { .. } | Mark::Back { .. } => {}
            }
        }
        unreachable!()
    }

    /// A fault goes back to the nearest TRY, with the stack cut to what that locks and the fault's text on it; answers
    /// how many programs it left. `None` exactly where no TRY is there or the fault is final, and then the frame is
    /// unchanged, as after `NoMemory`.
    pub fn unwind(&mut self, alloc: Global, fault: &MufFault) -> Result<Option<usize>, NoMemory>
        ensures ok { IfOk result (λ left. Unwinds fault.now left (flat self.old) (flat self.new)) }
        ensures err { OnErr result (self.new ≡ self.old) }
    {
        if fault.is_final() {
            return Ok(None);
        }
        if !self.in_try() {
            return Ok(None);
        }
        let text = fault.text(alloc)?;
        Ok(Some(self.catch(text)))
    }

    /// The same: `true` exactly where a TRY catches the fault.
    pub fn fault(&mut self, alloc: Global, fault: &MufFault) -> Result<bool, NoMemory>
        ensures ok { IfOk result (λ yes. (yes ≡ is_some (caught fault.now (flat self.old))) × (flat self.new ≡ option_map_or (λ left. left.1) (caught fault.now (flat self.old)) (flat self.old))) }
        ensures err { OnErr result (self.new ≡ self.old) }
    {
        Ok(self.unwind(alloc, fault)?.is_some())
    }
}
