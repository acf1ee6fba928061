// The tests of kinds.
ghost use Rattle.std.specs.Prelude.{◌≡◌, ◌∷◌, []};
ghost use Rattle.muf_model.specs.Needs.{takes_items, anything};
ghost use Rattle.muf_model.specs.Kinds.{is_kind, is_kind_so};
ghost use Rattle.muf_model.specs.StackRows.{item_judged};
ghost use Rattle.muf_frame.specs.inner.Shown.{Shown, flat};
ghost use Rattle.muf_frame.specs.inner.Answers.{Used};

use muf_frame::Frame;
use muf_model::{ItemKind, MufFault, Prim, Value};

// Whether a test of kinds is true of a kind.
fn is_kind(test: Prim, kind: ItemKind) -> bool
    ensures { result ≡ is_kind test kind }
{
    match test {
        Prim::IsInt => kind == ItemKind::Int,
        Prim::IsString => kind == ItemKind::Text,
        Prim::IsDbref => kind == ItemKind::Object,
        Prim::IsArray => kind == ItemKind::List || kind == ItemKind::Dictionary,
        Prim::IsDictionary => kind == ItemKind::Dictionary,
        Prim::IsAddress => kind == ItemKind::Address,
        Prim::IsLock => kind == ItemKind::Lock,
        _ => false,
    }
}

/// INT?, STRING?, DBREF?, ARRAY?, DICTIONARY?, ADDRESS? and LOCK?.
#[tactic(auto, using(crate::proofs::Tops::give_steps))]
pub(crate) fn judge(test: Prim, frame: &mut Frame) -> Result<(), MufFault>
    ensures { Used test (takes_items (anything ∷ [])) (item_judged (is_kind_so test)) frame.old frame.new result }
{
    frame.need(1)?;
    match frame.pop_item() {
        Some(item) => {
            frame.push_item(Value::truth(is_kind(test, item.kind())));
            Ok(())
        }
        None => unreachable!(),
    }
}
