// What a primitive makes, and how that takes the place of what it took.
ghost use Rattle.std.specs.Prelude.{◌≡◌, ◌≤◌, ◌+◌, [], ◌∷◌, ◌++◌, length, map};
ghost use Rattle.muf_model.specs.inner.View.{view};
ghost use Rattle.muf_frame.specs.inner.Shown.{Shown, flat};
ghost use Rattle.prim_common.specs.inner.Applied.{Given, items_of};

use muf_frame::Frame;
use muf_model::{MufFault, STACK_MOST, Value};

/// What a primitive makes: nothing, an item, or several, of which the first comes to the top.
#[derive(Drop)]
pub enum Made {
    Nothing,
    One(Value),
    Many(Vec<Value>),
}

// Puts items on the top, the last of them first, where there is room.
fn push_all(frame: &mut Frame, items: Vec<Value>)
    requires { length items.items + length frame.old.stack ≤ 1024 }
    ensures { frame.new ≡ record frame.old { stack = items.items ++ frame.old.stack } }
{
    let mut left = items;
    while let Some(item) = left.pop() {
        frame.push_item(item);
    }
}

// So many items at the top give way to several.
#[tactic(auto, using(crate::proofs::Giving::giving_steps))]
fn give_all(frame: &mut Frame, taken: usize, items: Vec<Value>) -> Result<(), MufFault>
    requires { taken ≤ length frame.old.stack }
    ensures { Given taken (map view items.items) frame.old frame.new result }
{
    if items.len() > STACK_MOST - (frame.len() - taken) {
        return Err(MufFault::StackFull);
    }
    frame.drop_items(taken);
    push_all(frame, items);
    Ok(())
}

// So many items at the top give way to one.
#[tactic(auto, using(crate::proofs::Giving::giving_steps))]
fn give_one(frame: &mut Frame, taken: usize, item: Value) -> Result<(), MufFault>
    requires { taken ≤ length frame.old.stack }
    ensures { Given taken (view item ∷ []) frame.old frame.new result }
{
    if taken == 0 {
        return frame.push(item);
    }
    frame.drop_items(taken);
    frame.push_item(item);
    Ok(())
}

/// So many items at the top, which are there, give way to what is made: `StackFull` exactly where there is no room for it,
/// and then the frame is unchanged.
#[tactic(auto, using(crate::proofs::Giving::giving_steps))]
pub fn give(frame: &mut Frame, taken: usize, made: Made) -> Result<(), MufFault>
    requires { taken ≤ length frame.old.stack }
    ensures { Given taken (items_of made) frame.old frame.new result }
{
    match made {
        Made::Nothing => {
            frame.drop_items(taken);
            Ok(())
        }
        Made::One(item) => give_one(frame, taken, item),
        Made::Many(items) => give_all(frame, taken, items),
    }
}
