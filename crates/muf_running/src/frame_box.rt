// A frame on the heap.
ghost use Rattle.std.specs.Prelude.{◌≡◌, ◌≤◌, ◌+◌, IfOk, drop, length};
ghost use Rattle.std.specs.Borrow.{sem};
ghost use Rattle.muf_frame.specs.inner.Shown.{Shown};
ghost use Rattle.muf_running.specs.inner.Boxing.{LendsFrame};

use muck_model::NoMemory;
use muf_frame::Frame;
use std::alloc::Global;
use std::marker::Model;

/// A frame on the heap, so that a process is handed on without its frame being moved. Contracts see it as the frame itself.
#[derive(Drop)]
pub struct FrameBox {
    inner: Box<Frame>,
}

impl Model for FrameBox {
    ghost use Rattle.std.specs.Coded.{codes};
    ghost use Rattle.muf_frame.specs.inner.Shown.{Shown};
    ghost use Rattle.muf_model.specs.contracts.value.Value as e;
    ghost use Rattle.muf_model.specs.contracts.value.ValueList as list;
    ghost use Rattle.muf_model.specs.contracts.value.ValueMap as dict;

    ghost Value = { Shown };

    ghost coded = { Prim.hlevel (codes, e.the_row.coded, list.the_row.coded, dict.the_row.coded) };

    ghost view = { λ b. b.inner.value };
}

impl FrameBox {
    /// Puts a frame on the heap; after `NoMemory` it is dropped.
    pub(crate) fn new(alloc: Global, frame: Frame) -> Result<FrameBox, NoMemory>
        ensures { IfOk result (λ b. b ≡ frame) }
    {
        Ok(FrameBox {
            inner: Box::new(alloc, frame)?,
        })
    }

    /// The frame.
    pub fn get(&self) -> &Frame
        ensures { result.now ≡ self.now }
    {
        &self.inner
    }

    /// The frame, to change it.
    pub fn get_mut(&mut self) -> &mut Frame
        ensures value { result.now ≡ self.old }
        ensures* writes_back { sem 𝓛 (LendsFrame self.entry result) }
    {
        self.inner.as_mut()
    }

    /// Drops so many items from the top of the stack.
    pub fn drop_items(&mut self, count: usize)
        requires { count ≤ length self.old.stack }
        ensures value { self.new ≡ record self.old { stack = drop count self.old.stack } }
        ensures most { length self.new.stack + count ≤ 1024 }
    {
        self.get_mut().drop_items(count);
    }
}
