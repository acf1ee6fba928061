// The frame of a program that runs, lent.
ghost use Rattle.std.specs.Prelude.{◌≡◌};
ghost use Rattle.muf_model.specs.inner.Flat.{Flat};
ghost use Rattle.muf_model.specs.Source.{Source};
ghost use Rattle.muf_frame.specs.inner.Shown.{flat};
ghost use Rattle.muf_running.specs.inner.Lending.{Shows, Apart, Differs, Rejoins, with_frame};

use crate::Running;
use crate::entered::Entered;
use crate::frame_box::FrameBox;
use muf_frame::Frame;
use std::marker::Model;

/// The programs of a process whose frame was taken out of it. Contracts see them as a list, the running one first.
#[derive(Drop)]
pub struct Programs {
    // the running program last
    entered: Vec<Entered>,
}

impl Model for Programs {
    ghost use Rattle.std.specs.Prelude.{List, reverse};
    ghost use Rattle.std.specs.Coded.{codes};
    ghost use Rattle.muf_running.specs.declared.entered.Entered.{Entered};

    ghost Value = { List Entered };

    ghost coded = { Prim.hlevel codes };

    ghost view = { λ p. reverse p.entered.items };
}

impl Running {
    /// The frame.
    pub fn frame(&self) -> &Frame
        ensures { Shows (flat result.now) self.now }
    {
        self.frame.get()
    }

    /// The programs and the frame of a process, which is put together again of both.
    pub fn take_apart(self) -> (Programs, FrameBox)
        ensures apart { Apart result.0 (flat result.1) self }
        ensures shows { Shows (flat result.1) self }
    {
        let Running { programs, frame } = self;
        (Programs { entered: programs }, frame)
    }

    /// Puts a process together again, whose frame may have got another stack and other variables of the process and of
    /// its programs: it stands where it stood, with these.
    pub fn rejoin(programs: Programs, frame: FrameBox) -> Running
        requires { Rejoins programs (flat frame) }
        ensures { (f : Flat) (s : Source) → Apart programs f s → Differs f (flat frame) → result ≡ with_frame (flat frame) s }
    {
        let Programs { entered } = programs;
        Running {
            programs: entered,
            frame,
        }
    }
}
