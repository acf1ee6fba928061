// The beginning of a process.
ghost use Rattle.std.specs.Prelude.{◌≡◌, ◌<◌, IfOk, length, slice_set};
ghost use Rattle.std.specs.Option.{option_map};
ghost use Rattle.muf_model.specs.inner.Decode.{tree_of};
ghost use Rattle.muf_model.specs.Source.{started, last_word};
ghost use Rattle.muf_model.specs.inner.Stands.{TreeStands};
ghost use Rattle.muf_model.specs.inner.View.{view};
ghost use Rattle.muf_frame.specs.inner.Shown.{flat};
ghost use Rattle.muf_frame.specs.inner.Moves.{fresh};
ghost use Rattle.muf_running.specs.inner.Fitting.{program_with};
ghost use Rattle.muf_running.specs.Begins.{common_of, StartsAt};

use crate::Running;
use crate::entered::Entered;
use crate::frame_box::FrameBox;
use muck_model::{Dbref, Line, NoMemory};
use muf_frame::Frame;
use muf_model::{Code, Shared, Text, Value, VarId};
use std::alloc::Global;

/// What the variables ME, LOC, TRIGGER and COMMAND of a process are at first.
#[derive(Drop)]
pub struct Occasion {
    pub player: Dbref,
    pub place: Dbref,
    pub trigger: Dbref,
    pub command: Line,
}

// Another value of a variable of the process.
fn set_common(frame: &mut Frame, number: u32, value: Value)
    requires number { number < 4 }
    requires there { length (flat frame.old).common ≡ 4 }
    ensures { flat frame.new ≡ record (flat frame.old) { common = slice_set (flat frame.old).common number (view value) } }
{
    let _set = frame.set_variable(VarId(number), value);
}

// The frame of a process that has run nothing.
fn first_frame(alloc: Global, occasion: Occasion, arg: Line) -> Result<FrameBox, NoMemory>
    ensures { IfOk result (λ f. flat f ≡ record (fresh arg) { common = common_of occasion }) }
{
    let Occasion {
        player,
        place,
        trigger,
        command,
    } = occasion;
    let command = Text::new(alloc, command)?;
    let mut frame = Frame::new(alloc, arg)?;
    set_common(&mut frame, 0, Value::Ref(player));
    set_common(&mut frame, 1, Value::Ref(place));
    set_common(&mut frame, 2, Value::Ref(trigger));
    set_common(&mut frame, 3, Value::Str(command));
    FrameBox::new(alloc, frame)
}

// Where a word of a program begins, how many variables it has, and how many its program has.
#[derive(Clone, Copy)]
pub(crate) struct Start {
    pub(crate) place: usize,
    pub(crate) variables: usize,
    pub(crate) owned: usize,
}

// The beginning of one of a program's words.
pub(crate) fn start_of(code: &Code, word: usize) -> Start
    requires { word < length code.now.words }
    ensures { StartsAt code.now word result }
{
    match code.words.get(word) {
        Some(word) => Start {
            place: word.start,
            variables: word.variables,
            owned: code.variables,
        },
        None => unreachable!(),
    }
}

impl Running {
    /// A process that begins in the last word of a program, with a text on its stack; `None` exactly where the
    /// program has no word.
    pub fn begin(
        alloc: Global,
        program: Dbref,
        code: Shared<Code>,
        occasion: Occasion,
        arg: Line,
    ) -> Result<Option<Running>, NoMemory>
        requires { TreeStands code (tree_of code) }
        ensures { IfOk result (λ r. r ≡ option_map (λ d. started (program_with program code) d (common_of occasion) arg) (last_word (tree_of code).words)) }
    {
        let count = code.get().words.len();
        if count == 0 {
            return Ok(None);
        }
        let start = start_of(code.get(), count - 1);
        let mut frame = first_frame(alloc, occasion, arg)?;
        let lent = frame.get_mut();
        lent.begin(alloc, program, start.owned, start.place, start.variables)?;
        let mut programs = Vec::new(alloc);
        programs.push(Entered { program, code })?;
        Ok(Some(Running { programs, frame }))
    }
}
