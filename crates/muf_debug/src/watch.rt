// What is told of the units of a process.

use crate::View;

/// Something that is told of each unit before it runs. It is lent the view alone, so that it can change nothing else; and it answers nothing,
/// so that one that wants memory remembers that.
pub trait Watch {
    ghost use Rattle.muf_debug.specs.declared.view.View.{View};

    /// What it may be once it was told of a view.
    ghost tells: { Self → View → Self → Type 0 };

    /// A unit is about to run.
    fn saw(&mut self, view: &View)
        ensures { tells self.old view.now self.new };
}
