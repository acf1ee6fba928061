// A text that several values share.
ghost use Rattle.std.specs.Prelude.{◌≡◌, ◌≤◌, None, length, IfOk};
ghost use Rattle.muck_model.specs.Bytes.{text_fault, text_most};

use muck_model::{Line, NoMemory};
use std::alloc::Global;
use std::marker::Model;
use std::sync::Arc;

/// A text that is shared by all its copies. Contracts see it as its bytes.
#[derive(Drop)]
pub struct Text {
    line: Arc<Line>,
}

impl Model for Text {
    ghost use Rattle.std.specs.Prelude.{List, ℕ};
    ghost use Rattle.std.specs.Arc.{arc_value};

    ghost Value = { List ℕ };

    ghost view = { λ t. arc_value t.line };
}

impl Text {
    /// The text of a line.
    pub fn new(alloc: Global, line: Line) -> Result<Text, NoMemory>
        ensures { IfOk result (λ text. text ≡ line) }
    {
        let line = Arc::new(alloc, line)?;
        Ok(Text { line })
    }

    /// Its bytes.
    pub fn as_slice(&self) -> &[u8]
        ensures bytes { result.now ≡ self.now }
        ensures most { length result.now ≤ text_most }
        ensures text { text_fault result.now ≡ None }
    {
        self.line.as_slice()
    }

    /// The line that it shares.
    pub fn as_line(&self) -> &Line
        ensures { result.now ≡ self.now }
    {
        &self.line
    }

    /// The same text once more; no byte is copied.
    pub fn share(&self) -> Result<Text, NoMemory>
        ensures { IfOk result (λ text. text ≡ self.now) }
    {
        let line = self.line.clone()?;
        Ok(Text { line })
    }
}
