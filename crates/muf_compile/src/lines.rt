// Lines of a source, by the code that stands for it.
ghost use Rattle.std.specs.Prelude.{◌≡◌, ℕ, Some, slice_get};
ghost use Rattle.std.specs.Option.{option_map};
ghost use Rattle.muf_model.specs.inner.Decode.{remains_at};
ghost use Rattle.muf_compile.specs.Lines.{next_line};

use muf_model::Code;

/// Something that comes from the lines of a source.
pub trait HasLines {
    /// The line from which what stands at a place comes; `None` exactly where nothing stands.
    fn line_of(&self, at: u32) -> Option<u32>;
}

impl HasLines for Code {
    /// The line of the token from which the instruction at a place comes; `None` exactly where no instruction is.
    fn line_of(&self, at: u32) -> Option<u32>
        ensures value { result ≡ option_map (λ p. p.line) (slice_get self.now.placed at) }
        ensures next { (line : ℕ) → result ≡ Some line → next_line (remains_at self.now.placed at).now (remains_at self.now.placed at).end ≡ line }
    {
        match self.get(at as usize) {
            Some(placed) => Some(placed.line),
            None => None,
        }
    }
}
