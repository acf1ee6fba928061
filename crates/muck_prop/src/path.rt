// Property paths.
ghost use Rattle.std.specs.Prelude.{◌≡◌, ◌++◌, ◌∷◌, [], Some, None, IfOk, OnOk, length, take, refl, Ok, Err};
ghost use Rattle.std.specs.List.{list_any};
ghost use Rattle.muck_model.specs.Bytes.{text_fault};
ghost use Rattle.muck_prop.specs.Order.{path_cmp};
ghost use Rattle.muck_prop.specs.Paths.{segments_of, path_text, fault_of_path, path_fault, IsPathOf, IsPath, class_of, is_barred, IsReadAs};

use crate::segments::Segments;
use muck_model::{Line, NoMemory};
use std::alloc::Global;
use std::marker::Model;

// The most bytes of a path's text, and the most segments.
const BYTES_MOST: usize = 128;

const SEGMENTS_MOST: usize = 16;

/// Why a text is no path.
#[derive(Clone, Copy, Debug, PartialEq, Eq)]
pub enum PropFault {
    /// Nothing is left, a byte is barred, or too many bytes are left.
    BadPath,
    /// There are more than 16 segments.
    TooDeep,
    NoMemory,
}

impl From<NoMemory> for PropFault {
    ghost use Rattle.std.specs.Prelude.{◌≡◌};
    ghost use Rattle.muck_prop.specs.declared.path.PropFault.TheVariants.{NoMemory};

    ghost from_gives = { λ _ e. e ≡ NoMemory };

    fn from(_: NoMemory) -> Self {
        PropFault::NoMemory
    }
}

/// Who may read and write the property of a path: the first of `@`, `~`, `.` and `_` with which any segment begins.
#[derive(Clone, Copy, Debug, PartialEq, Eq)]
pub enum Class {
    At,
    Tilde,
    Dot,
    Underscore,
    Plain,
}

/// The path of a property, which contracts see as its segments. Paths are ordered by their segments, from the first on,
/// and segments by their bytes; a path stands before those that continue it.
#[derive(PartialEq, Eq, PartialOrd, Ord, Drop)]
pub struct Path {
    pub(crate) segments: Segments,
}

impl Model for Path {
    ghost use Rattle.std.specs.Prelude.{List, ℕ};

    ghost Value = { List (List ℕ) };

    ghost use Rattle.muck_prop.specs.Paths.{IsPath};

    ghost view = { λ p. p.segments };

    ghost invariant = { λ p. IsPath p.segments };

    ghost inverse = { λ segments. record { segments = segments } };
}

// Whether a byte stands there that no path has.
pub(crate) fn has_barred(text: &[u8]) -> bool
    ensures { result ≡ list_any is_barred text.now }
{
    text.iter().any(|b| *b == b':' || *b == b'\r')
}

// Why a text with these segments is no path.
fn fault_in(alloc: Global, text: &[u8], segments: &Segments) -> Result<Option<PropFault>, NoMemory>
    ensures { IfOk result (λ fault. fault ≡ fault_of_path text.now segments.now) }
{
    if has_barred(text) || segments.len() == 0 || segments.text(alloc)?.len() > BYTES_MOST {
        return Ok(Some(PropFault::BadPath));
    }
    if segments.len() > SEGMENTS_MOST {
        return Ok(Some(PropFault::TooDeep));
    }
    Ok(None)
}

/// The path that a text holds: leading, trailing and doubled slashes are dropped, and letters become lower case.
///
/// `BadPath` comes exactly where nothing is left, the text has a colon or byte 13, or what is left has more than
/// 128 bytes; `TooDeep` exactly where none of this holds and there are more than 16 segments.
pub fn read_path(alloc: Global, text: &Line) -> Result<Path, PropFault>
    ensures { IsPathOf text.now result }
{
    let text = text.as_slice();
    let segments = Segments::of_text(alloc, text)?;
    match fault_in(alloc, text, &segments)? {
        Some(fault) => Err(fault),
        None => Ok(Path { segments }),
    }
}

impl Path {
    /// The path of a text that is known to write one.
    pub fn of_text(alloc: Global, text: &[u8]) -> Result<Path, NoMemory>
        requires text { text_fault text.now ≡ None }
        requires fine { path_fault text.now ≡ None }
        ensures { IfOk result (λ path. path ≡ segments_of text.now) }
    {
        let segments = Segments::of_text(alloc, text)?;
        Ok(Path { segments })
    }

    /// The class of the path.
    pub fn class(&self) -> Class
        ensures { result ≡ class_of self.now }
    {
        let path = &self.segments;
        if path.any_begins_with(b'@') {
            Class::At
        } else if path.any_begins_with(b'~') {
            Class::Tilde
        } else if path.any_begins_with(b'.') {
            Class::Dot
        } else if path.any_begins_with(b'_') {
            Class::Underscore
        } else {
            Class::Plain
        }
    }

    /// How many segments it has.
    pub fn len(&self) -> usize
        ensures { result ≡ length self.now }
    {
        self.segments.len()
    }

    /// Its text: the segments, joined by single slashes. It is read as this path.
    pub fn text(&self, alloc: Global) -> Result<Line, NoMemory>
        ensures text { IfOk result (λ text. text ≡ path_text self.now) }
        ensures reads { IsReadAs (path_text self.now) self.now }
    {
        let text = self.segments.text(alloc)?;
        Ok(Line::of_text_vec(text))
    }

    /// An equal path.
    pub fn copy(&self, alloc: Global) -> Result<Path, NoMemory>
        ensures { IfOk result (λ path. path ≡ self.now) }
    {
        let segments = self.segments.copy(alloc)?;
        Ok(Path { segments })
    }
}
