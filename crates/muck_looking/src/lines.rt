// Lines that are shown of objects.
ghost use Rattle.std.specs.Prelude.{◌≡◌, ◌≤◌, ◌++◌, None, IfOk};
ghost use Rattle.muck_model.specs.Bytes.{text_fault};
ghost use Rattle.spec_live.specs.Seen.{long_form};
ghost use Rattle.spec_rights.specs.Levels.{dbref_number};
ghost use Rattle.muck_looking.specs.Looks.{line_shortened, form_line};
ghost use Rattle.muck_looking.specs.inner.Inside.{AreInside};

use muck_db::Db;
use muck_model::{Dbref, Line, NoMemory, TEXT_MOST};
use muck_perm::long_form;
use spec_live::Object;
use std::alloc::Global;

// What of these bytes is shown.
fn front(bytes: &[u8]) -> &[u8]
    ensures { result.now ≡ line_shortened bytes.now }
{
    if bytes.len() <= TEXT_MOST {
        return bytes;
    }
    bytes.split_at(TEXT_MOST).0
}

/// The line of bytes of texts, which is cut at the most bytes of one.
pub fn line(alloc: Global, bytes: &[u8]) -> Result<Line, NoMemory>
    requires { AreInside bytes.now }
    ensures { IfOk result (λ line. line ≡ line_shortened bytes.now) }
{
    Line::of_text(alloc, front(bytes))
}

/// The line of a text behind a head.
pub fn headed(alloc: Global, head: &[u8], text: &[u8]) -> Result<Line, NoMemory>
    requires head { text_fault head.now ≡ None }
    requires text { text_fault text.now ≡ None }
    ensures { IfOk result (λ line. line ≡ line_shortened (head.now ++ text.now)) }
{
    let mut bytes = Vec::from_slice(alloc, head)?;
    bytes.extend_from_slice(text)?;
    line(alloc, &bytes)
}

// The number that is written behind a name.
fn number_of(d: Dbref) -> u32
    ensures { result ≡ dbref_number d }
{
    if d.0 < 0 { 0 } else { d.0 as u32 }
}

// The line of the long form of an object of that number.
fn long_line(alloc: Global, n: u32, object: &Object) -> Result<Line, NoMemory>
    requires { object.now.level ≤ 3 }
    ensures { IfOk result (λ line. line ≡ line_shortened (long_form n object.now)) }
{
    // That the name is a text, and the level a byte.
    let _name = object.name().as_slice();
    let text = long_form(alloc, n, object)?;
    line(alloc, &text)
}

/// The line of the long form of an object; of what isn't there an empty one.
pub fn form(alloc: Global, db: &Db, d: Dbref) -> Result<Line, NoMemory>
    ensures { IfOk result (λ line. line ≡ form_line db.now d) }
{
    match db.get(d) {
        Some(object) => long_line(alloc, number_of(d), object),
        None => line(alloc, b""),
    }
}
