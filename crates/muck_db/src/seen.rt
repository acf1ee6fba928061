// What matching and locks read of the objects.
ghost use Rattle.std.specs.Prelude.{◌≡◌, None, IfOk};
ghost use Rattle.std.specs.Fmt.{signed_decimal};
ghost use Rattle.muck_model.specs.Bytes.{text_fault};
ghost use Rattle.spec_live.specs.Worth.{value_is, value_text, has_value};

use crate::db::Db;
use itoa::Buffer;
use muck_lock::{Keys, TextKeys};
use muck_match::Scene;
use muck_model::{Dbref, Kind, Line, NoMemory};
use muck_prop::PropValue;
use std::alloc::Global;

// A number in decimal.
fn number_text(number: i32, buffer: &mut Buffer) -> &[u8]
    ensures shown { result.now ≡ signed_decimal number }
    ensures text { text_fault result.now ≡ None }
{
    buffer.format(number).as_bytes()
}

// The bytes of a value as a text: a number is written in decimal.
fn shown<'a>(value: &'a PropValue, buffer: &'a mut Buffer) -> &'a [u8]
    ensures shown { result.now ≡ value_text value.now }
    ensures text { text_fault result.now ≡ None }
{
    match value {
        PropValue::Text(text) => text.as_slice(),
        PropValue::Number(number) => number_text(*number, buffer),
    }
}

/// The value of a property as a text: a number is written in decimal.
pub fn value_text(alloc: Global, value: &PropValue) -> Result<Line, NoMemory>
    ensures { IfOk result (λ text. text ≡ value_text value.now) }
{
    let mut buffer = Buffer::new();
    let text = Line::of_text(alloc, shown(value, &mut buffer))?;
    Ok(text)
}

// Whether a value is that text, or that number in decimal.
fn value_is(value: &PropValue, text: &[u8]) -> bool
    ensures { result ≡ value_is text.now value.now }
{
    let mut buffer = Buffer::new();
    shown(value, &mut buffer) == text
}

// Whether the property of that path of an object has that text, or that number in decimal.
#[tactic(auto, unfolding(spec_live::specs::Worth::has_value, spec_live::specs::Worth::value_at_path))]
fn has_value(db: &Db, d: Dbref, path: &[u8], value: &[u8]) -> bool
    ensures { result ≡ has_value db.now d path.now value.now }
{
    match db.get(d) {
        Some(object) => match object.props().get_bytes(path) {
            Some(found) => value_is(found, value),
            None => false,
        },
        None => false,
    }
}

impl Scene for Db {
    ghost use Rattle.spec_live.specs.Seen.{scenery_of};
    ghost use Rattle.muck_db.specs.inner.Shown.{after_in};

    ghost shown = { scenery_of };

    ghost after = { after_in };

    #[tactic(auto, unfolding(spec_live::specs::Seen::scenery_of))]
    fn kind(&self, d: Dbref) -> Option<Kind> {
        match self.get(d) {
            Some(object) => Some(object.kind()),
            None => None,
        }
    }

    #[tactic(auto, unfolding(spec_live::specs::Seen::scenery_of))]
    fn name(&self, d: Dbref) -> Option<&Line> {
        match self.get(d) {
            Some(object) => Some(object.name()),
            None => None,
        }
    }

    #[tactic(auto, unfolding(spec_live::specs::Seen::scenery_of))]
    fn place(&self, d: Dbref) -> Option<Dbref> {
        self.place_of(d)
    }

    #[tactic(auto, unfolding(spec_live::specs::Seen::scenery_of))]
    fn link(&self, d: Dbref) -> Option<Dbref> {
        match self.get(d) {
            Some(object) => Some(object.link()),
            None => None,
        }
    }

    #[tactic(auto, unfolding(spec_live::specs::Seen::scenery_of))]
    fn first_content(&self, d: Dbref) -> Dbref {
        self.first_listed(false, d)
    }

    #[tactic(auto, unfolding(spec_live::specs::Seen::scenery_of))]
    fn first_exit(&self, d: Dbref) -> Dbref {
        self.first_listed(true, d)
    }

    fn next(&self, d: Dbref) -> Dbref {
        self.next_listed(d)
    }

    #[tactic(auto, unfolding(spec_live::specs::Seen::scenery_of))]
    fn objects(&self) -> u32 {
        self.count()
    }
}

impl Keys for Db {
    ghost use Rattle.std.specs.Prelude.{◌≡◌, false};
    ghost use Rattle.std.specs.Option.{option_map};
    ghost use Rattle.spec_live.specs.Objects.{object_at};
    ghost use Rattle.spec_live.specs.Seen.{listed_in};
    ghost use Rattle.spec_live.specs.Worth.{has_value};
    ghost use Rattle.muck_db.specs.inner.Shown.{first_in, next_in};

    ghost owners = { λ es d. option_map (λ o. o.owner) (object_at d es) };

    ghost places = { λ es d. option_map (λ o. o.place) (object_at d es) };

    ghost firsts = { first_in };

    ghost nexts = { next_in };

    ghost contents = { λ es d. listed_in false d es };

    ghost has = { has_value };

    fn owner(&self, d: Dbref) -> Option<Dbref> {
        match self.get(d) {
            Some(object) => Some(object.owner()),
            None => None,
        }
    }

    fn place(&self, d: Dbref) -> Option<Dbref> {
        match self.get(d) {
            Some(object) => Some(object.place()),
            None => None,
        }
    }

    fn first(&self, d: Dbref) -> Dbref {
        self.first_listed(false, d)
    }

    fn next(&self, d: Dbref) -> Dbref {
        self.next_listed(d)
    }

    fn prop_is(&self, d: Dbref, path: &Line, value: &Line) -> bool {
        has_value(self, d, path.as_slice(), value.as_slice())
    }
}

impl TextKeys for Db {
    fn text_is(&self, d: Dbref, path: &[u8], value: &[u8]) -> bool {
        has_value(self, d, path, value)
    }
}
