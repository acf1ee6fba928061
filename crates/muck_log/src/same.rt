// Whether two records are the same, field by field and without memory.
ghost use Rattle.std.specs.Prelude.{◌≡◌, List, ℕ};
ghost use Rattle.std.specs.Bool.{Decides};
ghost use Rattle.muck_log.specs.inner.Same.{HasSameHead, HasSameTies, HasSameLists, HasSameTexts};

use muck_codec::{Property, Stored};
use muck_model::Line;
use muck_prop::Path;

fn has_same_head(a: &Stored, b: &Stored) -> bool
    ensures { Decides result (HasSameHead a.now b.now) }
{
    a.dbref == b.dbref && a.kind == b.kind && a.flags == b.flags && a.level == b.level
}

fn has_same_ties(a: &Stored, b: &Stored) -> bool
    ensures { Decides result (HasSameTies a.now b.now) }
{
    a.owner == b.owner && a.place == b.place && a.link == b.link && a.home == b.home
}

fn has_same_lists(a: &Stored, b: &Stored) -> bool
    ensures { Decides result (HasSameLists a.now b.now) }
{
    a.first_content == b.first_content && a.first_exit == b.first_exit && a.next == b.next
}

fn is_same_text(a: &Line, b: &Line) -> bool
    ensures { Decides result (a.now ≡ b.now) }
{
    a == b
}

fn are_same_lines(a: &[Line], b: &[Line]) -> bool
    ensures { Decides result (a.now ≡ b.now) }
{
    a == b
}

#[tactic(auto, using(muck_laws::proofs::Texts::texts_same))]
fn is_same_path(a: &Path, b: &Path) -> bool
    ensures { Decides result (a.now ≡ b.now) }
{
    a == b
}

fn is_same_property(a: &Property, b: &Property) -> bool
    ensures { Decides result (a.now ≡ b.now) }
{
    is_same_path(&a.path, &b.path) && a.value.is_same(&b.value)
}

fn are_same_properties(a: &[Property], b: &[Property]) -> bool
    ensures { Decides result (a.now ≡ b.now) }
{
    if a.len() != b.len() {
        return false;
    }
    for (one, other) in a.iter().zip(b) {
        if !is_same_property(one, other) {
            return false;
        }
    }
    true
}

fn has_same_texts(a: &Stored, b: &Stored) -> bool
    ensures { Decides result (HasSameTexts a.now b.now) }
{
    is_same_text(&a.name, &b.name)
        && is_same_text(&a.digest, &b.digest)
        && are_same_properties(a.props.as_slice(), b.props.as_slice())
        && are_same_lines(a.lines.as_slice(), b.lines.as_slice())
}

/// Whether two records are the same.
#[tactic(auto, using(crate::proofs::Sameness::same_by))]
pub(crate) fn is_same(a: &Stored, b: &Stored) -> bool
    ensures { Decides result (a.now ≡ b.now) }
{
    has_same_head(a, b) && has_same_ties(a, b) && has_same_lists(a, b) && has_same_texts(a, b)
}
