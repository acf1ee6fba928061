// Lists of segments, in the order of paths.
ghost use Rattle.std.specs.Prelude.{◌≡◌, ◌≤◌, ◌++◌, ◌∷◌, [], ℕ, suc, List, Some, None, IfOk, IfSome, IfNone, OnOk, length, take, drop, refl, Ok, Err, false};
ghost use Rattle.std.specs.List.{list_any};
ghost use Rattle.std.specs.Cmp.{on_equiv, on_total, on_po, on_per, partial_equiv_from_equiv};
ghost use Rattle.muck_prop.specs.Order.{path_cmp, path_eq, path_cmp_total, path_eq_equiv, path_ties, path_po, is_below, past};
ghost use Rattle.muck_prop.specs.Paths.{segments_of, path_text, begins_with_byte, with_part};

use crate::segment::Segment;
use muck_model::{Boxed, NoMemory, count_before};
use std::alloc::Global;
use std::cmp::Ordering;
use std::marker::Model;

// Some segments, which contracts see as their list. A path keeps more than this type does. It is one word, so that a node of the map, which has room for
// many, is small.
#[derive(Drop)]
pub(crate) struct Segments {
    items: Boxed<Vec<Segment>>,
}

impl Model for Segments {
    ghost use Rattle.std.specs.Prelude.{List, ℕ};

    ghost Value = { List (List ℕ) };

    ghost view = { λ s. s.items.items };
}

// What stands behind the slash at that place.
fn behind_part(text: &[u8], n: usize) -> &[u8]
    ensures { result.now ≡ drop (suc n) text.now }
{
    if n < text.len() { &text[n + 1..] } else { &[] }
}

// The segments behind a part of a text, which is empty or the first of them; none where it is another one.
#[tactic(auto, unfolding(crate::specs::Paths::with_part))]
fn past_part<'a>(rest: &'a [Segment], part: &[u8]) -> Option<&'a [Segment]>
    ensures some { IfSome result (λ more. (tail : List (List ℕ)) → path_eq rest.now (with_part part.now tail) ≡ path_eq more.now tail) }
    ensures none { IfNone result ((tail : List (List ℕ)) → path_eq rest.now (with_part part.now tail) ≡ false) }
{
    if part.is_empty() {
        return Some(rest);
    }
    let (first, more) = rest.split_first()?;
    if first.is_lowered(part) {
        Some(more)
    } else {
        None
    }
}

impl Segments {
    // Whether a text holds these segments. It takes no memory.
    pub(crate) fn is_text(&self, text: &[u8]) -> bool
        ensures { result ≡ path_eq self.now (segments_of text.now) }
    {
        let mut rest = self.as_slice();
        let mut left = text;
        while !left.is_empty() {
            let n = count_before(left, b'/');
            let Some(more) = past_part(rest, &left[..n]) else {
                return false;
            };
            rest = more;
            left = behind_part(left, n);
        }
        rest.is_empty()
    }

    // No segment.
    pub(crate) fn new(alloc: Global) -> Result<Segments, NoMemory>
        ensures { IfOk result (λ s. s ≡ []) }
    {
        Segments::of_items(alloc, Vec::new(alloc))
    }

    // These segments.
    fn of_items(alloc: Global, items: Vec<Segment>) -> Result<Segments, NoMemory>
        ensures { IfOk result (λ s. s ≡ items.items) }
    {
        let items = Boxed::new(alloc, items)?;
        Ok(Segments { items })
    }

    // What stands between the slashes of a text, without empty parts, in lower case.
    pub(crate) fn of_text(alloc: Global, text: &[u8]) -> Result<Segments, NoMemory>
        ensures { IfOk result (λ s. s ≡ segments_of text.now) }
    {
        let mut items = Vec::with_capacity(alloc, 1)?;
        for part in text.split(|b| *b == b'/') {
            if !part.is_empty() {
                items.push(Segment::lowered(alloc, part)?)?;
            }
        }
        items.shrink_to_fit();
        let segments = Segments::of_items(alloc, items)?;
        Ok(segments)
    }

    // All segments.
    pub(crate) fn as_slice(&self) -> &[Segment]
        ensures { result.now ≡ self.now }
    {
        self.items.get()
    }

    // How many there are.
    pub(crate) fn len(&self) -> usize
        ensures { result ≡ length self.now }
    {
        self.as_slice().len()
    }

    // The segments, joined by single slashes.
    pub(crate) fn text(&self, alloc: Global) -> Result<Vec<u8>, NoMemory>
        ensures { IfOk result (λ text. text.items ≡ path_text self.now) }
    {
        let mut text = Vec::new(alloc);
        let kept = self.as_slice();
        for (i, segment) in kept.iter().enumerate() {
            if i > 0 {
                text.push(b'/')?;
            }
            text.extend_from_slice(segment.as_slice())?;
        }
        Ok(text)
    }

    // A copy of the first segments, at most so many.
    pub(crate) fn first(&self, alloc: Global, count: usize) -> Result<Segments, NoMemory>
        ensures { IfOk result (λ s. s ≡ take count self.now) }
    {
        let kept = self.as_slice();
        let count = count.min(kept.len());
        let mut items = Vec::with_capacity(alloc, count)?;
        for segment in &kept[..count] {
            items.push(segment.copy(alloc)?)?;
        }
        let copy = Segments::of_items(alloc, items)?;
        Ok(copy)
    }

    // A copy of those behind the first `count`.
    pub(crate) fn rest(&self, alloc: Global, count: usize) -> Result<Segments, NoMemory>
        requires { count ≤ length self.now }
        ensures { IfOk result (λ s. s ≡ drop count self.now) }
    {
        let (_, rest) = self.as_slice().split_at(count);
        let mut items = Vec::with_capacity(alloc, rest.len())?;
        for segment in rest {
            items.push(segment.copy(alloc)?)?;
        }
        let copy = Segments::of_items(alloc, items)?;
        Ok(copy)
    }

    // All of them, as a copy.
    pub(crate) fn copy(&self, alloc: Global) -> Result<Segments, NoMemory>
        ensures { IfOk result (λ s. s ≡ self.now) }
    {
        self.first(alloc, self.len())
    }

    // The least list of segments above all that continue the first `count` of these.
    #[tactic(auto, using(crate::proofs::Sequence::past_push))]
    pub(crate) fn past(&self, alloc: Global, count: usize) -> Result<Segments, NoMemory>
        ensures { IfOk result (λ s. s ≡ past (take count self.now)) }
    {
        let Segments { items } = self.first(alloc, count)?;
        let mut items = items.into_inner();
        if let Some(last) = items.pop() {
            items.push(last.successor()?)?;
        }
        let past = Segments::of_items(alloc, items)?;
        Ok(past)
    }

    // Whether any of them begins with a byte.
    pub(crate) fn any_begins_with(&self, first: u8) -> bool
        ensures { result ≡ list_any (begins_with_byte first) self.now }
    {
        self.as_slice()
            .iter()
            .any(|segment| segment.begins_with(first))
    }

    // Whether these segments continue those by at least one.
    pub(crate) fn is_below(&self, above: &Segments) -> bool
        ensures { result ≡ is_below above.now self.now }
    {
        above.len() < self.len() && self.as_slice().starts_with(above.as_slice())
    }
}

impl PartialEq for Segments {
    ghost eq = { λ a b. path_eq a b };

    ghost laws = { on_per (λ s. s) (partial_equiv_from_equiv path_eq_equiv) };

    fn eq(&self, other: &Segments) -> bool {
        self.as_slice() == other.as_slice()
    }
}

impl Eq for Segments {
    ghost laws = { on_equiv (λ s. s) path_eq_equiv };
}

impl PartialOrd for Segments {
    ghost partial_cmp = { λ a b. Some (path_cmp a b) };

    ghost laws = { on_po (λ s. s) path_po };

    fn partial_cmp(&self, other: &Segments) -> Option<Ordering> {
        Some(self.cmp(other))
    }
}

impl Ord for Segments {
    ghost cmp = { λ a b. path_cmp a b };

    ghost total = { on_total (λ s. s) path_cmp_total };

    ghost matches_partial_cmp = { λ a b. refl };

    ghost matches_eq = { λ a b. path_ties a b };

    fn cmp(&self, other: &Segments) -> Ordering {
        self.as_slice().cmp(other.as_slice())
    }
}
