// One segment of a path.
ghost use Rattle.std.specs.Prelude.{◌≡◌, ◌++◌, [], ◌∷◌, Some, map, IfOk, bytes_eq, length, refl, IsTrue, ◌↔◌};
ghost use Rattle.muck_prop.specs.Paths.{begins_with_byte};
ghost use Rattle.std.specs.Char.{to_ascii_lowercase};
ghost use Rattle.std.specs.Ordering.{nat_cmp};
ghost use Rattle.std.specs.Cmp.{on_equiv, on_total, on_po, on_per, partial_equiv_from_equiv};
ghost use Rattle.std.specs.Cmp.Lexicographic.{slice_cmp, nat_list_eq_equiv, nat_list_cmp_total, texts_ties, texts_po};

use muck_model::NoMemory;
use std::alloc::Global;
use std::cmp::Ordering;
use std::marker::Model;

// Some bytes, which contracts see as their list. Segments are ordered by their bytes.
#[derive(Drop)]
pub(crate) struct Segment {
    bytes: Vec<u8>,
}

impl Model for Segment {
    ghost use Rattle.std.specs.Prelude.{List, ℕ};

    ghost Value = { List ℕ };

    ghost view = { λ s. s.bytes.items };
}

impl Segment {
    // These bytes in lower case.
    pub(crate) fn lowered(alloc: Global, bytes: &[u8]) -> Result<Segment, NoMemory>
        ensures { IfOk result (λ s. s ≡ map to_ascii_lowercase bytes.now) }
    {
        let bytes = bytes.iter().map(|b| b.to_ascii_lowercase()).collect(alloc)?;
        Ok(Segment { bytes })
    }

    // Its bytes.
    pub(crate) fn as_slice(&self) -> &[u8]
        ensures { result.now ≡ self.now }
    {
        &self.bytes
    }

    // Whether these bytes are it in lower case.
    pub(crate) fn is_lowered(&self, bytes: &[u8]) -> bool
        ensures { result ≡ bytes_eq self.now (map to_ascii_lowercase bytes.now) }
    {
        let mut rest = self.as_slice();
        let mut left = bytes;
        while let [byte, more @ ..] = left {
            match rest {
                [first, behind @ ..] if *first == byte.to_ascii_lowercase() => rest = behind,
                _ => return false,
            }
            left = more;
        }
        rest.is_empty()
    }

    // Whether it begins with a byte.
    pub(crate) fn begins_with(&self, first: u8) -> bool
        ensures { result ≡ begins_with_byte first self.now }
    {
        match self.bytes.first() {
            Some(byte) => *byte == first,
            None => false,
        }
    }

    // An equal segment.
    pub(crate) fn copy(&self, alloc: Global) -> Result<Segment, NoMemory>
        ensures { IfOk result (λ s. s ≡ self.now) }
    {
        let bytes = self.bytes.to_vec(alloc)?;
        Ok(Segment { bytes })
    }

    // The least segment above this one: no byte is below 0.
    pub(crate) fn successor(self) -> Result<Segment, NoMemory>
        ensures { IfOk result (λ s. s ≡ self ++ 0 ∷ []) }
    {
        let Segment { mut bytes } = self;
        bytes.push(0)?;
        Ok(Segment { bytes })
    }
}

impl PartialEq for Segment {
    ghost eq = { λ a b. bytes_eq a b };

    ghost laws = { on_per (λ s. s) (partial_equiv_from_equiv nat_list_eq_equiv) };

    fn eq(&self, other: &Segment) -> bool {
        self.as_slice() == other.as_slice()
    }
}

impl Eq for Segment {
    ghost laws = { on_equiv (λ s. s) nat_list_eq_equiv };
}

impl PartialOrd for Segment {
    ghost partial_cmp = { λ a b. Some (slice_cmp nat_cmp a b) };

    ghost laws = { on_po (λ s. s) texts_po };

    fn partial_cmp(&self, other: &Segment) -> Option<Ordering> {
        Some(self.cmp(other))
    }
}

impl Ord for Segment {
    ghost cmp = { λ a b. slice_cmp nat_cmp a b };

    ghost total = { on_total (λ s. s) nat_list_cmp_total };

    ghost matches_partial_cmp = { λ a b. refl };

    ghost matches_eq = { λ a b. texts_ties a b };

    fn cmp(&self, other: &Segment) -> Ordering {
        self.as_slice().cmp(other.as_slice())
    }
}
