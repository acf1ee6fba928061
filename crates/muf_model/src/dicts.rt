// Dictionaries of values.
ghost use Rattle.std.specs.Prelude.{◌≡◌, ◌≤◌, ◌<◌, [], false, Some, IfOk, OnOk, OnErr, IfSome, IsTrue, map, length, slice_get};
ghost use Rattle.std.specs.Option.{option_map, option_copied};
ghost use Rattle.std.specs.Arc.{arc_value};
ghost use Rattle.muf_model.specs.declared.value.MapKey.{MapKey as Key};
ghost use Rattle.muf_model.specs.Datum.{dict as whole, pairs_of};
ghost use Rattle.muf_model.specs.inner.View.{view, pair_view};
ghost use Rattle.muf_model.specs.Measures.{pairs_weight, pairs_nesting};
ghost use Rattle.muf_model.specs.Entries.{key_same, value_of_key, with_entry, entry_place, has_key, Rising};
ghost use Rattle.muf_model.specs.Values.{IsValue, IsSized, Becomes};

use crate::held::size_with;
use crate::{MapKey, Pair, Size, Value, ValueFault, ValueMap};
use muck_model::NoMemory;
use std::alloc::Global;
use std::sync::Arc;

impl MapKey {
    /// Whether the other key is the same one.
    pub fn is_same(&self, other: &MapKey) -> bool
        ensures { result ≡ key_same self.now other.now }
    {
        match (self, other) {
            (MapKey::Number(a), MapKey::Number(b)) => *a == *b,
            (MapKey::Name(a), MapKey::Name(b)) => a.as_slice() == b.as_slice(),
            (MapKey::Number(_), MapKey::Name(_)) | (MapKey::Name(_), MapKey::Number(_)) => false,
        }
    }
}

impl Pair {
    /// The same key with a copy of its value.
    pub fn copy(&self) -> Result<Pair, NoMemory>
        ensures { IfOk result (λ pair. pair_view pair ≡ pair_view self.now) }
    {
        Ok(Pair {
            key: self.key.copy()?,
            value: self.value.copy()?,
        })
    }
}

// The place of a key among entries whose keys rise, or the one where it belongs.
pub(crate) fn entry_place(pairs: &[Pair], key: &MapKey) -> usize
    requires { Rising (map pair_view pairs.now) }
    ensures place { result ≡ entry_place key.now (map pair_view pairs.now) }
    ensures most { result ≤ length pairs.now }
{
    let mut low = 0;
    let mut high = pairs.len();
    while low < high {
        let middle = low + (high - low) / 2;
        if pairs[middle].key.is_below(key) {
            low = middle + 1;
        } else {
            high = middle;
        }
    }
    low
}

// The same entries.
fn copy_pairs(alloc: Global, pairs: &[Pair]) -> Result<Vec<Pair>, NoMemory>
    ensures { IfOk result (λ copies. map pair_view copies.items ≡ map pair_view pairs.now) }
{
    let mut copies = Vec::with_capacity(alloc, pairs.len())?;
    let mut at = 0;
    while at < pairs.len() {
        copies.push(pairs[at].copy()?)?;
        at += 1;
    }
    Ok(copies)
}

// The pair at a place.
fn pair_at(pairs: &[Pair], at: usize) -> Option<&Pair>
    ensures value { option_copied result ≡ slice_get pairs.now at }
    ensures there { IfSome result (λ _. at < length pairs.now) }
{
    pairs.get(at)
}

// Whether an entry of a key stands at a place.
pub(crate) fn has_key(pairs: &[Pair], at: usize, key: &MapKey) -> bool
    ensures value { result ≡ has_key key.now (slice_get (map pair_view pairs.now) at) }
    ensures there { IsTrue result → at < length pairs.now }
{
    match pair_at(pairs, at) {
        Some(pair) => key.is_same(&pair.key),
        None => false,
    }
}

// The value of a key among entries whose keys rise.
fn value_of<'a>(pairs: &'a [Pair], key: &MapKey) -> Option<&'a Value>
    requires { Rising (map pair_view pairs.now) }
    ensures { option_map view (option_copied result) ≡ value_of_key key.now (map pair_view pairs.now) }
{
    let at = entry_place(pairs, key);
    if has_key(pairs, at, key) {
        Some(&pairs[at].value)
    } else {
        None
    }
}

// The size of the values with this one of a key, which has a place.
pub(crate) fn size_put(pairs: &[Pair], size: Size, at: usize, key: &MapKey, value: &Value) -> Size
    requires place { at ≡ entry_place key.now (map pair_view pairs.now) }
    requires sized { IsSized (whole (pairs_of (map pair_view pairs.now))) size }
    ensures weight { result.weight ≡ pairs_weight (pairs_of (with_entry key.now (view value.now) (map pair_view pairs.now))) }
    ensures nesting { result.nesting ≡ pairs_nesting (pairs_of (with_entry key.now (view value.now) (map pair_view pairs.now))) }
    ensures value { IsValue (view value.now) }
{
    if has_key(pairs, at, key) {
        size_with(pairs, size, at, value)
    } else {
        size.with(value)
    }
}

// The entries with this value of a key, which has a place.
pub(crate) fn put_entry(
    pairs: &mut Vec<Pair>,
    at: usize,
    key: MapKey,
    value: Value,
) -> Result<(), NoMemory>
    requires { at ≡ entry_place key (map pair_view pairs.old.items) }
    ensures ok { OnOk result (map pair_view pairs.new.items ≡ with_entry key (view value) (map pair_view pairs.old.items)) }
    ensures err { OnErr result (pairs.new.items ≡ pairs.old.items) }
{
    if has_key(pairs, at, &key) {
        pairs[at] = Pair { key, value };
        return Ok(());
    }
    pairs.insert(at, Pair { key, value })?;
    Ok(())
}

impl ValueMap {
    /// The empty dictionary.
    pub fn new(alloc: Global) -> Result<ValueMap, NoMemory>
        ensures { IfOk result (λ dict. dict ≡ []) }
    {
        Ok(ValueMap {
            pairs: Vec::new(alloc),
            size: Size {
                weight: 0,
                nesting: 0,
            },
        })
    }

    /// Its pairs, by rising key.
    pub fn as_slice(&self) -> &[Pair]
        ensures pairs { map pair_view result.now ≡ self.now }
        ensures most { length result.now ≤ 65535 }
    {
        &self.pairs
    }

    /// What its values weigh together, and how deep the deepest of them is.
    pub fn size(&self) -> Size
        ensures sized { IsSized (whole (pairs_of self.now)) result }
        ensures most { (result.weight ≤ 65535) × (result.nesting ≤ 63) }
    {
        self.size
    }

    /// The count of its entries.
    pub fn len(&self) -> usize
        ensures { result ≡ length self.now }
    {
        self.pairs.len()
    }

    /// The value of a key; `None` exactly where the key has none.
    pub fn get(&self, key: &MapKey) -> Option<&Value>
        ensures { option_map view (option_copied result) ≡ value_of_key key.now self.now }
    {
        value_of(&self.pairs, key)
    }

    /// Gives a key a value, in place of the one that it has; a new key goes before the first greater one. `TooHeavy` comes exactly where the
    /// dictionary would be heavier than a value may be, or nested deeper. After an error the dictionary is as before, and key and value are
    /// dropped.
    pub fn put(&mut self, key: MapKey, value: Value) -> Result<(), ValueFault>
        ensures entries { Becomes (λ es. whole (pairs_of es)) (with_entry key (view value) self.old) self.old self.new result }
        ensures found { OnOk result (value_of_key key self.new ≡ Some (view value)) }
        ensures others { OnOk result ((k : Key) → key_same k key ≡ false → value_of_key k self.new ≡ value_of_key k self.old) }
    {
        let at = entry_place(&self.pairs, &key);
        let size = size_put(&self.pairs, self.size, at, &key, &value);
        if !size.fits() {
            return Err(ValueFault::TooHeavy);
        }
        put_entry(&mut self.pairs, at, key, value)?;
        self.size = size;
        Ok(())
    }

    /// A dictionary of the same entries, each of whose values shares what it can with the one here.
    pub fn copy(&self, alloc: Global) -> Result<ValueMap, NoMemory>
        ensures { IfOk result (λ dict. dict ≡ self.now) }
    {
        let pairs = copy_pairs(alloc, &self.pairs)?;
        Ok(ValueMap {
            pairs,
            size: self.size,
        })
    }

    /// The dictionary itself where nobody else shares it, else a copy, for writing. No sharer sees what is written.
    pub fn unshare(shared: Arc<ValueMap>, alloc: Global) -> Result<ValueMap, NoMemory>
        ensures { IfOk result (λ dict. dict ≡ arc_value shared) }
    {
        match Arc::try_unwrap(shared) {
            Ok(dict) => Ok(dict),
            Err(shared) => shared.copy(alloc),
        }
    }
}
