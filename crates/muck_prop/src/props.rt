// The properties of one object.
ghost use Rattle.std.specs.Prelude.{◌≡◌, ◌<◌, map as mapped, [], Some, None, IfOk, IfSome, OnOk, OnErr, is_some, is_ok, true, false, length, ◌≤◌, Ok, Err, List, ℕ, if◌then◌else◌};
ghost use Rattle.std.specs.Option.{option_copied, option_map_or, unwrap_or};
ghost use Rattle.std.specs.FinMap as map;
ghost use Rattle.std.specs.Range.Bound.{bound_map};
ghost use Rattle.std.specs.List.{AllByRecursion, find, filter};
ghost use Rattle.muck_prop.specs.Paths.{IsPath, segments_of, path_fault};
ghost use Rattle.std.specs.Map.{keys_of, lookup};
ghost use Rattle.std.specs.BTreeMap.{IsOrdered, is_at};
ghost use Rattle.std.specs.BTreeMap.Range.{is_from_start};
ghost use Rattle.muck_prop.specs.Order.{path_cmp, path_eq, is_below};
ghost use Rattle.muck_prop.specs.Store.{value_stored, is_dir, next_child, found_child, path_or_top, is_nothing, IsKept, IsLeastChild, path_behind, listed_below};

use crate::path::{Path, has_barred};
use crate::segments::Segments;
use crate::value::{Kept, PropValue};
use crate::walk::Walk;
use muck_model::{Line, NoMemory, Row};
use std::alloc::Global;
use std::collections::BTreeMap;
use std::marker::Model;
use std::ops::Bound;

// So many properties are gone over as quickly as one is searched for.
const FEW: usize = 8;

/// A property below a directory: the rest of its path behind the directory, and what it holds.
#[derive(Drop)]
pub struct Listed {
    /// The rest of its path.
    pub rest: Path,
    /// What it holds.
    pub value: PropValue,
}

/// The properties of one object, which contracts see as the map from paths to values. No kept value is an empty text
/// or 0.
#[derive(Drop)]
pub struct Props {
    alloc: Global,
    values: BTreeMap<Segments, Kept>,
}

impl Model for Props {
    ghost use Rattle.std.specs.FinMap as map;
    ghost use Rattle.muck_prop.specs.Store.{PropMap};
    ghost use Rattle.std.specs.Coded.{coded_list, coded_ℕ};
    ghost use Rattle.muck_prop.specs.contracts.value.PropValue as value;

    ghost Value = { PropMap };

    ghost coded = { map.code (coded_list (coded_list coded_ℕ)) value.the_row.coded };

    ghost use Rattle.std.specs.List.{AllByRecursion};
    ghost use Rattle.muck_prop.specs.Store.{IsKept};

    ghost view = { λ p. map.from_entries p.values.entries };

    ghost invariant = { λ p. AllByRecursion IsKept p.values.entries };
}

// The first path within a start.
fn first_from<'a>(
    values: &'a BTreeMap<Segments, Kept>,
    start: Bound<&Segments>,
) -> Option<&'a Segments>
    ensures first { option_copied result ≡ find (is_from_start path_cmp (bound_map (λ x. x.now) start.entry)) (keys_of values.now.entries) }
    ensures kept { AllByRecursion IsKept values.now.entries → IfSome result (λ path. IsPath path.now) }
    ensures ordered { IsOrdered path_cmp values.now }
{
    let mut range = values.range((start, Bound::Unbounded));
    match range.next() {
        Some((path, _)) => Some(path),
        None => None,
    }
}

// The first stored path that may lead to the next child of `dir`: the first past all that continues the child of `dir`
// on the way to `after`, or the first right after `dir` where no child of it is up to `after`.
fn first_past<'a>(
    alloc: Global,
    values: &'a BTreeMap<Segments, Kept>,
    dir: &Segments,
    after: Option<&Path>,
) -> Result<Option<&'a Segments>, NoMemory>
    requires { length dir.now ≤ 16 }
    ensures leads { IfOk result (λ first. found_child dir.now (option_copied first) ≡ next_child dir.now (option_copied after.entry) (map.from_entries values.now.entries)) }
    ensures kept { AllByRecursion IsKept values.now.entries → IfOk result (λ first. IfSome first (λ path. IsPath path.now)) }
{
    match after {
        Some(after) if dir.cmp(&after.segments).is_lt() => {
            let past = after.segments.past(alloc, dir.len() + 1)?;
            Ok(first_from(values, Bound::Included(&past)))
        }
        _ => Ok(first_from(values, Bound::Excluded(dir))),
    }
}

// The value at the path that a text holds, by going over all properties. It takes no memory.
fn walked_to<'a>(values: &'a BTreeMap<Segments, Kept>, text: &[u8]) -> Option<&'a PropValue>
    ensures { option_copied result ≡ lookup (λ path. path_eq path (segments_of text.now)) values.now.entries }
{
    let mut left = values.iter();
    while let Some((path, value)) = left.next() {
        if path.is_text(text) {
            return Some(value.value());
        }
    }
    None
}

// The value at a path.
fn searched<'a>(values: &'a BTreeMap<Segments, Kept>, path: &Segments) -> Option<&'a PropValue>
    ensures { option_copied result ≡ lookup (is_at (path_cmp path.now)) values.now.entries }
{
    match values.get(path) {
        Some(kept) => Some(kept.value()),
        None => None,
    }
}

// The value at the path that a text holds, by one search.
fn found_at<'a>(
    alloc: Global,
    values: &'a BTreeMap<Segments, Kept>,
    text: &[u8],
) -> Option<&'a PropValue>
    ensures { option_copied result ≡ lookup (λ path. path_eq path (segments_of text.now)) values.now.entries }
{
    if values.len() <= FEW {
        return walked_to(values, text);
    }
    match Segments::of_text(alloc, text) {
        Ok(path) => searched(values, &path),
        Err(_) => walked_to(values, text),
    }
}

// Puts a value at a path that has none.
fn put_new(
    alloc: Global,
    values: &mut BTreeMap<Segments, Kept>,
    path: Segments,
    value: PropValue,
) -> Result<(), NoMemory>
    ensures kept { AllByRecursion IsKept values.old.entries → IsKept (path, value) → AllByRecursion IsKept values.new.entries }
    ensures updates { OnOk result ((q : List (List ℕ)) → lookup (is_at (path_cmp q)) values.new.entries ≡ if is_at (path_cmp path) q then Some value else lookup (is_at (path_cmp q)) values.old.entries) }
    ensures unchanged { OnErr result (values.new.entries ≡ values.old.entries) }
{
    let kept = Kept::new(alloc, value)?;
    values.insert(path, kept)?;
    Ok(())
}

// Puts a value at a path, without memory where the path has one.
fn put_at(
    alloc: Global,
    values: &mut BTreeMap<Segments, Kept>,
    path: Segments,
    value: PropValue,
) -> Result<(), NoMemory>
    ensures updates { OnOk result ((q : List (List ℕ)) → lookup (is_at (path_cmp q)) values.new.entries ≡ if is_at (path_cmp path) q then Some value else lookup (is_at (path_cmp q)) values.old.entries) }
    ensures kept { AllByRecursion IsKept values.old.entries → IsKept (path, value) → AllByRecursion IsKept values.new.entries }
    ensures unchanged { OnErr result (values.new.entries ≡ values.old.entries) }
    ensures absent { OnErr result (lookup (is_at (path_cmp path)) values.old.entries ≡ None) }
{
    match values.get_mut(&path) {
        Some(kept) => {
            kept.set(value);
            Ok(())
        }
        None => put_new(alloc, values, path, value),
    }
}

// A property, behind the first `depth` segments of its path.
fn behind(
    alloc: Global,
    path: &Segments,
    depth: usize,
    value: &PropValue,
) -> Result<Listed, NoMemory>
    requires kept { IsPath path.now }
    requires deeper { depth < length path.now }
    ensures { IfOk result (λ listed. listed ≡ path_behind depth (path.now, value.now)) }
{
    let segments = path.rest(alloc, depth)?;
    let value = value.copy(alloc)?;
    let rest = Path { segments };
    Ok(Listed { rest, value })
}

// The properties below a directory, in the order of their paths. They stand together, right after the directory.
fn all_below(
    alloc: Global,
    values: &BTreeMap<Segments, Kept>,
    dir: &Segments,
) -> Result<Row<Listed>, NoMemory>
    requires kept { AllByRecursion IsKept values.now.entries }
    ensures list { IfOk result (λ list. list ≡ mapped (path_behind (length dir.now)) (filter (λ e. is_below dir.now e.0) values.now.entries)) }
    ensures ordered { IsOrdered path_cmp values.now }
{
    let depth = dir.len();
    let mut left = values.range((Bound::Excluded(dir), Bound::Unbounded));
    let mut list = Row::new(alloc)?;
    while let Some((path, value)) = left.next() {
        if !path.is_below(dir) {
            return Ok(list);
        }
        list.push(behind(alloc, path, depth, value.value())?)?;
    }
    Ok(list)
}

impl Props {
    /// No properties.
    pub fn new(alloc: Global) -> Result<Props, NoMemory>
        ensures { IfOk result (λ p. p ≡ map.empty) }
    {
        Ok(Props {
            alloc,
            values: BTreeMap::new(alloc),
        })
    }

    /// The value at a path, which is no empty text and not 0.
    pub fn get(&self, path: &Path) -> Option<&PropValue>
        ensures value { option_copied result ≡ map.get self.now path.now }
        ensures something { IfSome result (λ value. is_nothing value.now ≡ false) }
    {
        searched(&self.values, &path.segments)
    }

    /// The value at the path that a text holds; `None` also where the text is no path. It is one search, and wants no
    /// memory: where there is none for the path, it goes over all properties.
    pub fn get_at(&self, text: &Line) -> Option<&PropValue>
        ensures { option_copied result ≡ option_map_or (λ fault. None) (path_fault text.now) (map.get self.now (segments_of text.now)) }
    {
        self.get_bytes(text.as_slice())
    }

    /// The same of the bytes of a text.
    pub fn get_bytes(&self, text: &[u8]) -> Option<&PropValue>
        ensures { option_copied result ≡ option_map_or (λ fault. None) (path_fault text.now) (map.get self.now (segments_of text.now)) }
    {
        if has_barred(text) {
            return None;
        }
        found_at(self.alloc, &self.values, text)
    }

    /// Whether some stored path continues this one.
    pub fn is_dir(&self, path: &Path) -> bool
        ensures { result ≡ is_dir path.now self.now }
    {
        match first_from(&self.values, Bound::Excluded(&path.segments)) {
            Some(first) => first.is_below(&path.segments),
            None => false,
        }
    }

    /// The properties below a directory, in the order of their paths: those whose paths continue it. It is one search
    /// and a step for each of them.
    pub fn below(&self, alloc: Global, dir: &Path) -> Result<Row<Listed>, NoMemory>
        ensures { IfOk result (λ list. list ≡ listed_below dir.now self.now) }
    {
        let list = all_below(alloc, &self.values, &dir.segments)?;
        Ok(list)
    }

    /// All properties, each copied, in the order of their paths. Each path is one, and no value is an empty text or 0.
    pub fn all(&self, alloc: Global) -> Result<Row<Listed>, NoMemory>
        ensures list { IfOk result (λ list. list ≡ mapped (path_behind 0) (map.entries self.now)) }
        ensures kept { OnOk result (AllByRecursion IsKept (map.entries self.now)) }
    {
        let top = Segments::new(alloc)?;
        let list = all_below(alloc, &self.values, &top)?;
        Ok(list)
    }

    /// A walk over all properties, in the order of their paths. It takes no memory.
    pub fn walk(&self) -> Walk<'_>
        ensures { result ≡ map.entries self.now }
    {
        Walk::new(&self.values)
    }

    /// Removes the property of a path. It is true exactly where the path had a value.
    pub fn remove(&mut self, path: &Path) -> bool
        ensures had { result ≡ is_some (map.get self.old path.now) }
        ensures removed { self.new ≡ map.remove self.old path.now }
    {
        self.values.remove(&path.segments).is_some()
    }

    /// Stores a value at a path; an empty text or 0 removes the property. After `NoMemory`, which comes only for a path
    /// without a value, nothing has changed.
    pub fn put(&mut self, path: Path, value: PropValue) -> Result<(), NoMemory>
        ensures ok { OnOk result (self.new ≡ value_stored path value self.old) }
        ensures err { OnErr result (self.new ≡ self.old) }
        ensures only_new { OnErr result (map.get self.old path ≡ None) }
        ensures removes { is_nothing value ≡ true → is_ok result ≡ true }
    {
        if value.is_nothing() {
            self.remove(&path);
            return Ok(());
        }
        let Path { segments } = path;
        put_at(self.alloc, &mut self.values, segments, value)?;
        Ok(())
    }

    /// The least child path of `dir` after `after`, or the least of all where none is given. A child is one segment
    /// longer than `dir`, and has a value or is a directory. Where `dir` isn't given, the top is meant.
    pub fn next(
        &self,
        alloc: Global,
        dir: Option<&Path>,
        after: Option<&Path>,
    ) -> Result<Option<Path>, NoMemory>
        ensures next { IfOk result (λ child. child ≡ next_child (path_or_top (option_copied dir.entry)) (option_copied after.entry) self.now) }
        ensures least { IfOk result (λ child. IsLeastChild self.now (path_or_top (option_copied dir.entry)) (option_copied after.entry) child) }
    {
        let child = self.search(alloc, dir, after)?;
        Ok(child)
    }

    fn search(
        &self,
        alloc: Global,
        dir: Option<&Path>,
        after: Option<&Path>,
    ) -> Result<Option<Path>, NoMemory>
        ensures { IfOk result (λ child. child ≡ next_child (path_or_top (option_copied dir.entry)) (option_copied after.entry) self.now) }
    {
        let top = Segments::new(alloc)?;
        let dir = match dir {
            Some(path) => &path.segments,
            None => &top,
        };
        let depth = dir.len();
        match first_past(alloc, &self.values, dir, after)? {
            Some(first) if first.is_below(dir) => {
                let segments = first.first(alloc, depth + 1)?;
                Ok(Some(Path { segments }))
            }
            _ => Ok(None),
        }
    }
}
