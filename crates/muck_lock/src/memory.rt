// Objects and names in memory.
ghost use Rattle.std.specs.Prelude.{◌≡◌, ◌<◌, ◌≤◌, ◌^◌, ◌&&◌, length, drop, slice_get, bytes_eq, IfSome, IfNone};
ghost use Rattle.std.specs.Option.{option_copied};
ghost use Rattle.std.specs.List.{find, list_any};
ghost use Rattle.muck_lock.specs.inner.Chain.{same};
ghost use Rattle.muck_lock.specs.inner.Memory.{index_at, object_at, first_in, next_at, is_prop};

use crate::key::Finder;
use crate::keys::Keys;
use muck_model::{Dbref, Line, Row};
use std::marker::Model;

const NOTHING: Dbref = Dbref(-1);

/// A property of an object in memory, with its path as it is asked for.
#[derive(Drop)]
pub struct MemProp {
    pub path: Line,
    pub value: Line,
}

/// An object in memory.
#[derive(Drop)]
pub struct MemObject {
    pub owner: Dbref,
    pub place: Dbref,
    pub props: Row<MemProp>,
}

/// Objects in memory: `#0` is the first of them. Those with one place stand there in the order of their numbers.
#[derive(Drop)]
pub struct MemKeys {
    objects: Row<MemObject>,
}

impl Model for MemKeys {
    ghost use Rattle.std.specs.Prelude.{List, ◌<◌, ◌^◌, length};
    ghost use Rattle.muck_lock.specs.declared.memory.MemObject.{MemObject};

    ghost Value = { List MemObject };

    ghost view = { λ k. k.objects };

    ghost invariant = { λ k. length k.objects < 2 ^ 31 };
}

fn index_of(d: Dbref) -> Option<usize>
    ensures { result ≡ index_at d.0 }
{
    if d.0 < 0 {
        return None;
    }
    Some(d.0 as usize)
}

// The first from that index on whose place is d.
fn first_in(objects: &[MemObject], d: Dbref, from: usize) -> Dbref
    requires few { length objects.now < 2 ^ 31 }
    requires inside { from ≤ length objects.now }
    ensures { result ≡ first_in d from (drop from objects.now) }
{
    for k in from..objects.len() {
        if objects[k].place == d {
            return Dbref(k as i32);
        }
    }
    NOTHING
}

// The first behind the object of that index that stands where it stands.
fn next_behind(objects: &[MemObject], at: usize) -> Dbref
    requires { length objects.now < 2 ^ 31 }
    ensures { result ≡ next_at objects.now at (slice_get objects.now at) }
{
    match objects.get(at) {
        Some(object) => first_in(objects, object.place, at + 1),
        None => NOTHING,
    }
}

fn has_prop(props: &[MemProp], path: &Line, value: &Line) -> bool
    ensures { result ≡ list_any (is_prop path.now value.now) props.now }
{
    props.iter().any(|p| p.path == *path && p.value == *value)
}

impl MemKeys {
    /// These objects; `None` exactly where they are more than numbers.
    pub fn of(objects: Row<MemObject>) -> Option<MemKeys>
        ensures some { IfSome result (λ keys. keys ≡ objects) }
        ensures none { IfNone result (2 ^ 31 ≤ length objects) }
    {
        if objects.len() >= 1 << 31 {
            return None;
        }
        Some(MemKeys { objects })
    }

    fn get(&self, d: Dbref) -> Option<&MemObject>
        ensures { option_copied result ≡ object_at self.now d }
    {
        let at = index_of(d)?;
        self.objects.get(at)
    }
}

impl Keys for MemKeys {
    ghost use Rattle.std.specs.Prelude.{◌≡◌};
    ghost use Rattle.std.specs.Option.{option_map};
    ghost use Rattle.muck_lock.specs.inner.Memory.{object_at, first_in, next_of, standing_in, has_prop};

    ghost owners = { λ objects d. option_map (λ o. o.owner) (object_at objects d) };

    ghost places = { λ objects d. option_map (λ o. o.place) (object_at objects d) };

    ghost firsts = { λ objects d. first_in d 0 objects };

    ghost nexts = { next_of };

    ghost contents = { λ objects d. standing_in d 0 objects };

    ghost has = { has_prop };

    fn owner(&self, d: Dbref) -> Option<Dbref> {
        Some(self.get(d)?.owner)
    }

    fn place(&self, d: Dbref) -> Option<Dbref> {
        Some(self.get(d)?.place)
    }

    #[tactic(auto, using(crate::specs::inner::Standing::chained))]
    fn first(&self, d: Dbref) -> Dbref {
        first_in(self.objects.as_slice(), d, 0)
    }

    fn next(&self, d: Dbref) -> Dbref {
        match index_of(d) {
            Some(at) => next_behind(self.objects.as_slice(), at),
            None => NOTHING,
        }
    }

    fn prop_is(&self, d: Dbref, path: &Line, value: &Line) -> bool {
        match self.get(d) {
            Some(object) => has_prop(object.props.as_slice(), path, value),
            None => false,
        }
    }
}

/// A name in memory, with its object and whether that is a program.
#[derive(Drop)]
pub struct MemName {
    pub name: Line,
    pub object: Dbref,
    pub program: bool,
}

/// Names in memory: the first of equal ones counts. No other object is a program.
#[derive(Drop)]
pub struct MemNames {
    names: Row<MemName>,
}

impl Model for MemNames {
    ghost use Rattle.std.specs.Prelude.{List};
    ghost use Rattle.muck_lock.specs.declared.memory.MemName.{MemName};

    ghost Value = { List MemName };

    ghost view = { λ n. n.names };
}

impl MemNames {
    /// These names.
    pub fn of(names: Row<MemName>) -> MemNames
        ensures { result ≡ names }
    {
        MemNames { names }
    }
}

// The first entry with that name.
fn entry_of<'a>(names: &'a [MemName], name: &Line) -> Option<&'a MemName>
    ensures { option_copied result ≡ find (λ n. bytes_eq n.name name.now) names.now }
{
    names.iter().find(|n| n.name == *name)
}

fn is_program_in(names: &[MemName], d: Dbref) -> bool
    ensures { result ≡ list_any (λ n. n.program && same n.object d) names.now }
{
    names.iter().any(|n| n.program && n.object == d)
}

impl Finder for MemNames {
    ghost use Rattle.std.specs.Prelude.{◌&&◌};
    ghost use Rattle.std.specs.List.{list_any};
    ghost use Rattle.muck_lock.specs.inner.Chain.{same};
    ghost use Rattle.muck_lock.specs.inner.Memory.{object_named};

    ghost found = { object_named };

    ghost programs = { λ names d. list_any (λ n. n.program && same n.object d) names };

    fn find(&self, name: &Line) -> Option<Dbref> {
        Some(entry_of(self.names.as_slice(), name)?.object)
    }

    fn is_program(&self, d: Dbref) -> bool {
        is_program_in(self.names.as_slice(), d)
    }
}

/// No names at all, and no programs: with these a text is read that is made of numbers of objects and properties.
#[derive(Clone, Copy, Debug, PartialEq, Eq)]
pub struct NoNames;

impl Finder for NoNames {
    ghost use Rattle.std.specs.Prelude.{None, false};

    ghost found = { λ names name. None };

    ghost programs = { λ names d. false };

    fn find(&self, _: &Line) -> Option<Dbref> {
        None
    }

    fn is_program(&self, _: Dbref) -> bool {
        false
    }
}
