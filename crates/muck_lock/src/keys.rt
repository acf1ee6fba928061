// What keys are tried on, and for whom a lock opens.
ghost use Rattle.std.specs.Prelude.{◌≡◌, ℕ, Bool, List, Option};
ghost use Rattle.std.specs.List.{list_any};
ghost use Rattle.muck_model.specs.declared.dbref.Dbref.{Dbref};
ghost use Rattle.muck_lock.specs.inner.Chain.{IsChain, same};
ghost use Rattle.muck_lock.specs.Opens.{holdings, object_opens, property_opens, opens_for};

use muck_model::{Dbref, Line, Lock};

const NOTHING: Dbref = Dbref(-1);

/// The objects that keys are tried on. No call wants memory: what it takes to be quick it does without where there is none.
pub trait Keys {
    ghost owners: { Self → Dbref → Option Dbref };

    ghost places: { Self → Dbref → Option Dbref };

    ghost firsts: { Self → Dbref → Dbref };

    ghost nexts: { Self → Dbref → Dbref };

    ghost contents: { Self → Dbref → List Dbref };

    ghost has: { Self → Dbref → List ℕ → List ℕ → Bool };

    /// The owner of an object; `None` exactly where it isn't there or is garbage.
    fn owner(&self, d: Dbref) -> Option<Dbref>
        ensures { result ≡ owners self.now d };

    /// The place of an object; `None` exactly where it isn't there or is garbage.
    fn place(&self, d: Dbref) -> Option<Dbref>
        ensures { result ≡ places self.now d };

    /// The first of the contents of an object, `#-1` where it has none. They are a finite list, which begins there and
    /// goes on by the next.
    fn first(&self, d: Dbref) -> Dbref
        ensures value { result ≡ firsts self.now d }
        ensures chained { IsChain (nexts self.now) (firsts self.now d) (contents self.now d) };

    /// The one after an object in its list of contents, `#-1` at the end.
    fn next(&self, d: Dbref) -> Dbref
        ensures { result ≡ nexts self.now d };

    /// Whether the property of that path of an object has that text, or that integer in decimal.
    fn prop_is(&self, d: Dbref, path: &Line, value: &Line) -> bool
        ensures { result ≡ has self.now d path.now value.now };
}

// Whether something among the contents of an object passes.
pub fn carries_any<K: Keys, F: Fn(Dbref) -> bool>(keys: &K, x: Dbref, passes: F) -> bool
    requires { F.IsAlwaysCallable passes }
    ensures { (test : Dbref → Bool) → ((d : Dbref) (r : Bool) → F.post passes d r → r ≡ test d) → result ≡ list_any test (K.contents keys.now x) }
{
    let mut d = keys.first(x);
    while d != NOTHING {
        if passes(d) {
            return true;
        }
        d = keys.next(d);
    }
    false
}

// Whether an object has that one among its contents.
fn carries<K: Keys>(keys: &K, x: Dbref, n: Dbref) -> bool
    ensures { result ≡ list_any (λ d. same d n) (K.contents keys.now x) }
{
    carries_any(keys, x, |d| d == n)
}

// Whether something among the contents of an object has that property with that value.
fn carries_property<K: Keys>(keys: &K, path: &Line, value: &Line, x: Dbref) -> bool
    ensures { result ≡ list_any (λ d. K.has keys.now d path.now value.now) (K.contents keys.now x) }
{
    carries_any(keys, x, |d| keys.prop_is(d, path, value))
}

// Whether the key of an object opens for x.
pub fn object_opens<K: Keys>(keys: &K, n: Dbref, x: Dbref) -> bool
    ensures { result ≡ object_opens (holdings (K.owners keys.now) (K.places keys.now) (K.contents keys.now) (K.has keys.now)) n x }
{
    x == n
        || matches!(keys.owner(x), Some(d) if d == n)
        || carries(keys, x, n)
        || matches!(keys.place(x), Some(d) if d == n)
}

// Whether the key of a property opens for x.
fn property_opens<K: Keys>(keys: &K, path: &Line, value: &Line, x: Dbref) -> bool
    ensures { result ≡ property_opens (holdings (K.owners keys.now) (K.places keys.now) (K.contents keys.now) (K.has keys.now)) path.now value.now x }
{
    keys.prop_is(x, path, value) || carries_property(keys, path, value, x)
}

/// Whether a lock opens for an object. A key `#N` opens for x where x is `#N`, its owner is `#N`, it carries `#N` or its
/// place is `#N`; a property with a value opens where x, or something that x carries, has it. Nothing deeper is looked
/// at. It takes no memory, and goes as deep as the lock is nested.
pub fn opens<K: Keys>(lock: &Lock, keys: &K, x: Dbref) -> bool
    ensures { result ≡ opens_for (holdings (K.owners keys.now) (K.places keys.now) (K.contents keys.now) (K.has keys.now)) lock.now x }
{
    match lock {
        Lock::Free => true,
        Lock::Object(n) => object_opens(keys, *n, x),
        Lock::Prop { path, value } => property_opens(keys, path, value, x),
        Lock::Not(a) => !opens(a.get(), keys, x),
        Lock::Both(a, b) => opens(a.get(), keys, x) && opens(b.get(), keys, x),
        Lock::Either(a, b) => opens(a.get(), keys, x) || opens(b.get(), keys, x),
    }
}
