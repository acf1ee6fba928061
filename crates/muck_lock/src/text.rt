// For whom the text of a lock opens, without memory.
ghost use Rattle.std.specs.Prelude.{◌≡◌, ◌<◌, ◌≤◌, ◌^◌, ◌∷◌, not, Ok, Some, None, List, Bool, ℕ, length, drop};
ghost use Rattle.std.specs.Option.{option_map, option_and_then};
ghost use Rattle.std.specs.List.{before_first, list_any, position, position_or_len};
ghost use Rattle.muck_lock.specs.Grammar.{ends_key, is_colon, object_key, lock_key_of, property_key};
ghost use Rattle.muck_lock.specs.declared.part.Part.{Part};
ghost use Rattle.muck_lock.specs.Opens.{holdings, property_opens, opens_for};
ghost use Rattle.muck_lock.specs.Answers.{no_names, text_opens};
ghost use Rattle.muck_lock.specs.inner.Answers.{seen, key_answer, negated_answer, closed_answer, behind, term_answer, all_answer, one_answer, part_answer, whole_opens};

use crate::key::key_end;
use crate::keys::{Keys, carries_any, object_opens};
use crate::part::Part;
use crate::path::is_path;
use muck_model::{Dbref, Line, byte_at};

/// Keys whose properties are asked for by bytes, so that the text of a lock can be tried without memory.
pub trait TextKeys: Keys {
    /// Whether the property of that path of an object has that text, or that integer in decimal.
    fn text_is(&self, d: Dbref, path: &[u8], value: &[u8]) -> bool
        ensures { result ≡ Self.Keys.has self.now d path.now value.now };
}

// Whether something among the contents of an object has that property with that value.
fn carries_text<K: TextKeys>(keys: &K, path: &[u8], value: &[u8], x: Dbref) -> bool
    ensures { result ≡ list_any (λ d. K.Keys.has keys.now d path.now value.now) (K.Keys.contents keys.now x) }
{
    carries_any(keys, x, |d| keys.text_is(d, path, value))
}

// Whether the key of a property opens for x.
fn text_property_opens<K: TextKeys>(keys: &K, path: &[u8], value: &[u8], x: Dbref) -> bool
    ensures { result ≡ property_opens (holdings (K.Keys.owners keys.now) (K.Keys.places keys.now) (K.Keys.contents keys.now) (K.Keys.has keys.now)) path.now value.now x }
{
    keys.text_is(x, path, value) || carries_text(keys, path, value, x)
}

// The same of a key as it is written; none where its path is none.
#[tactic(auto, using(crate::proofs::Texts::answers))]
fn property_answer<K: TextKeys>(keys: &K, path: &[u8], value: &[u8], x: Dbref) -> Option<bool>
    ensures { result ≡ option_map (λ lock. opens_for (holdings (K.Keys.owners keys.now) (K.Keys.places keys.now) (K.Keys.contents keys.now) (K.Keys.has keys.now)) lock x) (property_key path.now value.now) }
{
    if !is_path(path) {
        return None;
    }
    Some(text_property_opens(keys, path, value, x))
}

// Whether an object as a key opens for x.
#[tactic(auto, using(crate::proofs::Texts::answers))]
fn object_answer<K: TextKeys>(keys: &K, d: Option<Dbref>, x: Dbref) -> Option<bool>
    ensures { result ≡ option_map (λ lock. opens_for (holdings (K.Keys.owners keys.now) (K.Keys.places keys.now) (K.Keys.contents keys.now) (K.Keys.has keys.now)) lock x) (object_key no_names d) }
{
    match d {
        None => None,
        Some(n) => Some(object_opens(keys, n, x)),
    }
}

// Whether a key opens for x; none where it names something.
fn key_opens<K: TextKeys>(keys: &K, key: &[u8], x: Dbref) -> Option<bool>
    ensures { result ≡ option_map (λ lock. opens_for (holdings (K.Keys.owners keys.now) (K.Keys.places keys.now) (K.Keys.contents keys.now) (K.Keys.has keys.now)) lock x) (lock_key_of no_names key.now) }
{
    let (first, _) = key.split_first()?;
    if *first == b'#' {
        return object_answer(keys, Dbref::read(key), x);
    }
    if *first == b'*' {
        return None;
    }
    match byte_at(key, b':') {
        None => None,
        Some(at) => property_answer(keys, key.split_at(at).0, key.split_at(at + 1).1, x),
    }
}

// The same of the key that begins the text, with the bytes behind it.
#[tactic(auto, unfolding(crate::specs::inner::Answers::key_answer))]
fn key_first<'a, K: TextKeys>(keys: &K, text: &'a [u8], x: Dbref) -> Option<(bool, &'a [u8])>
    ensures { seen result ≡ key_answer (holdings (K.Keys.owners keys.now) (K.Keys.places keys.now) (K.Keys.contents keys.now) (K.Keys.has keys.now)) x text.now }
{
    let (key, rest) = text.split_at(key_end(text));
    let opens = key_opens(keys, key, x)?;
    Some((opens, rest))
}

// The other answer.
fn negated(answer: Option<(bool, &[u8])>) -> Option<(bool, &[u8])>
    ensures { seen result ≡ negated_answer (seen answer.entry) }
{
    let (opens, rest) = answer?;
    Some((!opens, rest))
}

// The answer, where a `)` stands behind it.
fn closed(answer: Option<(bool, &[u8])>) -> Option<(bool, &[u8])>
    ensures { seen result ≡ closed_answer (seen answer.entry) }
{
    let (opens, rest) = answer?;
    let (first, more) = rest.split_first()?;
    if *first == b')' {
        Some((opens, more))
    } else {
        None
    }
}

// What stands behind the sign, where it comes next.
fn behind(sign: u8, rest: &[u8]) -> Option<&[u8]>
    ensures { option_map (λ text. text.now) result ≡ behind sign rest.now }
{
    let (first, more) = rest.split_first()?;
    if *first == sign { Some(more) } else { None }
}

// Whether a term that begins the text opens for x; parts inside are nested less deeply than the number says.
#[cycle(parts)]
fn term_answer<'a, K: TextKeys>(
    keys: &K,
    x: Dbref,
    depth: usize,
    text: &'a [u8],
) -> Option<(bool, &'a [u8])>
    ensures { seen result ≡ term_answer (holdings (K.Keys.owners keys.now) (K.Keys.places keys.now) (K.Keys.contents keys.now) (K.Keys.has keys.now)) x (part_answer (holdings (K.Keys.owners keys.now) (K.Keys.places keys.now) (K.Keys.contents keys.now) (K.Keys.has keys.now)) x depth) text.now }
{
    let (first, more) = text.split_first()?;
    if *first == b'!' {
        return negated(part_answer(keys, x, depth, Part::Term, more));
    }
    if *first == b'(' {
        return closed(part_answer(keys, x, depth, Part::OneOf, more));
    }
    key_first(keys, text, x)
}

// The same of terms with `&` between.
#[cycle(parts)]
fn all_answer<'a, K: TextKeys>(
    keys: &K,
    x: Dbref,
    depth: usize,
    text: &'a [u8],
) -> Option<(bool, &'a [u8])>
    ensures { seen result ≡ all_answer (holdings (K.Keys.owners keys.now) (K.Keys.places keys.now) (K.Keys.contents keys.now) (K.Keys.has keys.now)) x (part_answer (holdings (K.Keys.owners keys.now) (K.Keys.places keys.now) (K.Keys.contents keys.now) (K.Keys.has keys.now)) x depth) text.now }
{
    let (opens, rest) = term_answer(keys, x, depth, text)?;
    let Some(next) = behind(b'&', rest) else {
        return Some((opens, rest));
    };
    let (others, rest) = part_answer(keys, x, depth, Part::AllOf, next)?;
    Some((opens && others, rest))
}

// The same of those with `|` between.
#[cycle(parts)]
fn one_answer<'a, K: TextKeys>(
    keys: &K,
    x: Dbref,
    depth: usize,
    text: &'a [u8],
) -> Option<(bool, &'a [u8])>
    ensures { seen result ≡ one_answer (holdings (K.Keys.owners keys.now) (K.Keys.places keys.now) (K.Keys.contents keys.now) (K.Keys.has keys.now)) x (part_answer (holdings (K.Keys.owners keys.now) (K.Keys.places keys.now) (K.Keys.contents keys.now) (K.Keys.has keys.now)) x depth) text.now }
{
    let (opens, rest) = all_answer(keys, x, depth, text)?;
    let Some(next) = behind(b'|', rest) else {
        return Some((opens, rest));
    };
    let (others, rest) = part_answer(keys, x, depth, Part::OneOf, next)?;
    Some((opens || others, rest))
}

// Whether a part that begins the text opens for x, nested less deeply than the number says, with the bytes behind it.
#[cycle(parts)]
#[tactic(auto, unfolding(crate::specs::inner::Answers::part_answer))]
fn part_answer<'a, K: TextKeys>(
    keys: &K,
    x: Dbref,
    depth: usize,
    part: Part,
    text: &'a [u8],
) -> Option<(bool, &'a [u8])>
    ensures { seen result ≡ part_answer (holdings (K.Keys.owners keys.now) (K.Keys.places keys.now) (K.Keys.contents keys.now) (K.Keys.has keys.now)) x depth part text.now }
{
    if depth == 0 {
        return None;
    }
    match part {
        Part::Term => term_answer(keys, x, depth - 1, text),
        Part::AllOf => all_answer(keys, x, depth - 1, text),
        Part::OneOf => one_answer(keys, x, depth - 1, text),
    }
}

// Whether a whole text opens: nothing stands behind what was read.
fn whole(answer: Option<(bool, &[u8])>) -> bool
    ensures { result ≡ whole_opens (seen answer.entry) }
{
    match answer {
        Some((opens, rest)) => match rest.split_first() {
            None => opens,
            Some(_) => false,
        },
        None => false,
    }
}

/// Whether the text of a lock, which names nothing, opens for x; what is the text of no lock opens for nobody. It takes
/// no memory, and goes as deep as the text is long.
pub fn text_opens<K: TextKeys>(text: &Line, keys: &K, x: Dbref) -> bool
    ensures { result ≡ text_opens (holdings (K.Keys.owners keys.now) (K.Keys.places keys.now) (K.Keys.contents keys.now) (K.Keys.has keys.now)) x text.now }
{
    let bytes = text.as_slice();
    let count = bytes.len();
    if count == 0 {
        return true;
    }
    whole(part_answer(keys, x, count + 1, Part::OneOf, bytes))
}
