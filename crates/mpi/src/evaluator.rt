// How a text is evaluated: its pieces one after another, and what stands between brackets one nesting deeper. No tree of it is kept.
ghost use Rattle.std.specs.Prelude.{◌≡◌, [], None, Some, true, suc, take, IfOk, IfSome, option_map, map as mapped};
ghost use Rattle.std.specs.List.{list_all, before_first, position};
ghost use Rattle.std.specs.Option.{option_copied};
ghost use Rattle.muck_model.specs.Bytes.{text_fault};
ghost use Rattle.mpi.specs.Gathering.{gathered_text};
ghost use Rattle.mpi.specs.Hosting.{Means, seen_as};
ghost use Rattle.mpi.specs.Made.{is_text};
ghost use Rattle.mpi.specs.Meaning.{scene_of, meaning, body_entered, is_colon, behind_name, variable_in, argument_texts, prepared, lazily, each_value, branch_at, before_body, in_scope, bodies_in_scope, text_with, until_wanted, while_true, turns_for, each_item, evaluated, Evaluates};
ghost use Rattle.mpi.specs.Thoughts.{Thinks};
ghost use Rattle.mpi.specs.Values.{nth, items, alike, is_true_text, number_or_zero};

use crate::acting::{Place, act, own, value_of};
use crate::alike::answer_alike;
use crate::argument::Argument;
use crate::brackets::{Piece, arguments, balances, piece_ahead};
use crate::fault::MpiFault;
use crate::functions::{Function, How, Keep, Scope, Way};
use crate::host::Host;
use crate::lists::{items, kept};
use crate::mind::{Mind, Range};
use crate::texts::{grow, line_of, number, truth};
use crate::values::{is_true, nth, number_of};
use crate::variables::VarMap;
use muck_model::{Dbref, Line, NoMemory};
use std::alloc::Global;

/// How many functions may stand one in another.
const NESTING_MOST: u32 = 64;

// Where the `:` behind a name stands.
fn colon_at(body: &[u8]) -> Option<usize>
    ensures { result ≡ position is_colon body.now }
{
    body.iter().position(|b| *b == b':')
}

// The name of a function, before its `:`.
#[tactic(auto, using(crate::proofs::Positions::positions))]
fn name_of(body: &[u8]) -> &[u8]
    ensures { result.now ≡ before_first is_colon body.now }
{
    &body[..colon_at(body).unwrap_or(body.len())]
}

// What stands behind the `:` of a function, if it has one.
#[tactic(auto, using(crate::proofs::Inside::text_steps))]
fn behind_name(body: &[u8]) -> Option<&[u8]>
    requires { text_fault body.now ≡ None }
    ensures value { option_copied result ≡ behind_name body.now }
    ensures text { IfSome result (λ text. text_fault text.now ≡ None) }
{
    let at = colon_at(body)?;
    Some(&body[at + 1..])
}

// The texts of the arguments: none without a `:`, and one at least behind it.
fn texts_of<'a>(alloc: Global, behind: Option<&'a [u8]>) -> Result<Vec<&'a [u8]>, NoMemory>
    requires { IfSome behind (λ text. text_fault text.now ≡ None) }
    ensures value { IfOk result (λ v. mapped (λ x. x.now) v.items ≡ argument_texts (option_copied behind.entry)) }
    ensures texts { IfOk result (λ v. list_all is_text (mapped (λ x. x.now) v.items) ≡ true) }
{
    match behind {
        Some(text) => arguments(alloc, text),
        None => Ok(Vec::new(alloc)),
    }
}

// The text of the argument at a place from 0; one that is left out is empty.
fn text_at<'a>(texts: &[&'a [u8]], at: usize) -> &'a [u8]
    requires { list_all is_text (mapped (λ x. x.now) texts.now) ≡ true }
    ensures value { result.now ≡ nth at (mapped (λ x. x.now) texts.now) }
    ensures text { text_fault result.now ≡ None }
{
    match texts.get(at) {
        Some(text) => text,
        None => &[],
    }
}

// The name of the variable whose value is asked for, behind a `&`.
fn variable_in(body: &[u8]) -> Option<&[u8]>
    requires { text_fault body.now ≡ None }
    ensures value { option_copied result ≡ variable_in body.now }
    ensures text { IfSome result (λ name. text_fault name.now ≡ None) }
{
    let (first, name) = body.split_first()?;
    if *first == b'&' { Some(name) } else { None }
}

// Which text stands for a value: the second where it is true, else the third.
fn branch_at(value: &Line) -> usize
    ensures { result ≡ branch_at value.now }
{
    if is_true(value.as_slice()) { 1 } else { 2 }
}

// Whether a value is true, or false, as it is wanted.
fn is_alike(value: &Argument<'_>, wanted: bool) -> bool
    ensures { result ≡ alike (is_true_text value.now) wanted }
{
    is_true(value.as_slice()) == wanted
}

// How many arguments stand before the one that is evaluated with a new variable.
fn before_body(scope: Scope) -> usize
    ensures { result ≡ before_body scope }
{
    match scope {
        Scope::Once | Scope::Items(_) => 2,
        Scope::Numbers => 4,
    }
}

// The numbers of a loop, behind the name of its variable.
fn range_of(values: &[Argument<'_>]) -> Range
    ensures from { result.from ≡ number_or_zero (nth 1 values.now) }
    ensures end { result.end ≡ number_or_zero (nth 2 values.now) }
    ensures step { result.step ≡ number_or_zero (nth 3 values.now) }
{
    Range {
        from: number_of(nth(values, 1)),
        end: number_of(nth(values, 2)),
        step: number_of(nth(values, 3)),
    }
}

// The text of what was gathered.
fn line_gathered(alloc: Global, gathered: Option<Vec<u8>>) -> Result<Line, NoMemory>
    requires { IfSome gathered (λ bytes. text_fault bytes.items ≡ None) }
    ensures { IfOk result (λ line. line ≡ gathered_text (option_map (λ bytes. bytes.items) gathered)) }
{
    match gathered {
        Some(bytes) => Ok(Line::of_text_vec(bytes)),
        None => Line::of_text(alloc, &[]),
    }
}

// The texts of the arguments before that place.
fn texts_before<'a, 'b>(texts: &'b [&'a [u8]], at: usize) -> &'b [&'a [u8]]
    requires { list_all is_text (mapped (λ x. x.now) texts.now) ≡ true }
    ensures value { mapped (λ x. x.now) result.now ≡ take at (mapped (λ x. x.now) texts.now) }
    ensures texts { list_all is_text (mapped (λ x. x.now) result.now) ≡ true }
{
    &texts[..at.min(texts.len())]
}

// A function with what stands behind its name, and the texts of its arguments.
#[derive(Drop)]
struct Called<'a> {
    function: Function,
    behind: Option<&'a [u8]>,
    texts: Vec<&'a [u8]>,
}

// The function that stands between brackets: `UnknownFunction` where there is none of its name, and `BadCount` where it takes fewer or
// more arguments.
#[tactic(auto, unfolding(crate::specs::Meaning::prepared))]
fn prepared<'a>(alloc: Global, body: &'a [u8]) -> Result<Called<'a>, MpiFault>
    requires { text_fault body.now ≡ None }
    ensures value { Means (prepared body.now) (seen_as (λ found. (found.function, option_copied found.behind)) result) }
    ensures behind { IfOk result (λ found. IfSome found.behind (λ text. text_fault text.now ≡ None)) }
    ensures texts { IfOk result (λ found. mapped (λ x. x.now) found.texts.items ≡ argument_texts (option_copied found.behind)) }
    ensures are_texts { IfOk result (λ found. list_all is_text (mapped (λ x. x.now) found.texts.items) ≡ true) }
{
    let Some(function) = Function::named(name_of(body)) else {
        return Err(MpiFault::UnknownFunction);
    };
    let behind = behind_name(body);
    let texts = texts_of(alloc, behind)?;
    if !function.takes(texts.len()) {
        return Err(MpiFault::BadCount);
    }
    Ok(Called {
        function,
        behind,
        texts,
    })
}

// What a text means where so many functions may stand one in another.
#[cycle(evaluating)]
fn text<H: Host>(
    place: Place,
    host: &mut H,
    mind: &mut Mind,
    nesting: u32,
    text: &[u8],
) -> Result<Line, MpiFault>
    requires { text_fault text.now ≡ None }
    ensures thinks { Thinks (meaning (scene_of H.powers place.this) nesting text.now) (mind.old, H.seen host.old) (mind.new, H.seen host.new) result }
    ensures same { H.same host.old host.new }
{
    let mut out = Vec::new(place.alloc);
    let mut rest = text;
    while let Some((first, more)) = rest.split_first() {
        let ahead = piece_ahead(*first, more);
        match ahead.piece {
            Piece::Byte(byte) => grow(&mut out, &[byte])?,
            Piece::Call(body) => {
                let value = call(place, host, mind, nesting, body)?;
                grow(&mut out, value.as_slice())?;
            }
        }
        rest = ahead.rest;
    }
    line_of(out)
}

// Enters what stands between brackets, which is a command.
#[cycle(evaluating)]
fn call<H: Host>(
    place: Place,
    host: &mut H,
    mind: &mut Mind,
    nesting: u32,
    body: &[u8],
) -> Result<Line, MpiFault>
    requires { text_fault body.now ≡ None }
    ensures thinks { Thinks (body_entered (scene_of H.powers place.this) nesting body.now) (mind.old, H.seen host.old) (mind.new, H.seen host.new) result }
    ensures same { H.same host.old host.new }
{
    if nesting == 0 || mind.left == 0 {
        return Err(MpiFault::TooManyCommands);
    }
    mind.left -= 1;
    if let Some(name) = variable_in(body) {
        return value_of(place.alloc, mind, name);
    }
    let called = prepared(place.alloc, body)?;
    match called.function.how() {
        How::First(group) => {
            let values = values_of(place, host, mind, nesting - 1, &called.texts)?;
            act(place, host, mind, group, called.function, &values)
        }
        How::Lazy(way) => {
            lazily(
                place,
                host,
                mind,
                nesting - 1,
                way,
                called.behind,
                &called.texts,
            )
        }
    }
}

// A function that evaluates its arguments as it says.
#[cycle(evaluating)]
fn lazily<H: Host>(
    place: Place,
    host: &mut H,
    mind: &mut Mind,
    deeper: u32,
    way: Way,
    behind: Option<&[u8]>,
    texts: &[&[u8]],
) -> Result<Line, MpiFault>
    requires behind { IfSome behind (λ text. text_fault text.now ≡ None) }
    requires texts { mapped (λ x. x.now) texts.now ≡ argument_texts (option_copied behind) }
    requires are_texts { list_all is_text (mapped (λ x. x.now) texts.now) ≡ true }
    ensures thinks { Thinks (lazily way (meaning (scene_of H.powers place.this) deeper) (option_copied behind.entry)) (mind.old, H.seen host.old) (mind.new, H.seen host.new) result }
    ensures same { H.same host.old host.new }
{
    match way {
        Way::Literal => Ok(Line::of_text(place.alloc, behind.unwrap_or(&[]))?),
        Way::If => {
            let value = text(place, host, mind, deeper, text_at(texts, 0))?;
            text(place, host, mind, deeper, text_at(texts, branch_at(&value)))
        }
        Way::All => until(place, host, mind, deeper, false, texts),
        Way::Any => until(place, host, mind, deeper, true, texts),
        Way::While => while_true(place, host, mind, deeper, texts),
        Way::With(scope) => in_scope(place, host, mind, deeper, scope, texts),
    }
}

// The value of an argument; one that stands for itself takes no memory.
#[cycle(evaluating)]
fn argument<'a, H: Host>(
    place: Place,
    host: &mut H,
    mind: &mut Mind,
    deeper: u32,
    text: &'a [u8],
) -> Result<Argument<'a>, MpiFault>
    requires { text_fault text.now ≡ None }
    ensures thinks { Thinks (meaning (scene_of H.powers place.this) deeper text.now) (mind.old, H.seen host.old) (mind.new, H.seen host.new) result }
    ensures same { H.same host.old host.new }
{
    if let Some(value) = Argument::written(text) {
        return Ok(value);
    }
    let line = self::text(place, host, mind, deeper, text)?;
    Ok(Argument::made(line))
}

// The values of the arguments, from left to right.
#[cycle(evaluating)]
fn values_of<'a, H: Host>(
    place: Place,
    host: &mut H,
    mind: &mut Mind,
    deeper: u32,
    texts: &[&'a [u8]],
) -> Result<Vec<Argument<'a>>, MpiFault>
    requires { list_all is_text (mapped (λ x. x.now) texts.now) ≡ true }
    ensures thinks { Thinks (each_value (meaning (scene_of H.powers place.this) deeper) [] (mapped (λ x. x.now) texts.now)) (mind.old, H.seen host.old) (mind.new, H.seen host.new) (seen_as (λ v. v.items) result) }
    ensures same { H.same host.old host.new }
{
    let mut values = Vec::new(place.alloc);
    for each in texts {
        let value = argument(place, host, mind, deeper, each)?;
        values.push(value)?;
    }
    Ok(values)
}

// Whether one of the texts is true, or false, up to the first that is.
#[cycle(evaluating)]
fn until<H: Host>(
    place: Place,
    host: &mut H,
    mind: &mut Mind,
    deeper: u32,
    wanted: bool,
    texts: &[&[u8]],
) -> Result<Line, MpiFault>
    requires { list_all is_text (mapped (λ x. x.now) texts.now) ≡ true }
    ensures thinks { Thinks (until_wanted wanted (meaning (scene_of H.powers place.this) deeper) (mapped (λ x. x.now) texts.now)) (mind.old, H.seen host.old) (mind.new, H.seen host.new) result }
    ensures same { H.same host.old host.new }
{
    for each in texts {
        let value = argument(place, host, mind, deeper, each)?;
        if is_alike(&value, wanted) {
            return Ok(truth(place.alloc, wanted)?);
        }
    }
    Ok(truth(place.alloc, !wanted)?)
}

// The second text while the first is true, each turn a command.
#[cycle(evaluating)]
fn while_true<H: Host>(
    place: Place,
    host: &mut H,
    mind: &mut Mind,
    deeper: u32,
    texts: &[&[u8]],
) -> Result<Line, MpiFault>
    requires { list_all is_text (mapped (λ x. x.now) texts.now) ≡ true }
    ensures thinks { Thinks (while_true (meaning (scene_of H.powers place.this) deeper) (mapped (λ x. x.now) texts.now)) (mind.old, H.seen host.old) (mind.new, H.seen host.new) result }
    ensures same { H.same host.old host.new }
{
    let mut last = Line::of_text(place.alloc, &[])?;
    let turns = u64::from(mind.left) + 1;
    for _turn in 0..turns {
        let test = text(place, host, mind, deeper, text_at(texts, 0))?;
        if !is_true(test.as_slice()) {
            return Ok(last);
        }
        mind.count()?;
        last = text(place, host, mind, deeper, text_at(texts, 1))?;
    }
    Err(MpiFault::TooManyCommands)
}

// The last text with a new variable, which is then as it was before.
#[cycle(evaluating)]
fn in_scope<H: Host>(
    place: Place,
    host: &mut H,
    mind: &mut Mind,
    deeper: u32,
    scope: Scope,
    texts: &[&[u8]],
) -> Result<Line, MpiFault>
    requires { list_all is_text (mapped (λ x. x.now) texts.now) ≡ true }
    ensures thinks { Thinks (in_scope scope (meaning (scene_of H.powers place.this) deeper) (mapped (λ x. x.now) texts.now)) (mind.old, H.seen host.old) (mind.new, H.seen host.new) result }
    ensures same { H.same host.old host.new }
{
    let at = before_body(scope);
    let body = text_at(texts, at);
    let values = values_of(place, host, mind, deeper, texts_before(texts, at))?;
    if let Some(answer) = answer_alike(place.alloc, scope, &values, body)? {
        return Ok(answer);
    }
    let name = own(place.alloc, &values, 0)?;
    let old = mind.own_value(place.alloc, &name)?;
    let answer = bodies(place, host, mind, deeper, scope, &values, body);
    mind.give_back(name, old)?;
    answer
}

// A text with a variable, at each value that the scope gives it.
#[cycle(evaluating)]
fn bodies<H: Host>(
    place: Place,
    host: &mut H,
    mind: &mut Mind,
    deeper: u32,
    scope: Scope,
    values: &[Argument<'_>],
    body: &[u8],
) -> Result<Line, MpiFault>
    requires { text_fault body.now ≡ None }
    ensures thinks { Thinks (bodies_in_scope scope (meaning (scene_of H.powers place.this) deeper) values.now body.now) (mind.old, H.seen host.old) (mind.new, H.seen host.new) result }
    ensures same { H.same host.old host.new }
{
    let name = nth(values, 0);
    match scope {
        Scope::Once => {
            let value = own(place.alloc, values, 1)?;
            text_with(place, host, mind, deeper, name, value, body)
        }
        Scope::Numbers => turns_for(place, host, mind, deeper, name, range_of(values), body),
        Scope::Items(keep) => each_item(
            place,
            host,
            mind,
            deeper,
            keep,
            name,
            nth(values, 1),
            body,
        ),
    }
}

// A text with the variable at a value.
#[cycle(evaluating)]
fn text_with<H: Host>(
    place: Place,
    host: &mut H,
    mind: &mut Mind,
    deeper: u32,
    name: &[u8],
    value: Line,
    body: &[u8],
) -> Result<Line, MpiFault>
    requires name { text_fault name.now ≡ None }
    requires body { text_fault body.now ≡ None }
    ensures thinks { Thinks (text_with (meaning (scene_of H.powers place.this) deeper) name.now value body.now) (mind.old, H.seen host.old) (mind.new, H.seen host.new) result }
    ensures same { H.same host.old host.new }
{
    mind.set(place.alloc, name, value)?;
    text(place, host, mind, deeper, body)
}

// The text for each number of a range, each turn a command.
#[cycle(evaluating)]
fn turns_for<H: Host>(
    place: Place,
    host: &mut H,
    mind: &mut Mind,
    deeper: u32,
    name: &[u8],
    range: Range,
    body: &[u8],
) -> Result<Line, MpiFault>
    requires name { text_fault name.now ≡ None }
    requires body { text_fault body.now ≡ None }
    ensures thinks { Thinks (turns_for (suc mind.old.left) (meaning (scene_of H.powers place.this) deeper) name.now body.now range.end range.step (Some range.from) []) (mind.old, H.seen host.old) (mind.new, H.seen host.new) result }
    ensures same { H.same host.old host.new }
{
    let mut last = Line::of_text(place.alloc, &[])?;
    let mut next = Some(range.from);
    let turns = u64::from(mind.left) + 1;
    for _turn in 0..turns {
        let Some(i) = range.inside(next) else {
            return Ok(last);
        };
        mind.count()?;
        let value = number(place.alloc, i)?;
        last = text_with(place, host, mind, deeper, name, value, body)?;
        next = i.checked_add(range.step);
    }
    Err(MpiFault::TooManyCommands)
}

// The text for each item of a list.
#[cycle(evaluating)]
fn each_item<H: Host>(
    place: Place,
    host: &mut H,
    mind: &mut Mind,
    deeper: u32,
    keep: Keep,
    name: &[u8],
    list: &[u8],
    body: &[u8],
) -> Result<Line, MpiFault>
    requires name { text_fault name.now ≡ None }
    requires list { text_fault list.now ≡ None }
    requires body { text_fault body.now ≡ None }
    ensures thinks { Thinks (each_item keep (meaning (scene_of H.powers place.this) deeper) name.now body.now None (items list.now)) (mind.old, H.seen host.old) (mind.new, H.seen host.new) result }
    ensures same { H.same host.old host.new }
{
    let mut gathered = None;
    let parts = items(place.alloc, list)?;
    for item in &parts {
        let value = Line::of_text(place.alloc, item)?;
        let answer = text_with(place, host, mind, deeper, name, value, body)?;
        gathered = kept(place.alloc, keep, gathered, item, answer.as_slice())?;
    }
    Ok(line_gathered(place.alloc, gathered)?)
}

/// Evaluates a text for an object that carries it: plain bytes stand for themselves, `\\r` for byte 13, `{&v}` for the value of a
/// variable and `{function:arg,arg}` for what the function gives.
///
/// `Unclosed` comes before anything is evaluated, exactly where the brackets don't balance; each other fault where what the text means
/// comes to it first. What was changed before a fault stays changed. After `NoMemory` nothing is said of the variables and of the host.
#[tactic(auto, unfolding(crate::specs::Meaning::evaluated, crate::specs::Meaning::nesting_most))]
pub fn eval<H: Host>(
    alloc: Global,
    host: &mut H,
    this: Dbref,
    text: &Line,
    vars: &mut VarMap,
) -> Result<Line, MpiFault>
    ensures means { Evaluates (scene_of H.powers this) text.now vars.old (H.seen host.old) vars.new (H.seen host.new) result }
    ensures same { H.same host.old host.new }
{
    if !balances(text.as_slice()) {
        return Err(MpiFault::Unclosed);
    }
    let place = Place { alloc, this };
    let variables = VarMap::new(alloc)?;
    let left = host.most_commands();
    let mut mind = Mind { variables, left };
    std::mem::swap(vars, &mut mind.variables);
    let answer = self::text(place, host, &mut mind, NESTING_MOST, text.as_slice());
    std::mem::swap(vars, &mut mind.variables);
    answer
}
