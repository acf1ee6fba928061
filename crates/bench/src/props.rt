// Puts properties on one object and walks over them, again and again.
ghost use Rattle.std.specs.Prelude.{◌<◌};

use muck_model::Line;
use muck_prop::{Path, PropValue, Props, read_path};
use std::alloc::Global;

// Where the i-th property of so many stands in a scattered order.
fn scattered(i: u32, count: u32) -> u64
    requires { 0 < count }
    ensures { result < count }
{
    u64::from(i) * 7919 % u64::from(count)
}

/// The path of the property of this number.
pub(crate) fn path_of(alloc: Global, number: u64) -> Option<Path> {
    let text = format!(in alloc; "_p{number}").ok()?;
    let text = Line::new(alloc, text.as_bytes()).ok()?;
    read_path(alloc, &text).ok()
}

// So many properties are put in a scattered order.
fn fill(alloc: Global, props: &mut Props, count: u32) -> Option<()> {
    for i in 0..count {
        let path = path_of(alloc, scattered(i, count))?;
        props.put(path, PropValue::Number(1)).ok()?;
    }
    Some(())
}

// A step of a walk over all children of the top; answers whether there was one.
fn walk(alloc: Global, props: &Props, last: &mut Option<Path>) -> Option<bool> {
    *last = props.next(alloc, None, last.as_ref()).ok()?;
    Some(last.is_some())
}

// The steps of a walk over all children of the top.
fn walked(alloc: Global, props: &Props) -> Option<u64> {
    let mut steps = 0u64;
    let mut last = None;
    for _ in 0..u32::MAX {
        if !walk(alloc, props, &mut last)? {
            break;
        }
        steps = steps.saturating_add(1);
    }
    Some(steps)
}

// An object gets so many properties, and so many walks are made over it; answers how many calls these were.
fn walked_over(alloc: Global, count: u32, walks: u32) -> Option<u64> {
    let mut props = Props::new(alloc).ok()?;
    fill(alloc, &mut props, count)?;
    let mut calls = u64::from(count);
    for _ in 0..walks {
        calls = calls.saturating_add(walked(alloc, &props)?);
    }
    Some(calls)
}

/// So many properties are put on each of so many objects, in turn, and so many walks made over each; answers how many calls these were.
pub fn run(alloc: Global, count: u32, objects: u32, walks: u32) -> Option<String> {
    let mut calls = 0u64;
    for _ in 0..objects {
        calls = calls.saturating_add(walked_over(alloc, count, walks)?);
    }
    format!(in alloc; "{calls} calls").ok()
}
