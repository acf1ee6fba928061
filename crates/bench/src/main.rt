//! The benches. The first argument says which, and the others how much is to be done; each prints one line of what it did. How long
//! that takes is measured by the scripts of `bench/` at the top. `all` does a little of each.
#![tactic(auto)]

mod arrays;
mod compile;
mod db;
mod prims;
mod props;
mod talk;
mod units;

use std::alloc::Global;
use std::{env, io};

/// What is printed of a bench that was refused something or wanted memory.
const BROKEN: &str = "broke off";

/// A little of each bench: its word, the program that it runs, and its numbers.
const LITTLE: [(&str, &str, [u32; 4]); 9] = [
    ("props", "", [1000, 2, 1, 0]),
    ("compile", "", [10, 2, 0, 0]),
    ("units", "loop", [1000, 0, 0, 0]),
    ("db", "", [1000, 1000, 20, 2]),
    ("talk", "", [3, 2, 1, 0]),
    ("prims", "all", [1000, 10, 0, 0]),
    ("arrays", "set", [100, 0, 0, 0]),
    ("arrays", "keys", [100, 0, 0, 0]),
    ("arrays", "explode", [3, 2, 0, 0]),
];

// Does a bench that runs no program of a name; answers what it did, and nothing where it broke off.
fn counted(alloc: Global, bench: &str, sizes: [u32; 4]) -> Option<String> {
    let [first, second, third, fourth] = sizes;
    match bench {
        "props" => props::run(alloc, first, second, third),
        "compile" => compile::run(alloc, first, second),
        "db" => db::run(alloc, first, second, third, fourth),
        "talk" => talk::run(alloc, first, second, third),
        _ => String::from_str(
            alloc,
            "a bench is props, compile, units, db, talk, prims, arrays or all",
        )
        .ok(),
    }
}

// Does a bench; answers what it did, and nothing where it broke off.
fn done(alloc: Global, bench: &str, program: &str, sizes: [u32; 4]) -> Option<String> {
    let [first, second, _, _] = sizes;
    match bench {
        "units" => units::run(alloc, program, first),
        "prims" => prims::run(alloc, program, first, second),
        "arrays" => arrays::run(alloc, program, first, second),
        _ => counted(alloc, bench, sizes),
    }
}

// The argument of this number, and nothing where it isn't there.
fn word(words: &[String], at: usize) -> &str {
    match words.get(at) {
        Some(word) => word.as_str(),
        None => "",
    }
}

// The argument of this number, and 0 where it is none.
fn number(words: &[String], at: usize) -> u32 {
    word(words, at).parse().unwrap_or(0)
}

// The numbers of a bench, which stand behind its program where it runs one of a name.
fn sizes_of(words: &[String]) -> [u32; 4] {
    let from = usize::from(matches!(word(words, 0), "units" | "prims" | "arrays"));
    [
        number(words, from + 1),
        number(words, from + 2),
        number(words, from + 3),
        number(words, from + 4),
    ]
}

// The words behind the program's name.
fn words_of(rt: HostRuntime) -> io::Result<Vec<String>> {
    let mut words = Vec::new(rt.alloc());
    for word in env::args(&rt)?.skip(1) {
        words.push(word)?;
    }
    Ok(words)
}

// Does a little of each bench.
fn try_all(rt: HostRuntime) -> io::Result<()> {
    for (bench, program, sizes) in LITTLE {
        let line = done(rt.alloc(), bench, program, sizes);
        println!(rt; "{bench}: {}", line.as_deref().unwrap_or(BROKEN))?;
    }
    Ok(())
}

// Does the bench of these words.
fn try_one(rt: HostRuntime, words: &[String]) -> io::Result<()> {
    let line = done(rt.alloc(), word(words, 0), word(words, 1), sizes_of(words));
    println!(rt; "{}", line.as_deref().unwrap_or(BROKEN))
}

fn main(rt: HostRuntime) -> io::Result<()> {
    let words = words_of(rt)?;
    if words.len() == 1 && word(&words, 0) == "all" {
        return try_all(rt);
    }
    try_one(rt, &words)
}
