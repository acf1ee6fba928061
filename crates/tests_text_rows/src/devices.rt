// Sources and sinks over memory.
use muck_io::{MemSink, MemSource, read_all, write_all};
use muck_model::NoMemory;
use std::alloc::Global;
use tests_rows::{Words, add, halves};

// What comes of so many bytes at most, or `!` and the fault.
fn told(
    alloc: Global,
    out: &mut String,
    source: &mut MemSource,
    most: usize,
) -> Result<(), NoMemory> {
    match read_all(alloc, source, most) {
        Ok(bytes) => add(out, &bytes),
        Err(fault) => Ok(write!(out, "!{fault:?}")?),
    }
}

/// `read FAILING AT_ONCE MOST BYTES`: what comes of so many bytes at most, where the read of that number fails and one read gives at
/// most so many; and what a further reading gives.
pub fn read(alloc: Global, out: &mut String, words: &mut Words<'_>) -> Result<(), NoMemory> {
    let failing = [u64::from(words.number())].to_vec(alloc)?;
    let at_once = words.number() as usize;
    let most = words.number() as usize;
    let bytes = words.left.to_vec(alloc)?;
    let mut source = MemSource::new(bytes, failing).at_most(at_once.max(1));
    told(alloc, out, &mut source, most)?;
    out.push(';')?;
    told(alloc, out, &mut source, 100)
}

/// `write FAILING AT_ONCE FIRST;SECOND`: whether each of two pieces is written, where the write of that number fails and one write
/// takes at most so many bytes; and the bytes that stand.
pub fn write(alloc: Global, out: &mut String, words: &mut Words<'_>) -> Result<(), NoMemory> {
    let failing = [u64::from(words.number())].to_vec(alloc)?;
    let at_once = words.number() as usize;
    let (first, second) = halves(words.left);
    let mut sink = MemSink::new(alloc, failing).at_most(at_once);
    let first = write_all(&mut sink, first).is_ok();
    let second = write_all(&mut sink, second).is_ok();
    write!(out, "{first}, {second};")?;
    add(out, sink.bytes())
}
