// Texts and numbers.
use muck_model::{Dbref, Line, LineFault, NoMemory, decimal};
use std::alloc::Global;
use std::hash::{DefaultHasher, Hash, Hasher};
use tests_rows::{halves, line as line_of};

// How long a text is, or where the bytes are none.
fn told(out: &mut String, line: &Result<Line, LineFault>) -> Result<(), NoMemory> {
    match line {
        Ok(line) => write!(out, "{} bytes", line.as_slice().len())?,
        Err(fault) => write!(out, "{fault:?}")?,
    }
    Ok(())
}

/// Whether the bytes are a text, where they are copied and where they are kept.
pub fn line(alloc: Global, out: &mut String, bytes: &[u8]) -> Result<(), NoMemory> {
    told(out, &Line::new(alloc, bytes))?;
    out.push_str("; ")?;
    told(out, &Line::from_vec(bytes.to_vec(alloc)?))
}

/// Which number up to 255 is written so, and the number of which object.
pub fn number(out: &mut String, text: &[u8]) -> Result<(), NoMemory> {
    let number = decimal(text, 255);
    let object = Dbref::read(text);
    write!(out, "{number:?}, {object:?}")?;
    Ok(())
}

/// How two texts compare: in order, whether they are equal, and whether their hashes are.
pub fn compare(alloc: Global, out: &mut String, text: &[u8]) -> Result<(), NoMemory> {
    let (first, second) = halves(text);
    let first = line_of(alloc, first)?;
    let second = line_of(alloc, second)?;
    let mut hashers = [DefaultHasher::new(), DefaultHasher::new()];
    first.hash(&mut hashers[0]);
    second.hash(&mut hashers[1]);
    let alike = hashers[0].finish() == hashers[1].finish();
    let order = first.cmp(&second);
    let partly = first.partial_cmp(&second);
    let equal = first == second;
    write!(out, "{order:?}, {partly:?}, {equal}, {alike}")?;
    Ok(())
}
