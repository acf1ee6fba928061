// How a lock is written.
ghost use Rattle.std.specs.Prelude.{◌≡◌, ◌++◌, [], ◌∷◌, ◌&&◌, true, OnOk, IfOk};
ghost use Rattle.std.specs.Fmt.{signed_decimal};
ghost use Rattle.muck_lock.specs.inner.Law.{IsPrinted, ReadsBack};
ghost use Rattle.muck_lock.specs.inner.Made.{is_made, is_short, is_text};
ghost use Rattle.muck_lock.specs.Printed.{groups_both, groups_either, opening_bracket, closing, lock_written};

use crate::fault::LockFault;
use crate::part::Part;
use itoa::Buffer;
use muck_model::{Dbref, Line, Lock, NoMemory, TEXT_MOST};
use std::alloc::Global;

fn groups_both(part: Part) -> bool
    ensures { result ≡ groups_both part }
{
    match part {
        Part::OneOf | Part::AllOf => false,
        Part::Term => true,
    }
}

fn groups_either(part: Part) -> bool
    ensures { result ≡ groups_either part }
{
    match part {
        Part::OneOf => false,
        Part::AllOf | Part::Term => true,
    }
}

fn open(in_parentheses: bool, out: &mut Vec<u8>) -> Result<(), NoMemory>
    ensures { OnOk result (out.new.items ≡ out.old.items ++ opening_bracket in_parentheses) }
{
    if in_parentheses {
        out.push(b'(')?;
    }
    Ok(())
}

fn close(in_parentheses: bool, out: &mut Vec<u8>) -> Result<(), NoMemory>
    ensures { OnOk result (out.new.items ≡ out.old.items ++ closing in_parentheses) }
{
    if in_parentheses {
        out.push(b')')?;
    }
    Ok(())
}

fn put_object(d: Dbref, out: &mut Vec<u8>) -> Result<(), NoMemory>
    ensures text { OnOk result (out.new.items ≡ out.old.items ++ 35 ∷ signed_decimal d.0) }
    ensures made { OnOk result (is_short d.0 ≡ true) }
{
    let mut digits = Buffer::new();
    out.push(b'#')?;
    out.extend_from_slice(digits.format(d.0).as_bytes())?;
    Ok(())
}

fn put_property(path: &Line, value: &Line, out: &mut Vec<u8>) -> Result<(), NoMemory>
    ensures text { OnOk result (out.new.items ≡ out.old.items ++ (path.now ++ 58 ∷ value.now)) }
    ensures made { OnOk result (is_text path.now && is_text value.now ≡ true) }
{
    out.extend_from_slice(path.as_slice())?;
    out.push(b':')?;
    out.extend_from_slice(value.as_slice())?;
    Ok(())
}

// Writes a lock where such a part stands.
fn put(lock: &Lock, part: Part, out: &mut Vec<u8>) -> Result<(), NoMemory>
    ensures text { OnOk result (out.new.items ≡ out.old.items ++ lock_written lock.now part) }
    ensures made { OnOk result (is_made lock.now ≡ true) }
{
    match lock {
        Lock::Free => Ok(()),
        Lock::Object(d) => put_object(*d, out),
        Lock::Prop { path, value } => put_property(path, value, out),
        Lock::Not(a) => {
            out.push(b'!')?;
            put(a.get(), Part::Term, out)
        }
        Lock::Both(a, b) => {
            let in_parentheses = groups_both(part);
            open(in_parentheses, out)?;
            put(a.get(), Part::Term, out)?;
            out.push(b'&')?;
            put(b.get(), Part::AllOf, out)?;
            close(in_parentheses, out)
        }
        Lock::Either(a, b) => {
            let in_parentheses = groups_either(part);
            open(in_parentheses, out)?;
            put(a.get(), Part::AllOf, out)?;
            out.push(b'|')?;
            put(b.get(), Part::OneOf, out)?;
            close(in_parentheses, out)
        }
    }
}

/// The text of a lock: objects are written `#N`, and parentheses stand only where they are needed. `BadLock` comes exactly
/// where the text would have more than 4,096 bytes, at 4,096. What is printed of a lock that some text is read as is read
/// as that lock again, whatever names stand for, unless one of its keys is taken for a program. It goes as deep as the lock
/// is nested.
pub fn print(alloc: Global, lock: &Lock) -> Result<Line, LockFault>
    ensures text { IsPrinted lock.now result }
    ensures law { IfOk result (λ line. ReadsBack lock.now line) }
{
    let mut bytes = Vec::new(alloc);
    put(lock, Part::OneOf, &mut bytes)?;
    match Line::from_vec(bytes) {
        Ok(line) => Ok(line),
        Err(_) => Err(LockFault::BadLock { at: TEXT_MOST }),
    }
}
