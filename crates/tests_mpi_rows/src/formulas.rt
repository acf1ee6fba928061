// Formulas over a host in memory.
use mpi::{MemHost, MpiFault, VarMap, eval};
use muck_model::{Dbref, NoMemory, Row};
use std::alloc::Global;
use tests_rows::{Rows, Words, add, halves, line};

/// The objects of a host, from `#0` on.
const NAMES: [&[u8]; 3] = [b"Limbo", b"One", b"ball"];

/// How many commands a text may have at first.
const COMMANDS: u32 = 2048;

// A host that allows so many commands.
fn host_of(alloc: Global, commands: u32) -> Result<MemHost, NoMemory> {
    let mut names = Row::new(alloc)?;
    for name in NAMES.iter() {
        names.push(line(alloc, name)?)?;
    }
    MemHost::new(alloc, names, commands)
}

/// The host and the variables that formulas are evaluated with.
#[derive(Drop)]
pub struct Formulas {
    alloc: Global,
    host: MemHost,
    variables: VarMap,
}

impl Formulas {
    /// Objects without properties, and no variables.
    pub fn new(alloc: Global) -> Result<Formulas, NoMemory> {
        let host = host_of(alloc, COMMANDS)?;
        let variables = VarMap::new(alloc)?;
        Ok(Formulas {
            alloc,
            host,
            variables,
        })
    }

    // Begins anew.
    fn renew(&mut self, commands: u32) -> Result<(), NoMemory> {
        self.host = host_of(self.alloc, commands)?;
        self.variables = VarMap::new(self.alloc)?;
        Ok(())
    }

    // Makes a variable.
    fn make(&mut self, text: &[u8]) -> Result<(), NoMemory> {
        let (name, value) = halves(text);
        self.variables
            .put(line(self.alloc, name)?, line(self.alloc, value)?)
    }

    // What a text gives, or its fault.
    fn evaluated(&mut self, out: &mut String, text: &[u8]) -> Result<(), NoMemory> {
        let alloc = self.alloc;
        let text = line(alloc, text)?;
        match eval(alloc, &mut self.host, Dbref(2), &text, &mut self.variables) {
            Ok(answer) => add(out, answer.as_slice()),
            Err(fault) => tell_fault(out, fault),
        }
    }

    // The same of a text whose front and back stand there so many times.
    fn nested(&mut self, out: &mut String, rest: &[u8]) -> Result<(), NoMemory> {
        let (count, parts) = halves(rest);
        let count = Words { left: count }.number();
        let (front, parts) = halves(parts);
        let (middle, back) = halves(parts);
        let mut text = Vec::new(self.alloc);
        for _ in 0..count {
            text.extend_from_slice(front)?;
        }
        text.extend_from_slice(middle)?;
        for _ in 0..count {
            text.extend_from_slice(back)?;
        }
        self.evaluated(out, &text)
    }

    // What was told so far.
    fn tell(&self, out: &mut String) -> Result<(), NoMemory> {
        for text in self.host.told() {
            out.push('[')?;
            add(out, text.as_slice())?;
            out.push(']')?;
        }
        Ok(())
    }

    // Adds what is made of a text by this word; answers whether the word is one of these.
    fn add(&mut self, out: &mut String, word: &[u8], text: &[u8]) -> Result<bool, NoMemory> {
        let done = match word {
            b"eval" => self.evaluated(out, text),
            b"nest" => self.nested(out, text),
            b"told" => self.tell(out),
            b"variable" => self.make(text),
            b"host" => self.renew(Words { left: text }.number()),
            _ => return Ok(false),
        };
        done?;
        Ok(true)
    }
}

// A fault by its name.
fn tell_fault(out: &mut String, fault: MpiFault) -> Result<(), NoMemory> {
    Ok(write!(out, "fault {fault:?}")?)
}

impl Rows for Formulas {
    fn row(&mut self, word: &[u8], rest: &[u8]) -> Result<Option<Vec<u8>>, NoMemory> {
        let mut out = String::new(self.alloc);
        if !self.add(&mut out, word, rest)? {
            return Ok(None);
        }
        if out.is_empty() {
            out.push_str("done")?;
        }
        Ok(Some(out.into_bytes()))
    }
}
