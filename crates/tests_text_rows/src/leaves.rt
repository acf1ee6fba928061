// What rows are tried on.
use crate::{devices, locks, paths, properties, texts};
use muck_model::NoMemory;
use muck_prop::Props;
use std::alloc::Global;
use tests_rows::{Rows, Words, unfolded};

/// The properties of one object; all else stands in the rows.
#[derive(Drop)]
pub struct Leaves {
    alloc: Global,
    props: Props,
}

impl Leaves {
    /// No properties.
    pub fn new(alloc: Global) -> Result<Leaves, NoMemory> {
        let props = Props::new(alloc)?;
        Ok(Leaves { alloc, props })
    }

    // Begins anew.
    fn renew(&mut self) -> Result<(), NoMemory> {
        self.props = Props::new(self.alloc)?;
        Ok(())
    }

    // Adds what is made of a text by this word; answers whether the word is one of these.
    fn add(&mut self, out: &mut String, word: &[u8], text: &[u8]) -> Result<bool, NoMemory> {
        let alloc = self.alloc;
        let mut words = Words { left: text };
        let done = match word {
            b"line" => texts::line(alloc, out, text),
            b"number" => texts::number(out, text),
            b"compare" => texts::compare(alloc, out, text),
            b"read" => devices::read(alloc, out, &mut words),
            b"write" => devices::write(alloc, out, &mut words),
            b"path" => paths::path(alloc, out, text),
            b"order" => paths::order(alloc, out, text),
            b"props" => properties::props(alloc, out, &mut self.props, &mut words),
            b"lock" => locks::lock(alloc, out, text),
            b"copied" => locks::copied(alloc, out, text),
            b"new" => self.renew(),
            _ => return Ok(false),
        };
        done?;
        Ok(true)
    }
}

impl Rows for Leaves {
    fn row(&mut self, word: &[u8], rest: &[u8]) -> Result<Option<Vec<u8>>, NoMemory> {
        let text = unfolded(self.alloc, rest)?;
        let mut out = String::new(self.alloc);
        if !self.add(&mut out, word, &text)? {
            return Ok(None);
        }
        if out.is_empty() {
            out.push_str("done")?;
        }
        Ok(Some(out.into_bytes()))
    }
}
