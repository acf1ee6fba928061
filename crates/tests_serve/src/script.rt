// A script of links, as rows write it.
use muck_links::{LinkStep, LinkWhat, ScriptLinks};
use muck_model::{ByteList, NoMemory};
use std::alloc::Global;
use tests_rows::{Words, unfolded};

// Which step a row has, if it has one.
fn what(alloc: Global, words: &mut Words<'_>) -> Result<Option<LinkWhat>, NoMemory> {
    Ok(match words.word() {
        b"accept" => Some(LinkWhat::Accept(words.number())),
        b"bytes" => {
            let d = words.number();
            let bytes = unfolded(alloc, words.left)?;
            Some(LinkWhat::Bytes(d, ByteList::of(bytes)))
        }
        b"end" => Some(LinkWhat::End(words.number())),
        b"ended" => Some(LinkWhat::Ended),
        b"fail-read" => Some(LinkWhat::FailRead(words.number())),
        b"fail-write" => Some(LinkWhat::FailWrite(words.number())),
        b"fail-listen" => Some(LinkWhat::FailListen),
        b"fail-accept" => Some(LinkWhat::FailAccept),
        _ => None,
    })
}

/// Links that play the steps of these rows, `AFTER WHAT ..` each.
pub fn links(alloc: Global, rows: &[u8]) -> Result<ScriptLinks, NoMemory> {
    let mut steps = Vec::new(alloc);
    for row in rows.split(|&byte| byte == b'\n') {
        let mut words = Words { left: row };
        let after = u64::from(words.number());
        if let Some(what) = what(alloc, &mut words)? {
            steps.push(LinkStep { after, what })?;
        }
    }
    Ok(ScriptLinks::new(alloc, steps))
}
