// The brackets of a text: where it balances, its pieces, and the arguments of a function.
ghost use Rattle.std.specs.Prelude.{◌≡◌, ◌+◌, ◌<◌, ◌≤◌, ◌^◌, suc, None, true, false, IfOk, IfSome, length, drop, map as mapped};
ghost use Rattle.std.specs.List.{list_all};
ghost use Rattle.muck_model.specs.Bytes.{is_outside, text_fault, text_most};
ghost use Rattle.mpi.specs.Made.{is_text};
ghost use Rattle.mpi.specs.Brackets.{IsPart, scan_begun, byte_passed, is_outside_brackets, part_len, balances, first_piece, escaped, call_ahead, seen_ahead, arguments, byte_meant};

use muck_model::NoMemory;
use std::alloc::Global;

/// Where a scan of a text stands: how many brackets are open, and whether a `\` before takes the next byte as it is.
#[derive(Clone, Copy)]
pub(crate) struct Scan {
    pub(crate) deep: usize,
    pub(crate) escaped: bool,
}

impl Scan {
    // Behind this byte.
    fn passed(self, byte: u8) -> Scan
        requires { self.deep < 2 ^ 62 }
        ensures value { result ≡ byte_passed byte self }
        ensures deep { result.deep ≤ self.deep + 1 }
    {
        let deep = self.deep;
        let escaped = !self.escaped && byte == b'\\';
        if self.escaped {
            return Scan { deep, escaped };
        }
        match byte {
            b'{' => Scan {
                deep: deep + 1,
                escaped,
            },
            b'}' => Scan {
                deep: deep.saturating_sub(1),
                escaped,
            },
            _ => Scan { deep, escaped },
        }
    }

    // Whether the byte ahead is this one, within no bracket and taken for itself.
    fn is_free(self, wanted: u8, byte: u8) -> bool
        ensures { result ≡ is_outside_brackets wanted byte self }
    {
        !self.escaped && self.deep == 0 && byte == wanted
    }
}

// The scan of a text that begins.
const BEGUN: Scan = Scan {
    deep: 0,
    escaped: false,
};

/// Whether each `{` of the text has its `}`.
#[tactic(auto, unfolding(crate::specs::Brackets::balances))]
pub(crate) fn balances(text: &[u8]) -> bool
    requires { length text.now ≤ text_most }
    ensures { result ≡ balances scan_begun text.now }
{
    let mut scan = BEGUN;
    for byte in text {
        if scan.is_free(b'}', *byte) {
            return false;
        }
        scan = scan.passed(*byte);
    }
    scan.deep == 0
}

// The same as `part_len` where neither a `{` nor a `\` stands before that place, and `None` where one does.
#[tactic(auto, using(crate::proofs::Parting::parting))]
fn plain_part_len(wanted: u8, text: &[u8]) -> Option<usize>
    ensures { IfSome result (λ n. (n ≡ part_len wanted scan_begun text.now) × (n ≤ length text.now)) }
{
    for at in 0..text.len() {
        let byte = text[at];
        if byte == wanted {
            return Some(at);
        }
        if byte == b'{' || byte == b'\\' {
            return None;
        }
    }
    Some(text.len())
}

// How many bytes stand before the first free one like that.
#[tactic(auto, unfolding(crate::specs::Brackets::part_len))]
fn part_len(wanted: u8, text: &[u8]) -> usize
    requires { length text.now ≤ text_most }
    ensures value { result ≡ part_len wanted scan_begun text.now }
    ensures within { result ≤ length text.now }
{
    if let Some(at) = plain_part_len(wanted, text) {
        return at;
    }
    let mut scan = BEGUN;
    for at in 0..text.len() {
        if scan.is_free(wanted, text[at]) {
            return at;
        }
        scan = scan.passed(text[at]);
    }
    text.len()
}

/// A piece of a text.
#[derive(Clone, Copy)]
pub(crate) enum Piece<'a> {
    /// A byte for itself.
    Byte(u8),
    /// What stands between two brackets.
    Call(&'a [u8]),
}

/// What a byte behind a `\` means.
fn meant(byte: u8) -> u8
    ensures { result ≡ byte_meant byte }
{
    if byte == b'r' { 13 } else { byte }
}

/// The first piece of a text, and what stands behind it.
#[derive(Clone, Copy)]
pub(crate) struct Ahead<'a> {
    pub(crate) piece: Piece<'a>,
    pub(crate) rest: &'a [u8],
}

// What stands behind the byte at that place, or nothing where the text ends before.
fn behind(text: &[u8], at: usize) -> &[u8]
    ensures { result.now ≡ drop (suc at) text.now }
{
    if at < text.len() {
        &text[at + 1..]
    } else {
        &[]
    }
}

// A byte behind a `\\`, or the `\\` itself where the text ends.
#[tactic(auto, using(crate::proofs::Inside::text_steps))]
fn escaped<'a>(more: &'a [u8]) -> Ahead<'a>
    requires { text_fault more.now ≡ None }
    ensures value { seen_ahead result ≡ escaped more.now }
    ensures within { length result.rest.now ≤ length more.now }
    ensures parts { (text_fault result.rest.now ≡ None) × IsPart result.piece }
{
    match more.split_first() {
        None => Ahead {
            piece: Piece::Byte(b'\\'),
            rest: more,
        },
        Some((byte, rest)) => Ahead {
            piece: Piece::Byte(meant(*byte)),
            rest,
        },
    }
}

// What stands before the next free `}`.
#[tactic(auto, using(crate::proofs::Inside::text_steps))]
fn call_ahead<'a>(more: &'a [u8]) -> Ahead<'a>
    requires { text_fault more.now ≡ None }
    ensures value { seen_ahead result ≡ call_ahead more.now }
    ensures within { length result.rest.now ≤ length more.now }
    ensures parts { (text_fault result.rest.now ≡ None) × IsPart result.piece }
{
    let size = part_len(b'}', more);
    Ahead {
        piece: Piece::Call(&more[..size]),
        rest: behind(more, size),
    }
}

/// The first piece of a text, which begins with this byte.
pub(crate) fn piece_ahead<'a>(first: u8, more: &'a [u8]) -> Ahead<'a>
    requires text { text_fault more.now ≡ None }
    requires byte { is_outside first ≡ false }
    ensures value { seen_ahead result ≡ first_piece first more.now }
    ensures within { length result.rest.now ≤ length more.now }
    ensures parts { (text_fault result.rest.now ≡ None) × IsPart result.piece }
{
    match first {
        b'\\' => escaped(more),
        b'{' => call_ahead(more),
        byte => Ahead {
            piece: Piece::Byte(byte),
            rest: more,
        },
    }
}

/// The arguments that stand between commas.
#[tactic(auto, using(crate::proofs::Pieces::argument_steps))]
pub(crate) fn arguments<'a>(alloc: Global, text: &'a [u8]) -> Result<Vec<&'a [u8]>, NoMemory>
    requires { text_fault text.now ≡ None }
    ensures value { IfOk result (λ v. mapped (λ x. x.now) v.items ≡ arguments text.now) }
    ensures texts { IfOk result (λ v. list_all is_text (mapped (λ x. x.now) v.items) ≡ true) }
{
    let mut list = Vec::new(alloc);
    let mut rest = text;
    let mut size = part_len(b',', rest);
    while size < rest.len() {
        list.push(&rest[..size])?;
        rest = behind(rest, size);
        size = part_len(b',', rest);
    }
    list.push(rest)?;
    Ok(list)
}
