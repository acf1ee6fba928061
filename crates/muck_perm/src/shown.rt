// How objects are named to players.
ghost use Rattle.std.specs.Prelude.{◌≡◌, ◌++◌, ◌∷◌, [], ◌<◌, IfOk, OnOk, codes, decimal, drop, length};
ghost use Rattle.std.specs.List.{filter};
ghost use Rattle.spec_live.specs.Flags.{has_flag, flag_of};
ghost use Rattle.spec_live.specs.Objects.{object_at, index_of};
ghost use Rattle.spec_live.specs.Lives.{Live};
ghost use Rattle.spec_live.specs.Seen.{kind_letter, flag_letters, level_letters, long_form};
ghost use Rattle.spec_rights.specs.Levels.{dbref_number, shown_as, name_shown};

use crate::levels::{command_level, controls_as};
use itoa::Buffer;
use muck_db::Db;
use muck_model::{Dbref, Flags, Kind, NoMemory};
use spec_live::{Object, flag_of, has_flag};
use std::alloc::Global;

/// About how many bytes stand behind a name in a long form.
const TAIL: usize = 32;

/// The letters of all flags, in their order.
const LETTERS: &[u8] = b"ABCDHJKLQSVWXZ";

// The letter of a kind, or none.
fn kind_letter(kind: Kind) -> &'static [u8]
    ensures { result.now ≡ kind_letter kind }
{
    match kind {
        Kind::Room => b"R",
        Kind::Exit => b"E",
        Kind::Player => b"P",
        Kind::Program => b"F",
        Kind::Thing | Kind::Garbage => b"",
    }
}

// The letters of the flags that are set.
#[tactic(auto, using(crate::proofs::Letters::no_letters), unfolding(spec_live::specs::Seen::flag_letters))]
fn add_flags(text: &mut Vec<u8>, flags: Flags) -> Result<(), NoMemory>
    ensures { OnOk result (text.new.items ≡ text.old.items ++ flag_letters flags) }
{
    if flags.0 == 0 {
        return Ok(());
    }
    add_letters(text, LETTERS, flags)
}

// Those of these letters whose flags are set.
fn add_letters(text: &mut Vec<u8>, letters: &[u8], flags: Flags) -> Result<(), NoMemory>
    ensures { OnOk result (text.new.items ≡ text.old.items ++ filter (λ letter. has_flag (flag_of letter) flags) letters.now) }
{
    let mut rest = letters;
    while let Some((letter, others)) = rest.split_first() {
        if has_flag(flag_of(*letter), flags) {
            text.push(*letter)?;
        }
        rest = others;
    }
    Ok(())
}

// `M` and the level, where it isn't 0.
fn add_level(text: &mut Vec<u8>, level: u8) -> Result<(), NoMemory>
    ensures { OnOk result (text.new.items ≡ text.old.items ++ level_letters level) }
{
    if level == 0 {
        return Ok(());
    }
    let mut buffer = Buffer::new();
    text.push(b'M')?;
    text.extend_from_slice(buffer.format(level).as_bytes())?;
    Ok(())
}

/// The long form of an object of that number: its name, and in parentheses the number, the letter of its kind, those of
/// its flags, and its level where it isn't 0.
#[tactic(auto, unfolding(spec_live::specs::Seen::long_form))]
pub fn long_form(alloc: Global, n: u32, object: &Object) -> Result<Vec<u8>, NoMemory>
    ensures { IfOk result (λ text. text.items ≡ long_form n object.now) }
{
    let name = object.name().as_slice();
    let mut buffer = Buffer::new();
    let mut text = Vec::with_capacity(alloc, name.len() + TAIL)?;
    text.extend_from_slice(name)?;
    text.extend_from_slice(b"(#")?;
    text.extend_from_slice(buffer.format(n).as_bytes())?;
    text.extend_from_slice(kind_letter(object.kind()))?;
    add_flags(&mut text, object.flags())?;
    add_level(&mut text, object.level())?;
    text.push(b')')?;
    Ok(text)
}

// The number that is written behind a name.
fn number_of(d: Dbref) -> u32
    ensures { result ≡ dbref_number d }
{
    if d.0 < 0 { 0 } else { d.0 as u32 }
}

/// The name of an object as a player sees it: its long form where the player controls it. What isn't there has none.
#[tactic(auto, unfolding(spec_rights::specs::Levels::name_shown))]
pub fn name_shown(alloc: Global, db: &Db, player: Dbref, d: Dbref) -> Result<Vec<u8>, NoMemory>
    ensures { IfOk result (λ text. (w : Live) → w.objects ≡ db.now → text.items ≡ name_shown player d w) }
{
    let mut text = Vec::new(alloc);
    if let Some(object) = db.get(d) {
        if controls_as(db, command_level(db, player), player, d) {
            return long_form(alloc, number_of(d), object);
        }
        text.extend_from_slice(object.name().as_slice())?;
    }
    Ok(text)
}
