// What a word sets of an object: a flag or a level.
ghost use Rattle.std.specs.Prelude.{◌≡◌, ◌==◌, IfSome, true};
ghost use Rattle.std.specs.List.{list_any};
ghost use Rattle.spec_rights.specs.Changing.{is_flag};
ghost use Rattle.spec_commands.specs.Settings.{flag_lettered, level_digit, setting_asked, setting_act, is_setting};

use muck_model::{Dbref, Flags};
use spec_live::flag_of;
use spec_rights::Act;

/// What a word sets of an object.
#[derive(Clone, Copy)]
pub enum Setting {
    /// This flag is set.
    Flag(Flags),
    /// This flag is cleared.
    NoFlag(Flags),
    /// It has this level.
    Level(u8),
}

/// The act by which it is asked for an object.
pub fn setting_act(object: Dbref, setting: Setting) -> Act
    ensures { result ≡ setting_act object setting }
{
    match setting {
        Setting::Flag(flag) | Setting::NoFlag(flag) => Act::SetFlag { object, flag },
        Setting::Level(level) => Act::SetLevel { object, level },
    }
}

// The letters of all flags.
const LETTERS: &[u8] = b"ABCDHJKLQSVWXZ";

// Whether a letter is one of these.
fn stands_in(letter: u8, letters: &[u8]) -> bool
    ensures { result ≡ list_any (λ other. other == letter) letters.now }
{
    letters.iter().any(|other| *other == letter)
}

/// The flag of a letter, in any case.
#[tactic(auto, using(crate::proofs::Asked::flag_of_is_one))]
pub fn flag_lettered(letter: u8) -> Option<Flags>
    ensures value { result ≡ flag_lettered letter }
    ensures one { IfSome result (λ flag. is_flag flag ≡ true) }
{
    let upper = letter.to_ascii_uppercase();
    if stands_in(upper, LETTERS) {
        Some(Flags(flag_of(upper)))
    } else {
        None
    }
}

// The level of a digit from 0 to 3.
fn level_digit(digit: u8) -> Option<Setting>
    ensures { result ≡ level_digit digit }
{
    if b'0' <= digit && digit <= b'3' {
        Some(Setting::Level(digit - b'0'))
    } else {
        None
    }
}

/// What a word asks to be set, in any case: a letter its flag, with `!` before it that it is cleared, and `M0` to `M3` a
/// level. `None` exactly where it is no such word.
#[tactic(auto, unfolding(crate::specs::Settings::setting_asked))]
pub fn setting_asked(word: &[u8]) -> Option<Setting>
    ensures value { result ≡ setting_asked word.now }
    ensures one { IfSome result (λ setting. is_setting setting ≡ true) }
{
    match word {
        [letter] => Some(Setting::Flag(flag_lettered(*letter)?)),
        [b'!', letter] => Some(Setting::NoFlag(flag_lettered(*letter)?)),
        [b'M' | b'm', digit] => level_digit(*digit),
        _ => None,
    }
}
