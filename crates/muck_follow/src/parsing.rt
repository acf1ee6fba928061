// What one line of a script asks for.
ghost use Rattle.std.specs.Prelude.{◌≡◌};
ghost use Rattle.std.specs.Option.{option_copied};
ghost use Rattle.muck_follow.specs.Script.{mirror_act_of, mirror_act_asked, behind_word, feeding, looking, examining};

use crate::Act;
use crate::number::number_of;
use muck_model::Dbref;

/// What a line asks for, or none where it is outside the grammar.
#[tactic(auto, unfolding(crate::specs::Script::mirror_act_of))]
pub fn act_of(line: &[u8]) -> Option<Act>
    ensures { result ≡ mirror_act_of line.now }
{
    let Some((first, _)) = line.split_first() else {
        return Some(Act::Nothing);
    };
    if *first == b'#' {
        return Some(Act::Nothing);
    }
    asked(line)
}

fn asked(line: &[u8]) -> Option<Act>
    ensures { result ≡ mirror_act_asked line.now }
{
    if let Some(rest) = behind(b"feed ", line) {
        return feeding(rest);
    }
    if let Some(rest) = behind(b"look ", line) {
        return looking(rest);
    }
    if let Some(rest) = behind(b"examine ", line) {
        return examining(rest);
    }
    None
}

// What stands behind a word at the front of a line, where it begins with that.
fn behind<'a>(word: &[u8], line: &'a [u8]) -> Option<&'a [u8]>
    ensures { option_copied result ≡ behind_word word.now line.now }
{
    if line.len() < word.len() || line.split_at(word.len()).0 != word {
        return None;
    }
    Some(line.split_at(word.len()).1)
}

fn feeding(rest: &[u8]) -> Option<Act>
    ensures { result ≡ feeding rest.now }
{
    let n = number_of(rest)?;
    Some(Act::Feed(n))
}

fn looking(rest: &[u8]) -> Option<Act>
    ensures { result ≡ looking rest.now }
{
    let d = Dbref::read(rest)?;
    Some(Act::Look(d))
}

fn examining(rest: &[u8]) -> Option<Act>
    ensures { result ≡ examining rest.now }
{
    let d = Dbref::read(rest)?;
    Some(Act::Examine(d))
}
