// The commands of the editor.
ghost use Rattle.std.specs.Prelude.{◌≡◌, ◌≤◌, IfSome};
ghost use Rattle.spec_commands.specs.Editing.{line_number, plain_command, line_command, lines_command, edit_command};
ghost use Rattle.muck_edit.specs.inner.Edits.{IsWithin};

use muck_model::decimal;
use spec_commands::{EditCommand, alike, cut_word, trim};

// The number of a line, from 1 to the count.
#[tactic(auto, unfolding(spec_commands::specs::Editing::line_number))]
fn line_number(count: u32, word: &[u8]) -> Option<u32>
    ensures value { result ≡ line_number count word.now }
    ensures within { IfSome result (λ n. (1 ≤ n) × (n ≤ count)) }
{
    let n = decimal(word, u64::from(count))?;
    if n == 0 {
        return None;
    }
    Some(n as u32)
}

// A word alone.
#[tactic(auto, unfolding(spec_commands::specs::Editing::plain_command))]
fn plain_command(count: u32, word: &[u8]) -> Option<EditCommand>
    ensures value { result ≡ plain_command count word.now }
    ensures within { IfSome result (IsWithin count) }
{
    if alike(word, b"i") {
        return Some(EditCommand::Insert(count));
    }
    if alike(word, b"l") {
        return Some(EditCommand::Show { from: 0, to: count });
    }
    if alike(word, b"c") {
        return Some(EditCommand::Compile);
    }
    if alike(word, b"q") {
        return Some(EditCommand::Quit);
    }
    None
}

// A word behind the number of a line.
#[tactic(auto, unfolding(spec_commands::specs::Editing::line_command))]
fn line_command(n: u32, word: &[u8]) -> Option<EditCommand>
    requires { 1 ≤ n }
    ensures value { result ≡ line_command n word.now }
    ensures within { IfSome result (IsWithin n) }
{
    if alike(word, b"i") {
        return Some(EditCommand::Insert(n - 1));
    }
    if alike(word, b"d") {
        return Some(EditCommand::Delete { from: n - 1, to: n });
    }
    None
}

// A word behind the numbers of two lines.
#[tactic(auto, unfolding(spec_commands::specs::Editing::lines_command))]
fn lines_command(first: u32, last: u32, word: &[u8]) -> Option<EditCommand>
    requires { 1 ≤ first }
    ensures value { result ≡ lines_command first last word.now }
    ensures within { IfSome result (IsWithin last) }
{
    if last < first {
        return None;
    }
    if alike(word, b"d") {
        return Some(EditCommand::Delete {
            from: first - 1,
            to: last,
        });
    }
    if alike(word, b"l") {
        return Some(EditCommand::Show {
            from: first - 1,
            to: last,
        });
    }
    None
}

/// What a line asks of the editor, where there are so many source lines; `None` exactly where it is no command.
#[tactic(auto, unfolding(spec_commands::specs::Editing::edit_command))]
pub fn edit_command(count: u32, line: &[u8]) -> Option<EditCommand>
    ensures value { result ≡ edit_command count line.now }
    ensures within { IfSome result (IsWithin count) }
{
    let text = trim(line);
    let (first, others) = cut_word(text);
    let others = trim(others);
    if others.is_empty() {
        return plain_command(count, text);
    }
    let (second, last) = cut_word(others);
    let last = trim(last);
    if last.is_empty() {
        let n = line_number(count, first)?;
        return line_command(n, others);
    }
    let from = line_number(count, first)?;
    let to = line_number(count, second)?;
    lines_command(from, to, last)
}
