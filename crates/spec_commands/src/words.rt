// The words of a line.
ghost use Rattle.std.specs.Prelude.{◌≡◌, ◌==◌};
ghost use Rattle.std.specs.List.{before_first, after_first};
ghost use Rattle.spec_commands.specs.Texts.{is_space, first_word, other_words, is_alike, start_trimmed, end_trimmed, trimmed};

use muck_model::count_before;

/// What stands before the first sign of a text, and what stands after it.
pub fn cut_at(text: &[u8], sign: u8) -> (&[u8], &[u8])
    ensures first { result.0.now ≡ before_first (λ b. b == sign) text.now }
    ensures others { result.1.now ≡ after_first (λ b. b == sign) text.now }
{
    let (first, rest) = text.split_at(count_before(text, sign));
    match rest.split_first() {
        Some((_, others)) => (first, others),
        None => (first, rest),
    }
}

/// What stands before the first space of a line, and what stands after it.
pub fn cut_word(line: &[u8]) -> (&[u8], &[u8])
    ensures first { result.0.now ≡ first_word line.now }
    ensures others { result.1.now ≡ other_words line.now }
{
    cut_at(line, b' ')
}

fn trim_start(text: &[u8]) -> &[u8]
    ensures { result.now ≡ start_trimmed text.now }
{
    let mut rest = text;
    while let Some((first, others)) = rest.split_first() {
        if *first != b' ' {
            return rest;
        }
        rest = others;
    }
    rest
}

fn trim_end(text: &[u8]) -> &[u8]
    ensures { result.now ≡ end_trimmed text.now }
{
    let mut rest = text;
    while let Some((last, others)) = rest.split_last() {
        if *last != b' ' {
            return rest;
        }
        rest = others;
    }
    rest
}

/// A text without the spaces at its ends.
pub fn trim(text: &[u8]) -> &[u8]
    ensures { result.now ≡ trimmed text.now }
{
    trim_end(trim_start(text))
}

/// Whether two texts are the same but for the case of letters.
pub fn alike(a: &[u8], b: &[u8]) -> bool
    ensures { result ≡ is_alike a.now b.now }
{
    a.eq_ignore_ascii_case(b)
}
