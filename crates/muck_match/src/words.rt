// Names, and the words and aliases in them.
ghost use Rattle.std.specs.Prelude.{◌≡◌};
ghost use Rattle.muck_match.specs.Words.{is_same, begins_alike, has_word};

/// Whether the texts are equal, without regard to case.
#[tactic(auto, unfolding(crate::specs::Words::is_same))]
pub fn is_same(a: &[u8], b: &[u8]) -> bool
    ensures { result ≡ is_same a.now b.now }
{
    a.eq_ignore_ascii_case(b)
}

/// Whether the text begins with this, without regard to case.
#[tactic(auto, unfolding(crate::specs::Words::begins_alike))]
pub fn begins_with(front: &[u8], text: &[u8]) -> bool
    ensures { result ≡ begins_alike front.now text.now }
{
    if text.len() < front.len() {
        return false;
    }
    is_same(front, text.split_at(front.len()).0)
}

/// Whether a word of the name, between spaces, begins with the text.
#[tactic(auto, unfolding(crate::specs::Words::has_word))]
pub fn has_word(text: &[u8], name: &[u8]) -> bool
    ensures { result ≡ has_word text.now name.now }
{
    name.split(|b| *b == b' ')
        .any(|word| begins_with(text, word))
}
