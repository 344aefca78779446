//! The remainder of a line after its first tokens.

ghost use Rattle.std.specs.Prelude.{◌≡◌, not, position};
ghost use Rattle.text_core.specs.Lines.{is_blank};
ghost use Rattle.edit_core.specs.Behind.{after_first_word, from_first};

use text_core::is_blank;

/// Returns the text after the first token of a line.
pub(crate) fn after_first_word(line: &[u8]) -> &[u8]
    ensures { result.now ≡ after_first_word line.now }
{
    from_blank(from_word(line))
}

/// Returns the line from its first token on.
#[tactic(auto, using(crate::proofs::BehindLaws::from_place))]
fn from_word(line: &[u8]) -> &[u8]
    ensures { result.now ≡ from_first (λ b. not (is_blank b)) line.now }
{
    match place_of_word(line) {
        Some(place) => line.split_at(place).1,
        None => &[],
    }
}

/// Returns the text from its first blank on.
#[tactic(auto, using(crate::proofs::BehindLaws::from_place))]
fn from_blank(text: &[u8]) -> &[u8]
    ensures { result.now ≡ from_first is_blank text.now }
{
    match place_of_blank(text) {
        Some(place) => text.split_at(place).1,
        None => &[],
    }
}

fn place_of_word(line: &[u8]) -> Option<usize>
    ensures { result ≡ position (λ b. not (is_blank b)) line.now }
{
    line.iter().position(|byte| !is_blank(*byte))
}

fn place_of_blank(text: &[u8]) -> Option<usize>
    ensures { result ≡ position is_blank text.now }
{
    text.iter().position(|byte| is_blank(*byte))
}
