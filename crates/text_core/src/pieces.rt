//! Splitting a text at a separator.

ghost use Rattle.std.specs.Prelude.{◌≡◌, ◌≢◌, ◌==◌, ◌∷◌, ◌++◌, All, IfNone, IfSome, position};
ghost use Rattle.std.specs.Option.{option_map};
ghost use Rattle.text_core.specs.inner.Pieces.{split_once};

/// Returns the text before the first `mark` and the text after it, or `None` if the text has no
/// `mark`.
pub fn split_once(text: &[u8], mark: u8) -> Option<(&[u8], &[u8])>
    ensures value { option_map (λ parts. (parts.0.now, parts.1.now)) result ≡ split_once mark text.now }

    // The two texts joined by the mark are the text, and the mark is its first.
    ensures joined { IfSome result (λ parts. text.now ≡ parts.0.now ++ mark ∷ parts.1.now) }
    ensures first { IfSome result (λ parts. All (λ b. b ≢ mark) parts.0.now) }
    ensures nowhere { IfNone result (All (λ b. b ≢ mark) text.now) }
{
    match place_of(text, mark) {
        Some(at) => Some((&text[..at], &text[at + 1..])),
        None => None,
    }
}

fn place_of(text: &[u8], mark: u8) -> Option<usize>
    ensures { result ≡ position (λ b. b == mark) text.now }
{
    text.iter().position(|byte| *byte == mark)
}
