//! The arguments after a verb.

ghost use Rattle.std.specs.Prelude.{◌≡◌, map, string_bytes, option_map};
ghost use Rattle.run_core.specs.inner.Forms.{one_word, two_words, three_words};

/// Returns the single argument, if there is exactly one.
pub fn one_word(words: &[String]) -> Option<&str>
    ensures { option_map (λ word. word.now) result ≡ one_word (map string_bytes words.now) }
{
    match words {
        [word] => Some(word.as_str()),
        [] | [_, _, ..] => None,
    }
}

/// Returns the two arguments, if there are exactly two.
pub fn two_words(words: &[String]) -> Option<(&str, &str)>
    ensures { option_map (λ pair. (pair.0.now, pair.1.now)) result ≡ two_words (map string_bytes words.now) }
{
    match words {
        [first, second] => Some((first.as_str(), second.as_str())),
        [] | [_] | [_, _, _, ..] => None,
    }
}

/// Returns the three arguments, if there are exactly three.
pub fn three_words(words: &[String]) -> Option<(&str, &str, &str)>
    ensures { option_map (λ all. (all.0.now, all.1.now, all.2.now)) result ≡ three_words (map string_bytes words.now) }
{
    match words {
        [first, second, third] => Some((first.as_str(), second.as_str(), third.as_str())),
        [] | [_] | [_, _] | [_, _, _, _, ..] => None,
    }
}
