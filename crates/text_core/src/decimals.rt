//! Parsing decimal numbers: only digits, no sign, no leading zero.

ghost use Rattle.std.specs.Prelude.{◌≡◌, ℕ, ◌≤◌, Some, IfSome, decimal};
ghost use Rattle.text_core.specs.inner.Decimal.{number};
ghost use Rattle.text_core.specs.inner.DecimalSteps.{bounded_value, is_empty_or_padded};

/// Returns the number that the whole text denotes, or `None` if the text is no number or the number
/// exceeds `most`. The text may have any length; parsing stops as soon as the value exceeds `most`.
pub fn read_number(most: u32, text: &[u8]) -> Option<u32>
    ensures value { result ≡ number most text.now }
    ensures bounded { IfSome result (λ n. n ≤ most) }

    // The result is the number whose decimal notation the text is, and conversely.
    ensures said { IfSome result (λ n. text.now ≡ decimal n) }
    ensures read { (n : ℕ) → n ≤ most → text.now ≡ decimal n → result ≡ Some n }
{
    if is_empty_or_padded(text) {
        return None;
    }
    value_of(most, text)
}

#[tactic(auto, using(crate::proofs::DecimalLemmas::padded_none, crate::proofs::DecimalLemmas::padded_one, crate::proofs::DecimalLemmas::padded_more))]
fn is_empty_or_padded(text: &[u8]) -> bool
    ensures { result ≡ is_empty_or_padded text.now }
{
    text.is_empty() || (text.len() > 1 && text[0] == b'0')
}

fn value_of(most: u32, digits: &[u8]) -> Option<u32>
    ensures value { result ≡ bounded_value most 0 digits.now }
    ensures bounded { IfSome result (λ n. n ≤ most) }
{
    let mut value = 0u64;
    for &byte in digits {
        if !byte.is_ascii_digit() {
            return None;
        }
        value = 10 * value + (byte - b'0') as u64;
        if value > most as u64 {
            return None;
        }
    }
    Some(value as u32)
}
