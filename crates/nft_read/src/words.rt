//! Parts of a line.

ghost use Rattle.std.specs.Prelude.{◌≡◌};
ghost use Rattle.std.specs.Option.{option_map};
ghost use Rattle.nft_read.specs.inner.LineSteps.{after, word};

use text_core::split_once;

/// Returns what follows a prefix, if the text begins with the prefix.
pub(crate) fn after<'a>(prefix: &[u8], text: &'a [u8]) -> Option<&'a [u8]>
    ensures { option_map (λ rest. rest.now) result ≡ after prefix.now text.now }
{
    text.strip_prefix(prefix)
}

/// Returns the text up to the first blank, or the whole text.
pub(crate) fn word(text: &[u8]) -> &[u8]
    ensures { result.now ≡ word text.now }
{
    match split_once(text, b' ') {
        Some((front, _)) => front,
        None => text,
    }
}
