//! Whether a line consists of arguments: tokens without a `"`, and quoted texts.

ghost use Rattle.std.specs.Prelude.{◌≡◌};
ghost use Rattle.ipt_plain.specs.inner.LineSteps.{place_after, may_end, has_arguments};

use text_core::is_blank;

/// The position between two bytes of a line.
#[derive(Clone, Copy)]
pub(crate) enum Place {
    /// An argument may begin.
    Between,
    /// In a token.
    Token,
    /// In a quoted text.
    Text,
    /// In a quoted text, after a backslash.
    Escaped,
    /// After a quoted text.
    Behind,
    /// The line does not consist of arguments.
    Bad,
}

pub(crate) fn has_arguments(line: &[u8]) -> bool
    ensures { result ≡ has_arguments Place.Between line.now }
{
    let mut place = Place::Between;
    for byte in line {
        place = place_after(place, *byte);
    }
    may_end(place)
}

fn may_end(place: Place) -> bool
    ensures { result ≡ may_end place }
{
    match place {
        Place::Between | Place::Token | Place::Behind => true,
        Place::Text | Place::Escaped | Place::Bad => false,
    }
}

fn place_after(place: Place, byte: u8) -> Place
    ensures { result ≡ place_after place byte }
{
    match place {
        Place::Between => after_blank(byte),
        Place::Token => in_token(byte),
        Place::Text => in_text(byte),
        Place::Escaped => Place::Text,
        Place::Behind => after_text(byte),
        Place::Bad => Place::Bad,
    }
}

fn after_blank(byte: u8) -> Place
    ensures { result ≡ place_after Place.Between byte }
{
    if is_blank(byte) {
        return Place::Between;
    }
    if byte == b'"' {
        Place::Text
    } else {
        Place::Token
    }
}

fn in_token(byte: u8) -> Place
    ensures { result ≡ place_after Place.Token byte }
{
    if is_blank(byte) {
        return Place::Between;
    }
    if byte == b'"' {
        Place::Bad
    } else {
        Place::Token
    }
}

fn in_text(byte: u8) -> Place
    ensures { result ≡ place_after Place.Text byte }
{
    match byte {
        b'\\' => Place::Escaped,
        b'"' => Place::Behind,
        _ => Place::Text,
    }
}

fn after_text(byte: u8) -> Place
    ensures { result ≡ place_after Place.Behind byte }
{
    if is_blank(byte) {
        Place::Between
    } else {
        Place::Bad
    }
}
