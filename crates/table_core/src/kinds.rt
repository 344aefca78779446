//! The kinds of values in a table.
ghost use Rattle.std.specs.Prelude.{◌≡◌, false, map};
ghost use Rattle.std.specs.List.{list_all, list_any};
ghost use Rattle.std.specs.Str.{bytes_eq};
ghost use Rattle.std.specs.Option.{option_map_or};
ghost use Rattle.table_core.specs.Keys.{is_one_of, is_text, stands_at};
ghost use Rattle.table_core.specs.inner.KeyView.{kind_view};
ghost use Rattle.table_core.specs.declared.kinds.Kind.TheVariants.{Texts};
ghost use Rattle.table_core.specs.Tables.{text_at};
ghost use Rattle.toml.specs.View.{view, table_view};

use crate::values::{boolean_at, integer_at, list_at, number_at, text_at};
use toml::{Table, Value};

/// The kind of the value of a key.
#[derive(Clone, Copy)]
pub enum Kind {
    Text,
    /// A string that is one of these words.
    OneOf(&'static [&'static str]),
    /// An integer.
    Integer,
    /// An integer from 0 to a maximum.
    Number(u16),
    Boolean,
    List,
    /// A list of strings.
    Texts,
}

/// Whether the value of the key is of the kind.
pub(crate) fn stands_at(table: &Table, key: &str, kind: Kind) -> bool
    ensures { result ≡ stands_at (kind_view kind) key.now (table_view table.now) }
{
    match kind {
        Kind::Text => text_at(table, key).is_some(),
        Kind::OneOf(words) => has_one_of(table, key, words),
        Kind::Integer => integer_at(table, key).is_some(),
        Kind::Number(most) => number_at(table, key, most).is_some(),
        Kind::Boolean => boolean_at(table, key).is_some(),
        Kind::List => list_at(table, key).is_some(),
        Kind::Texts => has_texts(table, key),
    }
}

fn has_one_of(table: &Table, key: &str, words: &[&str]) -> bool
    ensures { result ≡ option_map_or (is_one_of (map (λ word. word.now) words.now)) (text_at key.now (table_view table.now)) false }
{
    match text_at(table, key) {
        Some(word) => is_one_of(word, words),
        None => false,
    }
}

/// Whether the word is one of these.
pub fn is_one_of(word: &str, words: &[&str]) -> bool
    ensures { result ≡ is_one_of (map (λ word. word.now) words.now) word.now }
{
    is_among(word, words)
}

fn is_among(word: &str, words: &[&str]) -> bool
    ensures { result ≡ list_any (λ other. bytes_eq word.now other.now) words.now }
{
    words.iter().any(|other| word == *other)
}

fn has_texts(table: &Table, key: &str) -> bool
    ensures { result ≡ stands_at (kind_view Texts) key.now (table_view table.now) }
{
    match list_at(table, key) {
        Some(values) => are_texts(values),
        None => false,
    }
}

/// Whether each of the values is a string.
pub fn are_texts(values: &[Value]) -> bool
    ensures { result ≡ list_all is_text (map view values.now) }
{
    all_are_texts(values)
}

fn all_are_texts(values: &[Value]) -> bool
    ensures { result ≡ list_all (λ value. is_text (view value)) values.now }
{
    values.iter().all(|value| value.as_str().is_some())
}
