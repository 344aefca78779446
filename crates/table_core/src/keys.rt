//! The keys of a table, and tables of keys that specify the keys that it may have.
ghost use Rattle.std.specs.Prelude.{◌≡◌, ◌&&◌, not, map};
ghost use Rattle.std.specs.List.{list_all, list_any};
ghost use Rattle.std.specs.Str.{bytes_eq};
ghost use Rattle.table_core.specs.Keys.{all_suit, has_only_keys, lacks_key, suits_in};
ghost use Rattle.table_core.specs.inner.KeyView.{key_view};
ghost use Rattle.table_core.specs.Tables.{has_key};
ghost use Rattle.toml.specs.View.{table_view};

use crate::kinds::{Kind, stands_at};
use crate::values::value_at;
use toml::Table;

/// A key of a table, and the kind of its value.
#[derive(Clone, Copy)]
pub enum Key {
    /// The key is required.
    Needed(&'static str, Kind),
    /// The key is optional.
    Optional(&'static str, Kind),
}

impl Key {
    fn name(&self) -> &'static str
        ensures { result.now ≡ (key_view self.now).name }
    {
        match self {
            Key::Needed(name, _) | Key::Optional(name, _) => name,
        }
    }

    /// Whether the key is required and the table lacks it.
    fn is_missing(&self, table: &Table) -> bool
        ensures { result ≡ ((key_view self.now).needed && not (has_key (key_view self.now).name (table_view table.now))) }
    {
        match self {
            Key::Needed(name, _) => !has_key(table, name),
            Key::Optional(_, _) => false,
        }
    }

    /// Whether the value of the key, if there is one, is of its kind.
    fn suits(&self, table: &Table) -> bool
        ensures { result ≡ suits_in (table_view table.now) (key_view self.now) }
    {
        match self {
            Key::Needed(name, kind) | Key::Optional(name, kind) => {
                !has_key(table, name) || stands_at(table, name, *kind)
            }
        }
    }
}

/// Whether each key of the table is one of `keys`.
pub fn has_only_keys(table: &Table, keys: &[Key]) -> bool
    ensures { result ≡ has_only_keys (map key_view keys.now) (table_view table.now) }
{
    table.keys().all(|key| is_key_among(key.as_str(), keys))
}

fn is_key_among(name: &str, keys: &[Key]) -> bool
    ensures { result ≡ list_any (λ key. bytes_eq name.now (key_view key).name) keys.now }
{
    keys.iter().any(|key| name == key.name())
}

/// Whether the table lacks one of `keys` that is required.
pub fn lacks_key(table: &Table, keys: &[Key]) -> bool
    ensures { result ≡ lacks_key (map key_view keys.now) (table_view table.now) }
{
    is_one_missing(table, keys)
}

fn is_one_missing(table: &Table, keys: &[Key]) -> bool
    ensures { result ≡ list_any (λ key. (key_view key).needed && not (has_key (key_view key).name (table_view table.now))) keys.now }
{
    keys.iter().any(|key| key.is_missing(table))
}

/// Whether the value of each of `keys` that is present is of its kind.
pub fn all_suit(table: &Table, keys: &[Key]) -> bool
    ensures { result ≡ all_suit (map key_view keys.now) (table_view table.now) }
{
    each_suits(table, keys)
}

fn each_suits(table: &Table, keys: &[Key]) -> bool
    ensures { result ≡ list_all (λ key. suits_in (table_view table.now) (key_view key)) keys.now }
{
    keys.iter().all(|key| key.suits(table))
}

/// Whether the table has the key.
#[tactic(auto, unfolding(crate::specs::Tables::has_key))]
pub fn has_key(table: &Table, key: &str) -> bool
    ensures { result ≡ has_key key.now (table_view table.now) }
{
    value_at(table, key).is_some()
}
