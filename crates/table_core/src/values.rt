//! The value at a key, by its type. The result is `None` if the key is absent or its value has
//! another type.
ghost use Rattle.std.specs.Prelude.{◌≡◌, ◌≤◌, map, option_map, option_copied, IfSome};
ghost use Rattle.table_core.specs.Tables.{text_at, integer_at, boolean_at, number_of, number_at, elements_of, list_at, list_or_empty};
ghost use Rattle.toml.specs.Data.{get_member};
ghost use Rattle.toml.specs.View.{view, table_view};

use crate::keys::has_key;
use toml::{Table, Value};

/// Returns the string at a key.
#[tactic(auto, unfolding(crate::specs::Tables::text_at))]
pub fn text_at<'a>(table: &'a Table, key: &str) -> Option<&'a str>
    ensures { option_copied result ≡ text_at key.now (table_view table.now) }
{
    value_at(table, key)?.as_str()
}

/// Returns the integer at a key.
#[tactic(auto, unfolding(crate::specs::Tables::integer_at))]
pub fn integer_at(table: &Table, key: &str) -> Option<i64>
    ensures { result ≡ integer_at key.now (table_view table.now) }
{
    value_at(table, key)?.as_integer()
}

/// Returns the boolean at a key.
#[tactic(auto, unfolding(crate::specs::Tables::boolean_at))]
pub fn boolean_at(table: &Table, key: &str) -> Option<bool>
    ensures { result ≡ boolean_at key.now (table_view table.now) }
{
    value_at(table, key)?.as_bool()
}

/// Returns the integer from 0 to `most` at a key.
#[tactic(auto, unfolding(crate::specs::Tables::number_at))]
pub fn number_at(table: &Table, key: &str, most: u16) -> Option<u16>
    ensures value { result ≡ number_at most key.now (table_view table.now) }
    ensures small { IfSome result (λ number. number ≤ most) }
{
    number_of(integer_at(table, key)?, most)
}

fn number_of(number: i64, most: u16) -> Option<u16>
    ensures value { result ≡ number_of most number }
    ensures small { IfSome result (λ number. number ≤ most) }
{
    if number < 0 || number > most as i64 {
        return None;
    }
    Some(number as u16)
}

/// Returns the elements of the array at a key.
#[tactic(auto, unfolding(crate::specs::Tables::list_at))]
pub fn list_at<'a>(table: &'a Table, key: &str) -> Option<&'a [Value]>
    ensures { option_map (λ values. map view values.now) result ≡ list_at key.now (table_view table.now) }
{
    elements(value_at(table, key)?)
}

/// Returns the elements of an array.
#[tactic(auto, unfolding(crate::specs::Tables::elements_of))]
pub fn elements(value: &Value) -> Option<&[Value]>
    ensures { option_map (λ values. map view values.now) result ≡ elements_of (view value.now) }
{
    let values = value.as_array()?;
    Some(values.as_slice())
}

/// Returns the elements of the array at a key, or an empty slice if the key is absent.
#[tactic(auto, unfolding(crate::specs::Tables::list_or_empty))]
pub fn list_or_empty<'a>(table: &'a Table, key: &str) -> Option<&'a [Value]>
    ensures { option_map (λ values. map view values.now) result ≡ list_or_empty key.now (table_view table.now) }
{
    if has_key(table, key) {
        list_at(table, key)
    } else {
        Some(&[])
    }
}

/// Returns the value at a key.
pub(crate) fn value_at<'a>(table: &'a Table, key: &str) -> Option<&'a Value>
    ensures { option_map (λ value. view value.now) result ≡ get_member key.now (table_view table.now) }
{
    table.get(key)
}
