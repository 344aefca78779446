//! Typed access to TOML tables: the keys of a table, and the string, integer, boolean or list at a
//! key. Parsers of tables use these calls; each is equal to its definition. A table of keys
//! specifies the keys that a TOML table may have and the kind of each value.
#![tactic(auto)]

mod keys;
mod kinds;
mod values;

pub use keys::{Key, all_suit, has_key, has_only_keys, lacks_key};
pub use kinds::{Kind, are_texts, is_one_of};
pub use values::{boolean_at, elements, integer_at, list_at, list_or_empty, number_at, text_at};
