//! Common parts of the templates of kinds: a word at the key `kind`.

use crate::shapes::HOST;
use table_core::{Key, Kind};

/// The word for the kind of the host.
pub(crate) const KIND: Key = Key::Needed("kind", Kind::Text);

/// The keys of a table that specifies a kind, and nothing else.
pub(crate) const KEYS: [Key; 2] = [HOST, KIND];
