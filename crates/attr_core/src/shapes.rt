//! The shape of an assign's table: its keys and the kinds of their values.
ghost use Rattle.std.specs.Prelude.{◌≡◌, map};
ghost use Rattle.attr_core.specs.Shapes.{of_shape};
ghost use Rattle.table_core.specs.inner.KeyView.{key_view};
ghost use Rattle.toml.specs.View.{table_view};

use table_core::{Key, Kind, all_suit, has_only_keys, lacks_key};
use toml::Table;

/// The name of the host, which each assign has.
pub(crate) const HOST: Key = Key::Needed("host", Kind::Text);

/// Whether the table has the keys of a shape: no others, all required ones, and each value is of
/// its kind.
#[tactic(auto, unfolding(crate::specs::Shapes::of_shape))]
pub(crate) fn of_shape(table: &Table, keys: &[Key]) -> bool
    ensures { result ≡ of_shape (table_view table.now) (map key_view keys.now) }
{
    has_only_keys(table, keys) && !lacks_key(table, keys) && all_suit(table, keys)
}
