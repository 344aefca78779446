//! The effect of an edit on a table.

ghost use Rattle.std.specs.Prelude.{◌≡◌};
ghost use Rattle.std.specs.Result.{result_map_both};
ghost use Rattle.edit_core.specs.Edited.{edited};
ghost use Rattle.edit_core.specs.inner.EditFaults.{Gives};
ghost use Rattle.edit_core.specs.inner.EditView.{change_view};
ghost use Rattle.toml.specs.View.{table_view};

use crate::assigns::{set_in, unset_in};
use crate::edit::Change;
use crate::fault::ChangeFault;
use crate::flows::{add_to, remove_from};
use std::alloc::Global;
use toml::Table;

/// Returns the edited table, which need not be a description.
#[tactic(auto, unfolding(crate::specs::Edited::edited))]
pub(crate) fn edited(alloc: Global, table: &Table, change: &Change) -> Result<Table, ChangeFault>
    ensures { Gives (edited (change_view change.now) (table_view table.now)) (result_map_both table_view (λ fault. fault) result) }
{
    match change {
        Change::Add(words) => add_to(alloc, table, words.as_slice()),
        Change::Remove(from, to) => remove_from(alloc, table, from.as_str(), to.as_str()),
        Change::Set(invariant, assign) => set_in(alloc, table, *invariant, assign),
        Change::Unset(invariant, host) => unset_in(alloc, table, *invariant, host.as_str()),
    }
}
