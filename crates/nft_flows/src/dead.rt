//! The dead rules and elements of a table.

ghost use Rattle.std.specs.Prelude.{◌≡◌, IfOk};
ghost use Rattle.nft_chains.specs.Translation.{chains_of};
ghost use Rattle.nft_flows.specs.Dead.{AreDeadTablePlaces};
ghost use Rattle.nft_flows.specs.Removal.{AreRemovableTablePlaces};

use crate::place::TablePlace;
use crate::selected::with_all;
use crate::span::spans_in;
use ipt_rules::Ruleset;
use nft_space::LoadableTable;
use pass_core::dead_rules;
use std::alloc::{AllocError, Global};

/// Returns the places of the rules and elements that no packet meets, new or established, in ascending order. `chains`
/// are the chains of the table.
pub fn dead_of_table(
    alloc: Global,
    table: &LoadableTable,
    chains: &Ruleset,
) -> Result<Vec<TablePlace>, AllocError>
    requires { chains.now ≡ chains_of table.now }
    ensures dead { IfOk result (λ places. AreDeadTablePlaces table.now places.items) }
    ensures removable { IfOk result (λ places. AreRemovableTablePlaces table.now places.items) }
{
    // This call establishes that the table can be loaded.
    let _held = table.table();
    let dead = dead_rules(alloc, chains)?;
    let spans = spans_in(alloc, table, chains)?;
    with_all(alloc, &spans, &dead)
}
