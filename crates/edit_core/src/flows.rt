//! Edits of the flows that a table lists.

ghost use Rattle.std.specs.Prelude.{◌≡◌, map, filter, not, string_bytes};
ghost use Rattle.std.specs.Result.{result_map_both};
ghost use Rattle.edit_core.specs.Edit.{Add, Remove};
ghost use Rattle.edit_core.specs.Edited.{edited, is_between, is_text, others};
ghost use Rattle.edit_core.specs.inner.EditFaults.{Gives};
ghost use Rattle.toml.specs.View.{table_view, view};

use crate::fault::{ChangeFault, EditWhy};
use crate::values::{copy_values, text_list, with_list};
use std::alloc::Global;
use table_core::{elements, list_at};
use toml::{Table, Value};

/// Returns the table with one more flow, at the end.
#[tactic(auto, unfolding(crate::specs::Edited::edited))]
pub(crate) fn add_to(alloc: Global, table: &Table, words: &[String]) -> Result<Table, ChangeFault>
    ensures { Gives (edited (Add (map string_bytes words.now)) (table_view table.now)) (result_map_both table_view (λ fault. fault) result) }
{
    let Some(listed) = list_at(table, "flow") else {
        return Err(ChangeFault::Refused(EditWhy::NoPolicy));
    };
    let mut flows = copy_values(alloc, listed)?;
    flows.push(text_list(alloc, words)?)?;
    Ok(with_list(alloc, table, "flow", flows)?)
}

/// Returns the table without the flow between two hosts.
#[tactic(auto, unfolding(crate::specs::Edited::edited))]
pub(crate) fn remove_from(
    alloc: Global,
    table: &Table,
    from: &str,
    to: &str,
) -> Result<Table, ChangeFault>
    ensures { Gives (edited (Remove from.now to.now) (table_view table.now)) (result_map_both table_view (λ fault. fault) result) }
{
    let Some(listed) = list_at(table, "flow") else {
        return Err(ChangeFault::Refused(EditWhy::NoPolicy));
    };
    let flows = other_flows(alloc, listed, from, to)?;
    Ok(with_list(alloc, table, "flow", flows)?)
}

/// Returns a copy of each value other than the flow between the two hosts, if there is such a flow.
fn other_flows(
    alloc: Global,
    listed: &[Value],
    from: &str,
    to: &str,
) -> Result<Vec<Value>, ChangeFault>
    ensures { Gives (others (is_between from.now to.now) (map view listed.now)) (result_map_both (λ values. map view values.items) (λ fault. fault) result) }
{
    let mut flows = copy_values(alloc, listed)?;
    retain_others(&mut flows, from, to);
    if flows.len() == listed.len() {
        return Err(ChangeFault::Refused(EditWhy::Absent));
    }
    Ok(flows)
}

/// Removes the flow between two hosts.
pub(crate) fn retain_others(values: &mut Vec<Value>, from: &str, to: &str)
    ensures { map view values.new.items ≡ filter (λ d. not (is_between from.now to.now d)) (map view values.old.items) }
{
    values.retain(|value| !is_between(value, from, to));
}

/// Whether a value is a list that begins with the names of the two hosts.
fn is_between(value: &Value, from: &str, to: &str) -> bool
    ensures { result ≡ is_between from.now to.now (view value.now) }
{
    match elements(value) {
        Some([first, second, ..]) => is_text(first, from) && is_text(second, to),
        _ => false,
    }
}

fn is_text(value: &Value, text: &str) -> bool
    ensures { result ≡ is_text text.now (view value.now) }
{
    match value.as_str() {
        Some(said) => text == said,
        None => false,
    }
}
