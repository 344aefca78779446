//! Edits of one flow, which change table, network and policy in place.
//!
//! Adding or removing a flow without services affects no other condition on descriptions.

ghost use Rattle.std.specs.Prelude.{◌≡◌, ◌++◌, ◌∷◌, [], List, Some, filter, map, not, string_bytes, IfNone, IfSome, IsFalse, IsTrue, Ok};
ghost use Rattle.desc_core.specs.Description.{described_by_table};
ghost use Rattle.edit_core.specs.Edited.{is_between, text_list};
ghost use Rattle.edit_core.specs.inner.FlowEdits.{IsAskedFlow, IsRightFlow};
ghost use Rattle.edit_core.specs.inner.InPlace.{IsDone, IsListAfter, IsOfFlow, IsTableAfter, flows_after, network_after};
ghost use Rattle.edit_core.specs.inner.EditView.{change_view};
ghost use Rattle.flow_set.specs.Flow.{IsFlow};
ghost use Rattle.host_net.specs.Host.{host_named};
ghost use Rattle.host_net.specs.Services.{services_of};
ghost use Rattle.net_core.specs.inner.Asking.{asking_for, not_asking_for};
ghost use Rattle.toml.specs.Data.{Members};
ghost use Rattle.toml.specs.View.{table_view, view};

use crate::edit::Change;
use crate::flows::retain_others;
use crate::summary::{Summary, summary_of};
use crate::values::text_list;
use flow_set::Flow;
use net_core::{Description, NetworkWithPolicy};
use std::alloc::Global;
use std::mem;
use toml::{Table, Value};

/// Makes the edit; or changes nothing, if the edit is not of one flow, if the flow has services or
/// is invalid, or if allocation fails.
pub(crate) fn edit_in_place(
    alloc: Global,
    table: &mut Table,
    network: &mut NetworkWithPolicy,
    change: &Change,
) -> Option<Summary>
    requires described { described_by_table (table_view table.old) ≡ Ok network.old.network }
    ensures described { described_by_table (table_view table.new) ≡ Ok network.new.network }
    ensures done { IfSome result (IsDone (change_view change.now) (table_view table.old) (table_view table.new)) }
    ensures untouched { IfNone result (table.new.entries ≡ table.old.entries) }
{
    let flow = flow_of(network.description(), change)?;
    if edit_table(alloc, table, network, change, flow) {
        Some(summary_of(network))
    } else {
        None
    }
}

/// Returns the flow that the edit adds or removes, if this is allowed and the flow has no services.
fn flow_of(description: &Description, change: &Change) -> Option<Flow>
    ensures right { IfSome result (λ flow. (t : Members) → IsOfFlow t description.now (change_view change.now) flow) }
    ensures flow { IfSome result (IsFlow description.now.asked.size) }
{
    match change {
        Change::Add(words) => valid_flow(description, words.as_slice()),
        Change::Remove(from, to) => asked_flow(description, from.as_str(), to.as_str()),
        _ => None,
    }
}

/// Returns the flow that the words denote, if they denote a valid new flow without services.
fn valid_flow(description: &Description, words: &[String]) -> Option<Flow>
    ensures right { IfSome result (λ flow. (t : Members) → IsRightFlow t description.now (map string_bytes words.now) flow []) }
    ensures flow { IfSome result (IsFlow description.now.asked.size) }
{
    let [from, to] = words else {
        return None;
    };
    let flow = flow_between(description, from.as_str(), to.as_str())?;
    if description.asked().has(flow) {
        return None;
    }
    Some(flow)
}

/// Returns the flow between two hosts, if it is requested and has no services.
fn asked_flow(description: &Description, from: &str, to: &str) -> Option<Flow>
    ensures asked { IfSome result (IsAskedFlow description.now from.now to.now) }
    ensures whole { IfSome result (λ flow. services_of description.now.services flow.from flow.to ≡ []) }
    ensures flow { IfSome result (IsFlow description.now.asked.size) }
{
    let flow = flow_between(description, from, to)?;
    if !description.asked().has(flow) || !description.services().of(flow.from, flow.to).is_empty() {
        return None;
    }
    Some(flow)
}

/// Returns the flow between two hosts, given by their names.
fn flow_between(description: &Description, from: &str, to: &str) -> Option<Flow>
    ensures from { IfSome result (λ flow. host_named description.now.hosts from.now ≡ Some flow.from) }
    ensures to { IfSome result (λ flow. host_named description.now.hosts to.now ≡ Some flow.to) }
    ensures flow { IfSome result (IsFlow description.now.asked.size) }
{
    let _asked = description.asked();
    let from = description.hosts().find(from.as_bytes())?;
    let to = description.hosts().find(to.as_bytes())?;
    if from == to {
        return None;
    }
    Some(Flow { from, to })
}

/// Edits the list of flows of the table, if it has one, and the network with it.
fn edit_table(
    alloc: Global,
    table: &mut Table,
    network: &mut NetworkWithPolicy,
    change: &Change,
    flow: Flow,
) -> bool
    requires { IsFlow network.old.network.asked.size flow }
    ensures table { IsTrue result → IsTableAfter (change_view change.now) (table_view table.old) (table_view table.new) }
    ensures network { IsTrue result → network.new.network ≡ network_after (change_view change.now) flow network.old.network }
    ensures untouched { IsFalse result → table.new.entries ≡ table.old.entries }
    ensures unchanged { IsFalse result → network.new ≡ network.old }
{
    match table.get_mut("flow") {
        Some(slot) => {
            let (flows, is_done) = edit_list(alloc, take(slot), network, change, flow);
            *slot = flows;
            is_done
        }
        None => false,
    }
}

/// Moves a value out, to be changed and moved back.
fn take(slot: &mut Value) -> Value
    ensures { result ≡ slot.old }
{
    mem::replace(slot, Value::Boolean(false))
}

/// Returns the list after the edit, if it is a list, and whether the edit is done.
fn edit_list(
    alloc: Global,
    list: Value,
    network: &mut NetworkWithPolicy,
    change: &Change,
    flow: Flow,
) -> (Value, bool)
    requires { IsFlow network.old.network.asked.size flow }
    ensures list { IsTrue result.1 → IsListAfter (change_view change.now) (view list) (view result.0) }
    ensures network { IsTrue result.1 → network.new.network ≡ network_after (change_view change.now) flow network.old.network }
    ensures untouched { IsFalse result.1 → result.0 ≡ list }
    ensures unchanged { IsFalse result.1 → network.new ≡ network.old }
{
    match list {
        Value::Array(mut elements) => {
            let is_done = edit_elements(alloc, &mut elements, network, change, flow);
            (Value::Array(elements), is_done)
        }
        other => (other, false),
    }
}

/// Edits the elements of a list of flows.
fn edit_elements(
    alloc: Global,
    elements: &mut Vec<Value>,
    network: &mut NetworkWithPolicy,
    change: &Change,
    flow: Flow,
) -> bool
    requires { IsFlow network.old.network.asked.size flow }
    ensures elements { IsTrue result → map view elements.new.items ≡ flows_after (change_view change.now) (map view elements.old.items) }
    ensures network { IsTrue result → network.new.network ≡ network_after (change_view change.now) flow network.old.network }
    ensures untouched { IsFalse result → elements.new ≡ elements.old }
    ensures unchanged { IsFalse result → network.new ≡ network.old }
{
    match change {
        Change::Add(words) => add(alloc, elements, network, words.as_slice(), flow),
        Change::Remove(from, to) => {
            remove(alloc, elements, network, from.as_str(), to.as_str(), flow)
        }
        _ => false,
    }
}

/// Appends a flow to the list, if allocation succeeds, and adds it to the requested flows.
fn add(
    alloc: Global,
    elements: &mut Vec<Value>,
    network: &mut NetworkWithPolicy,
    words: &[String],
    flow: Flow,
) -> bool
    requires { IsFlow network.old.network.asked.size flow }
    ensures elements { IsTrue result → map view elements.new.items ≡ map view elements.old.items ++ text_list (map string_bytes words.now) ∷ [] }
    ensures network { IsTrue result → network.new.network ≡ asking_for network.old.network flow }
    ensures untouched { IsFalse result → elements.new ≡ elements.old }
    ensures unchanged { IsFalse result → network.new ≡ network.old }
{
    if elements.len() == elements.capacity() {
        return false;
    }
    let Ok(listed) = text_list(alloc, words) else {
        return false;
    };
    if network.request(alloc, flow).is_err() {
        return false;
    }
    elements.push(listed).is_ok()
}

/// Removes the flow between two hosts from the list and from the requested flows.
fn remove(
    alloc: Global,
    elements: &mut Vec<Value>,
    network: &mut NetworkWithPolicy,
    from: &str,
    to: &str,
    flow: Flow,
) -> bool
    requires { IsFlow network.old.network.asked.size flow }
    ensures elements { IsTrue result → map view elements.new.items ≡ filter (λ d. not (is_between from.now to.now d)) (map view elements.old.items) }
    ensures network { IsTrue result → network.new.network ≡ not_asking_for network.old.network flow }
    ensures untouched { IsFalse result → elements.new ≡ elements.old }
    ensures unchanged { IsFalse result → network.new ≡ network.old }
{
    if network.withdraw(alloc, flow).is_err() {
        return false;
    }
    retain_others(elements, from, to);
    true
}
