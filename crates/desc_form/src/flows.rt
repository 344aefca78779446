//! Raw flows, and pairs of kinds, which have the same form.
ghost use Rattle.std.specs.Prelude.{◌≡◌, false, is_some, length, map, option_map, IfOk};
ghost use Rattle.std.specs.List.{list_all};
ghost use Rattle.std.specs.Option.{option_map_or};
ghost use Rattle.desc_form.specs.Places.{fits_version};
ghost use Rattle.desc_form.specs.RawFlow.{flow_of_values, raw_flow};
ghost use Rattle.desc_form.specs.RawTemplate.{pair_of_flow, raw_pair};
ghost use Rattle.desc_form.specs.inner.RawView.{flow_view, pair_view};
ghost use Rattle.toml.specs.View.{view};

use crate::raw::{RawFlow, RawPair, texts_among};
use std::alloc::{AllocError, Global};
use table_core::{are_texts, elements};
use toml::Value;

/// Whether the value is a flow, in a document of the given version: only version 2 has services.
pub(crate) fn is_flow(version: Option<i64>, value: &Value) -> bool
    ensures { result ≡ option_map_or (fits_version version) (raw_flow (view value.now)) false }
{
    match service_count(value) {
        Some(count) => count == 0 || version == Some(2),
        None => false,
    }
}

/// Whether each of the values is a pair.
pub(crate) fn are_pairs(values: &[Value]) -> bool
    ensures { result ≡ list_all (λ d. is_some (raw_pair d)) (map view values.now) }
{
    all_are_pairs(values)
}

fn all_are_pairs(values: &[Value]) -> bool
    ensures { result ≡ list_all (λ value. is_some (raw_pair (view value))) values.now }
{
    values.iter().all(|value| is_pair(value))
}

/// Whether the value is an array of two strings.
fn is_pair(value: &Value) -> bool
    ensures { result ≡ is_some (raw_pair (view value.now)) }
{
    match service_count(value) {
        Some(count) => count == 0,
        None => false,
    }
}

/// Returns the pair of an array of two strings.
#[tactic(auto, unfolding(crate::specs::RawTemplate::raw_pair))]
pub(crate) fn read_pair(alloc: Global, value: &Value) -> Result<Option<RawPair<'_>>, AllocError>
    ensures { IfOk result (λ pair. option_map pair_view pair ≡ raw_pair (view value.now)) }
{
    match read_flow(alloc, value)? {
        Some(flow) => Ok(pair_of_flow(&flow)),
        None => Ok(None),
    }
}

/// Returns the pair of a flow without services.
fn pair_of_flow<'a>(flow: &RawFlow<'a>) -> Option<RawPair<'a>>
    ensures { option_map pair_view result ≡ pair_of_flow (flow_view flow.now) }
{
    if !flow.services.is_empty() {
        return None;
    }
    Some(RawPair {
        sender: flow.from,
        receiver: flow.to,
    })
}

/// Returns the number of services of the flow of an array, if the array is a flow. Does not
/// allocate.
#[tactic(auto, unfolding(crate::specs::RawFlow::raw_flow))]
fn service_count(value: &Value) -> Option<usize>
    ensures { result ≡ option_map (λ f. length f.services) (raw_flow (view value.now)) }
{
    services_behind(elements(value)?)
}

/// Returns the number of services after two names, if all values are strings.
#[tactic(auto, using(crate::proofs::FlowLaws::no_services))]
fn services_behind(values: &[Value]) -> Option<usize>
    ensures { result ≡ option_map (λ f. length f.services) (flow_of_values (map view values.now)) }
{
    if !are_texts(values) {
        return None;
    }
    values.len().checked_sub(2)
}

/// Returns the flow of an array.
#[tactic(auto, unfolding(crate::specs::RawFlow::raw_flow))]
pub(crate) fn read_flow(alloc: Global, value: &Value) -> Result<Option<RawFlow<'_>>, AllocError>
    ensures { IfOk result (λ flow. option_map flow_view flow ≡ raw_flow (view value.now)) }
{
    match elements(value) {
        Some(values) => flow_of(alloc, values),
        None => Ok(None),
    }
}

/// Returns the flow of a list of values, if they are at least two strings.
fn flow_of(alloc: Global, values: &[Value]) -> Result<Option<RawFlow<'_>>, AllocError>
    ensures { IfOk result (λ flow. option_map flow_view flow ≡ flow_of_values (map view values.now)) }
{
    let [first, second, services @ ..] = values else {
        return Ok(None);
    };
    let (Some(from), Some(to)) = (first.as_str(), second.as_str()) else {
        return Ok(None);
    };
    if !are_texts(services) {
        return Ok(None);
    }
    let services = texts_among(alloc, services)?;
    Ok(Some(RawFlow { from, to, services }))
}
