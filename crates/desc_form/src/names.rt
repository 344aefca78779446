//! The refusal for a text that is no legal name, in the position of a host's name: at hosts, then
//! in assigns, then in flows. The names are checked in place, without collecting them.
ghost use Rattle.std.specs.Prelude.{◌≡◌, flat_map, map};
ghost use Rattle.desc_form.specs.inner.RawView.{assign_view, flow_view, host_view, invariant_view, raw_view};
ghost use Rattle.desc_form.specs.HostConditions.{bad_name};
ghost use Rattle.desc_form.specs.Mentions.{all_names, assign_names_of, flow_names_of};
ghost use Rattle.desc_form.specs.inner.NameUseView.{assign_name, host_name};
ghost use Rattle.text_core.specs.FirstMatch.{first_found, numbered};

use crate::raw::{RawAssign, RawDescription, RawFlow, RawHost, RawInvariant};
use crate::refusal::{Place, Refusal, Why};
use text_core::is_name;

/// Returns the refusal of a text in the position of a name that is no legal name.
#[tactic(auto, unfolding(crate::specs::Mentions::all_names, crate::specs::Mentions::used_names), using(crate::proofs::NamesLaws::bad_name_append, crate::proofs::NamesLaws::bad_name_in_turn))]
pub(crate) fn bad_name(written: &RawDescription<'_>) -> Option<Refusal>
    ensures { result ≡ bad_name (all_names (raw_view written.now)) }
{
    let host = bad_host_name(&written.hosts);
    if host.is_some() {
        return host;
    }
    let assign = bad_assign_name(&written.invariants);
    if assign.is_some() {
        return assign;
    }
    bad_flow_name(&written.flows)
}

#[tactic(auto, unfolding(crate::specs::HostConditions::bad_name))]
fn bad_host_name(hosts: &[RawHost<'_>]) -> Option<Refusal>
    ensures { result ≡ bad_name (map host_name (numbered (map host_view hosts.now))) }
{
    for (index, host) in hosts.iter().enumerate() {
        if !is_name(host.name.as_bytes()) {
            return Some(Refusal::at(Why::BadName, Place::Host(index as u64 + 1)));
        }
    }
    None
}

fn bad_assign_name(invariants: &[RawInvariant<'_>]) -> Option<Refusal>
    ensures { result ≡ first_found (λ i. bad_name (assign_names_of i)) (numbered (map invariant_view invariants.now)) }
{
    for (index, invariant) in invariants.iter().enumerate() {
        let found = bad_name_among(index as u64 + 1, &invariant.assigns);
        if found.is_some() {
            return found;
        }
    }
    None
}

/// The same among the assigns of the invariant with a number.
#[tactic(auto, unfolding(crate::specs::HostConditions::bad_name))]
fn bad_name_among(number: u64, assigns: &[RawAssign<'_>]) -> Option<Refusal>
    ensures { result ≡ bad_name (map (assign_name number) (numbered (map assign_view assigns.now))) }
{
    for (index, assign) in assigns.iter().enumerate() {
        if !is_name(assign.host.as_bytes()) {
            let place = Place::Assign(number, index as u64 + 1);
            return Some(Refusal::at(Why::BadName, place));
        }
    }
    None
}

#[tactic(auto, unfolding(crate::specs::HostConditions::bad_name))]
fn bad_flow_name(flows: &[RawFlow<'_>]) -> Option<Refusal>
    ensures { result ≡ bad_name (flat_map flow_names_of (numbered (map flow_view flows.now))) }
{
    for (index, flow) in flows.iter().enumerate() {
        let place = Place::FlowAt(index as u64 + 1);
        if !is_name(flow.from.as_bytes()) {
            return Some(Refusal::at(Why::BadName, place).with_item(1));
        }
        if !is_name(flow.to.as_bytes()) {
            return Some(Refusal::at(Why::BadName, place).with_item(2));
        }
    }
    None
}
