//! Construction of the network from a well-formed raw description.
ghost use Rattle.std.specs.Prelude.{◌≡◌, ◌<◌, None, Some, length, map, All, IfErr, IfOk};
ghost use Rattle.desc_core.specs.declared.fault.DescFault.TheVariants.{Refused};
ghost use Rattle.desc_core.specs.inner.Judgement.{CanBeBuilt, built_of};
ghost use Rattle.desc_core.specs.inner.KnownView.{known_view};
ghost use Rattle.desc_core.specs.inner.Makeable.{CanBeMade};
ghost use Rattle.desc_core.specs.inner.Parts.{before_last, ends_of, network_by_uses, network_or};
ghost use Rattle.desc_core.specs.inner.Reads.{Reads};
ghost use Rattle.desc_core.specs.RawNetwork.{known_of, made_of};
ghost use Rattle.table_core.specs.Listing.{each};
ghost use Rattle.text_core.specs.FirstMatch.{first_of};
ghost use Rattle.desc_form.specs.declared.refusal.Refusal.{Refusal};
ghost use Rattle.desc_form.specs.inner.RawView.{raw_view};
ghost use Rattle.desc_form.specs.HostConditions.{host_conditions};
ghost use Rattle.desc_form.specs.RawHosts.{network_hosts};

use crate::fault::DescFault;
use crate::flows::{asked_flows, self_flow};
use crate::invariants::{Judged, built_invariants, judged_invariants};
use crate::known::{KnownInvariant, found_flows, known_invariants};
use crate::names::{duplicate_assign, unknown_name};
use crate::services::read_services;
use crate::templates::template_refusal;
use desc_form::{RawDescription, host_refusal, read_hosts};
use flow_set::Flow;
use host_net::Hosts;
use net_core::Description;
use std::alloc::Global;

/// Returns the network of the raw description, or its first refusal.
pub(crate) fn read_network(
    alloc: Global,
    written: &RawDescription<'_>,
) -> Result<Description, DescFault>
    ensures { Reads result (network_or (raw_view written.now)) }
{
    if let Some(refusal) = host_refusal(alloc, written)? {
        return Err(DescFault::Refused(refusal));
    }
    let hosts = read_hosts(alloc, written)?;
    network_of_hosts(alloc, hosts, written)
}

/// The same, after the hosts are read.
fn network_of_hosts(
    alloc: Global,
    hosts: Hosts,
    written: &RawDescription<'_>,
) -> Result<Description, DescFault>
    requires hosts { hosts ≡ network_hosts (raw_view written.now) }
    requires no_refusal { first_of (host_conditions (raw_view written.now)) ≡ None }
    ensures { Reads result (network_by_uses (raw_view written.now)) }
{
    let known = known_invariants(alloc, &written.templates, &hosts, &written.invariants)?;
    let Some(invariants) = known else {
        return Err(DescFault::Refused(unknown_name(alloc, &hosts, written)?));
    };
    let Some(flows) = found_flows(alloc, &hosts, &written.flows)? else {
        return Err(DescFault::Refused(unknown_name(alloc, &hosts, written)?));
    };
    network_of_known(alloc, hosts, written, &invariants, &flows)
}

/// The same, after all names are resolved.
fn network_of_known(
    alloc: Global,
    hosts: Hosts,
    written: &RawDescription<'_>,
    invariants: &[KnownInvariant<'_, '_>],
    flows: &[Flow],
) -> Result<Description, DescFault>
    requires hosts { hosts ≡ network_hosts (raw_view written.now) }
    requires no_refusal { first_of (host_conditions (raw_view written.now)) ≡ None }
    requires known { each (known_of (raw_view written.now).templates hosts) (raw_view written.now).invariants
        ≡ Some (map known_view invariants.now) }
    requires within { All (λ k. All (λ a. a.host < length hosts) k.assigns.items) invariants.now }
    requires found { each (ends_of hosts) (raw_view written.now).flows ≡ Some flows.now }
    ensures { Reads result (network_by_uses (raw_view written.now)) }
{
    let judged = judged_uses(alloc, &hosts, written, invariants, flows)?;
    let asked = asked_flows(alloc, hosts.count(), written.given, flows)?;
    let services = read_services(alloc, flows, &written.flows)?;
    if let Some(refusal) = template_refusal(written) {
        return Err(DescFault::Refused(refusal));
    }
    let invariants = built_invariants(alloc, &hosts, judged)?;
    Ok(Description::new(
        hosts,
        asked,
        services,
        written.given,
        written.answers,
        invariants,
    ))
}

/// Returns the invariants with their assigns judged, or the first refusal of an assign, or of a
/// flow from a host to itself.
fn judged_uses<'k, 'w, 'a>(
    alloc: Global,
    hosts: &Hosts,
    written: &RawDescription<'_>,
    invariants: &'k [KnownInvariant<'w, 'a>],
    flows: &[Flow],
) -> Result<Vec<Judged<'k, 'w, 'a>>, DescFault>
    requires { All (λ k. All (λ a. a.host < length hosts.now) k.assigns.items) invariants.now }
    ensures refused { IfErr result (λ fault. (r : Refusal) → fault ≡ Refused r
        → before_last (raw_view written.now) hosts.now (map known_view invariants.now) flows.now ≡ Some r) }
    ensures good { IfOk result (λ _. before_last (raw_view written.now) hosts.now (map known_view invariants.now) flows.now ≡ None) }
    ensures built { IfOk result (λ judged. map (built_of hosts.now) judged.items ≡ map (made_of hosts.now) (map known_view invariants.now)) }
    ensures buildable { IfOk result (λ judged. All (λ k. CanBeMade (known_view k).template) invariants.now → All (CanBeBuilt hosts.now) judged.items) }
{
    if let Some(refusal) = duplicate_assign(&written.invariants) {
        return Err(DescFault::Refused(refusal));
    }
    let judged = judged_invariants(alloc, hosts, invariants)?;
    if let Some(refusal) = self_flow(flows) {
        return Err(DescFault::Refused(refusal));
    }
    Ok(judged)
}
