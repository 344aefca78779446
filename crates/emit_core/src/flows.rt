//! The entries of a flow table, by source host and destination host of a frame.

ghost use Rattle.std.specs.Prelude.{◌≡◌, ◌<◌, length, OnOk, if◌then◌else◌, []};
ghost use Rattle.host_net.specs.Service.{is_whole};
ghost use Rattle.emit_core.specs.FlowTable.{between, from_host, from_prefix, host_pair, pair_entries, rest_drop};
ghost use Rattle.emit_core.specs.inner.KeptEntries.{with_entries};

use crate::entries::Entries;
use crate::flow_entry::{push_rest_drop, push_services};
use crate::narrowing::is_whole;
use crate::policy_flow::PolicyFlow;
use host_net::{Prefix, Service};
use pkt_core::FlowPolicy;
use std::alloc::AllocError;

/// Adds the entries from each host to each host.
#[tactic(auto, using(crate::proofs::HostSteps::for_each_all))]
pub(crate) fn push_between(
    entries: &mut Entries,
    policy: &FlowPolicy<'_>,
    rest: Option<u16>,
) -> Result<(), AllocError>
    ensures { OnOk result (entries.new ≡ with_entries entries.old
        (between policy.now.site policy.now.permitted rest)) }
{
    for from in 0..policy.count() {
        push_from_host(entries, policy, rest, from, policy.prefixes(from))?;
    }
    Ok(())
}

#[tactic(auto, using(crate::proofs::HostSteps::for_each_all))]
fn push_from_host(
    entries: &mut Entries,
    policy: &FlowPolicy<'_>,
    rest: Option<u16>,
    from: u16,
    sources: &[Prefix],
) -> Result<(), AllocError>
    requires { from < length policy.now.site.hosts }
    ensures { OnOk result (entries.new ≡ with_entries entries.old
        (from_host policy.now.site policy.now.permitted rest from sources.now)) }
{
    for to in 0..policy.count() {
        let flow = PolicyFlow::of(policy, from, to);
        push_host_pair(entries, &flow, rest, sources, policy.prefixes(to))?;
    }
    Ok(())
}

fn push_host_pair(
    entries: &mut Entries,
    flow: &PolicyFlow<'_>,
    rest: Option<u16>,
    sources: &[Prefix],
    destinations: &[Prefix],
) -> Result<(), AllocError>
    ensures { OnOk result (entries.new ≡ with_entries entries.old
        (host_pair flow.now.permitted flow.now.services.now rest sources.now destinations.now)) }
{
    for source in sources {
        push_from_prefix(entries, flow, rest, *source, destinations)?;
    }
    Ok(())
}

fn push_from_prefix(
    entries: &mut Entries,
    flow: &PolicyFlow<'_>,
    rest: Option<u16>,
    source: Prefix,
    destinations: &[Prefix],
) -> Result<(), AllocError>
    ensures { OnOk result (entries.new ≡ with_entries entries.old
        (from_prefix flow.now.permitted flow.now.services.now rest destinations.now source)) }
{
    for destination in destinations {
        push_pair(entries, flow, rest, source, *destination)?;
    }
    Ok(())
}

#[tactic(auto, using(crate::proofs::EntrySteps::in_parts))]
fn push_pair(
    entries: &mut Entries,
    flow: &PolicyFlow<'_>,
    rest: Option<u16>,
    source: Prefix,
    destination: Prefix,
) -> Result<(), AllocError>
    ensures { OnOk result (entries.new ≡ with_entries entries.old
        (pair_entries flow.now.permitted flow.now.services.now rest source destination)) }
{
    if flow.permitted {
        push_services(entries, 40, Some(source), Some(destination), flow.services)?;
        push_low_drop(entries, flow.services, rest, source, destination)
    } else {
        push_rest_drop(entries, rest, 40, source, destination)
    }
}

// Adds, below the services of a restricted flow, the entry that drops packets which would otherwise
// match an entry of the rest host.
fn push_low_drop(
    entries: &mut Entries,
    services: &[Service],
    rest: Option<u16>,
    source: Prefix,
    destination: Prefix,
) -> Result<(), AllocError>
    ensures { OnOk result (entries.new ≡ with_entries entries.old
        (if is_whole services.now then [] else rest_drop rest 35 source destination)) }
{
    if !is_whole(services) {
        push_rest_drop(entries, rest, 35, source, destination)?;
    }
    Ok(())
}
