//! The entries of a flow table from each host to the rest host, and from the rest host to each
//! host.

ghost use Rattle.std.specs.Prelude.{◌≡◌, ◌<◌, length, OnOk};
ghost use Rattle.std.specs.Option.{ForSome};
ghost use Rattle.host_net.specs.Host.{rest_of};
ghost use Rattle.emit_core.specs.FlowTable.{with_rest};
ghost use Rattle.emit_core.specs.inner.KeptEntries.{with_entries};
ghost use Rattle.emit_core.specs.inner.RestEntries.{prefix_on, prefixes_on, with_rest_on};

use crate::direction::Direction;
use crate::entries::Entries;
use crate::flow_entry::push_services;
use crate::policy_flow::PolicyFlow;
use host_net::{Prefix, Service};
use pkt_core::FlowPolicy;
use std::alloc::AllocError;

/// Adds the entries to and from the rest host, if there is one.
#[tactic(auto, using(crate::proofs::EntrySteps::in_parts))]
pub(crate) fn push_with_rest(
    entries: &mut Entries,
    policy: &FlowPolicy<'_>,
    rest: Option<u16>,
) -> Result<(), AllocError>
    requires { rest ≡ rest_of policy.now.site.hosts }
    ensures { OnOk result (entries.new ≡ with_entries entries.old
        (with_rest policy.now.site policy.now.permitted rest)) }
{
    if let Some(host) = rest {
        push_on_side(entries, policy, Direction::Outbound, host)?;
        push_on_side(entries, policy, Direction::Inbound, host)?;
    }
    Ok(())
}

/// Adds the entries of each host for its packets to the rest host, or for those from the rest host.
#[tactic(auto, using(crate::proofs::HostSteps::for_each_all))]
fn push_on_side(
    entries: &mut Entries,
    policy: &FlowPolicy<'_>,
    side: Direction,
    rest: u16,
) -> Result<(), AllocError>
    requires { rest < length policy.now.site.hosts }
    ensures { OnOk result (entries.new ≡ with_entries entries.old
        (with_rest_on side policy.now.site policy.now.permitted rest)) }
{
    for host in 0..policy.count() {
        let flow = PolicyFlow::on(policy, side, host, rest);
        push_prefixes(entries, side, &flow, policy.prefixes(host))?;
    }
    Ok(())
}

fn push_prefixes(
    entries: &mut Entries,
    side: Direction,
    flow: &PolicyFlow<'_>,
    prefixes: &[Prefix],
) -> Result<(), AllocError>
    ensures { OnOk result (entries.new ≡ with_entries entries.old
        (prefixes_on side flow.now.permitted flow.now.services.now prefixes.now)) }
{
    if !flow.permitted {
        return Ok(());
    }
    for prefix in prefixes {
        push_prefix(entries, side, flow.services, *prefix)?;
    }
    Ok(())
}

fn push_prefix(
    entries: &mut Entries,
    side: Direction,
    services: &[Service],
    prefix: Prefix,
) -> Result<(), AllocError>
    ensures { OnOk result (entries.new ≡ with_entries entries.old (prefix_on side services.now prefix)) }
{
    match side {
        Direction::Outbound => push_services(entries, 30, Some(prefix), None, services),
        Direction::Inbound => push_services(entries, 30, None, Some(prefix), services),
    }
}
