//! Flows that an invariant of an old network denies, and that no invariant of a new network denies.

ghost use Rattle.std.specs.Prelude.{◌≡◌, ◌++◌, IfOk, OnOk, Option};
ghost use Rattle.std.specs.List.{flat_map};
ghost use Rattle.host_net.specs.Site.{site_with};
ghost use Rattle.change_core.specs.Weaker.{AreWeaker};
ghost use Rattle.change_core.specs.inner.Sharing.{flow_in};
ghost use Rattle.change_core.specs.inner.Listing.{weaker_from, weaker_with};
ghost use Rattle.change_core.specs.inner.Serving.{flows_meet};

use crate::services::flows_meet;
use crate::sharing::{flow_in, row_of, shared_owners};
use flow_set::{Flow, FlowSet};
use host_net::{Hosts, Services};
use std::alloc::{AllocError, Global};

/// A flow that no invariant of the new network denies, and a flow that an invariant of the old network denies.
/// Some packet belongs to both.
#[derive(Clone, Copy, Debug, PartialEq, Eq)]
pub struct Weaker {
    /// The flow between hosts of the new network.
    pub flow: Flow,
    /// The flow between hosts of the old network.
    pub old: Flow,
}

/// Returns all pairs of a flow in `free` and a flow in `denied` that share a packet, where `free` has flows
/// between the hosts `new`, and `denied` has flows between the hosts `old`, each with its services. The list is
/// ordered by the flow in `free`, then by the flow in `denied`.
pub fn weaker_flows(
    alloc: Global,
    old: &Hosts,
    old_services: &Services,
    denied: &FlowSet,
    new: &Hosts,
    new_services: &Services,
    free: &FlowSet,
) -> Result<Vec<Weaker>, AllocError>
    ensures { IfOk result (λ list. AreWeaker (site_with old.now old_services.now) denied.now.flows
        (site_with new.now new_services.now) free.now.flows list.items) }
{
    // The calls establish the invariants of the flows and of the services.
    let (_, _, _) = (
        denied.size(),
        old_services.is_empty(),
        new_services.is_empty(),
    );
    let rows = shared_owners(alloc, new, old)?;
    let past = Past {
        denied,
        services: old_services,
    };
    let mut list = Vec::new(alloc);
    for flow in free.iter() {
        let from = row_of(&rows, flow.from);
        let to = row_of(&rows, flow.to);
        push_flow(&mut list, flow, new_services, &past, from, to)?;
    }
    Ok(list)
}

/// The old network: the flows that an invariant denies, and the services of flows.
#[derive(Drop)]
struct Past<'a> {
    denied: &'a FlowSet,
    services: &'a Services,
}

/// Appends the pairs of a flow. The addresses of its hosts have these owners under the old description.
fn push_flow(
    list: &mut Vec<Weaker>,
    flow: Flow,
    services: &Services,
    past: &Past<'_>,
    from: &[Option<u16>],
    to: &[Option<u16>],
) -> Result<(), AllocError>
    ensures { OnOk result (list.new.items ≡ list.old.items
        ++ flat_map (weaker_from (flows_meet services.now past.now.services.now flow) past.now.denied.now.flows flow to.now) from.now) }
{
    for sender in from {
        push_from(list, flow, services, past, *sender, to)?;
    }
    Ok(())
}

/// Appends the pairs of a flow and the denied flows from an owner.
fn push_from(
    list: &mut Vec<Weaker>,
    flow: Flow,
    services: &Services,
    past: &Past<'_>,
    sender: Option<u16>,
    to: &[Option<u16>],
) -> Result<(), AllocError>
    ensures { OnOk result (list.new.items ≡ list.old.items
        ++ weaker_from (flows_meet services.now past.now.services.now flow) past.now.denied.now.flows flow to.now sender) }
{
    for receiver in to {
        let old = flow_in(past.denied, sender, *receiver);
        push_with(list, flow, services, old, past.services)?;
    }
    Ok(())
}

/// Appends the pair of a flow and the old flow, if there is one and their services meet.
fn push_with(
    list: &mut Vec<Weaker>,
    flow: Flow,
    services: &Services,
    old: Option<Flow>,
    old_services: &Services,
) -> Result<(), AllocError>
    ensures { OnOk result (list.new.items ≡ list.old.items ++ weaker_with (flows_meet services.now old_services.now flow) flow old) }
{
    if let Some(old) = old {
        if flows_meet(services, old_services, flow, old) {
            list.push(Weaker { flow, old })?;
        }
    }
    Ok(())
}
