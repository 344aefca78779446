//! Name resolution of a description, once for each name: the templates, the hosts of the assigns
//! and those of the flows.
ghost use Rattle.std.specs.Prelude.{◌≡◌, ◌<◌, length, map, option_map, All, IfOk, IfSome};
ghost use Rattle.attr_core.specs.inner.AssignView.{given_of};
ghost use Rattle.desc_core.specs.inner.KnownView.{known_view};
ghost use Rattle.desc_core.specs.inner.Parts.{ends_of};
ghost use Rattle.desc_core.specs.RawNetwork.{given_by, known_of};
ghost use Rattle.desc_form.specs.inner.RawView.{assign_view, flow_view, invariant_view, template_view};
ghost use Rattle.table_core.specs.Listing.{each};

use crate::choice::{Choice, chosen};
use attr_core::Assign;
use desc_form::{RawAssign, RawFlow, RawInvariant, RawTemplate};
use flow_set::Flow;
use host_net::Hosts;
use std::alloc::{AllocError, Global};

/// An invariant with resolved template and hosts.
#[derive(Drop)]
pub(crate) struct KnownInvariant<'w, 'a> {
    pub(crate) template: Choice<'w, 'a>,
    pub(crate) assigns: Vec<Assign<'a>>,
}

/// Returns the invariants with their templates and hosts, or `None` if one of these names is
/// unknown.
pub(crate) fn known_invariants<'w, 'a>(
    alloc: Global,
    templates: &'w [RawTemplate<'a>],
    hosts: &Hosts,
    written: &[RawInvariant<'a>],
) -> Result<Option<Vec<KnownInvariant<'w, 'a>>>, AllocError>
    ensures known { IfOk result (λ known. option_map (λ ks. map known_view ks.items) known
        ≡ each (known_of (map template_view templates.now) hosts.now) (map invariant_view written.now)) }
    ensures hosts { IfOk result (λ known. IfSome known (λ ks. All (λ k. All (λ a. a.host < length hosts.now) k.assigns.items) ks.items)) }
{
    let mut known = Vec::new(alloc);
    for invariant in written {
        let Some(one) = known_invariant(alloc, templates, hosts, invariant)? else {
            return Ok(None);
        };
        known.push(one)?;
    }
    Ok(Some(known))
}

#[tactic(auto, unfolding(crate::specs::RawNetwork::known_of))]
fn known_invariant<'w, 'a>(
    alloc: Global,
    templates: &'w [RawTemplate<'a>],
    hosts: &Hosts,
    written: &RawInvariant<'a>,
) -> Result<Option<KnownInvariant<'w, 'a>>, AllocError>
    ensures known { IfOk result (λ known. option_map known_view known
        ≡ known_of (map template_view templates.now) hosts.now (invariant_view written.now)) }
    ensures hosts { IfOk result (λ known. IfSome known (λ k. All (λ a. a.host < length hosts.now) k.assigns.items)) }
{
    let Some(template) = chosen(templates, written.template) else {
        return Ok(None);
    };
    let Some(assigns) = assigns_among(alloc, hosts, &written.assigns)? else {
        return Ok(None);
    };
    Ok(Some(KnownInvariant { template, assigns }))
}

/// Returns the host and the table of each assign, or `None` if one of their hosts is unknown.
fn assigns_among<'a>(
    alloc: Global,
    hosts: &Hosts,
    written: &[RawAssign<'a>],
) -> Result<Option<Vec<Assign<'a>>>, AllocError>
    ensures given { IfOk result (λ among. option_map (λ assigns. map given_of assigns.items) among
        ≡ each (given_by hosts.now) (map assign_view written.now)) }
    ensures hosts { IfOk result (λ among. IfSome among (λ assigns. All (λ a. a.host < length hosts.now) assigns.items)) }
{
    let mut assigns = Vec::new(alloc);
    for assign in written {
        let Some(host) = hosts.find(assign.host.as_bytes()) else {
            return Ok(None);
        };
        assigns.push(Assign {
            host,
            table: assign.table,
        })?;
    }
    Ok(Some(assigns))
}

/// Returns the flows with their hosts, or `None` if a name is unknown. The two hosts of a flow may
/// be equal.
pub(crate) fn found_flows(
    alloc: Global,
    hosts: &Hosts,
    written: &[RawFlow<'_>],
) -> Result<Option<Vec<Flow>>, AllocError>
    ensures { IfOk result (λ found. option_map (λ flows. flows.items) found ≡ each (ends_of hosts.now) (map flow_view written.now)) }
{
    let mut flows = Vec::new(alloc);
    for flow in written {
        let Some(found) = found_flow(hosts, flow) else {
            return Ok(None);
        };
        flows.push(found)?;
    }
    Ok(Some(flows))
}

fn found_flow(hosts: &Hosts, flow: &RawFlow<'_>) -> Option<Flow>
    ensures { result ≡ ends_of hosts.now (flow_view flow.now) }
{
    let from = hosts.find(flow.from.as_bytes())?;
    let to = hosts.find(flow.to.as_bytes())?;
    Some(Flow { from, to })
}
