//! Weaker flows with the invariants that denied them.

ghost use Rattle.std.specs.Prelude.{◌≡◌, All, IfOk, map};
ghost use Rattle.flow_set.specs.EveryFlow.{every_flow};
ghost use Rattle.flow_set.specs.Flow.{IsFlow};
ghost use Rattle.changes_json.specs.inner.Denying.{HasFinding, place_of};

use change_core::Weaker;
use explain_core::Finding;
use flow_set::Flow;
use std::alloc::{AllocError, Global};

/// A weaker flow, with the numbers of all invariants of the old network that deny its old flow.
#[derive(Drop)]
pub struct Weakened {
    pub flows: Weaker,
    pub denied_by: Vec<u16>,
}

/// Returns the weaker flows, each with the numbers in the finding of its old flow. The findings are of every flow
/// between this number of hosts.
pub(crate) fn with_denials(
    alloc: Global,
    weaker: &[Weaker],
    hosts: u16,
    denials: &[Finding],
) -> Result<Vec<Weakened>, AllocError>
    requires every { map (λ x. x.flow) denials.now ≡ every_flow hosts }
    requires flows { All (λ w. IsFlow hosts w.old) weaker.now }
    ensures flows { IfOk result (λ list. map (λ x. x.flows) list.items ≡ weaker.now) }
    ensures denied_by { IfOk result (λ list. All (λ x. HasFinding denials.now x.flows.old x.denied_by.items) list.items) }
{
    let mut list = Vec::new(alloc);
    for flows in weaker {
        let denied_by = Vec::from_slice(alloc, denied_by(denials, hosts, flows.old))?;
        list.push(Weakened {
            flows: *flows,
            denied_by,
        })?;
    }
    Ok(list)
}

/// Returns the numbers in the finding of a flow.
fn denied_by(denials: &[Finding], hosts: u16, flow: Flow) -> &[u16]
    requires every { map (λ x. x.flow) denials.now ≡ every_flow hosts }
    requires flow { IsFlow hosts flow }
    ensures { HasFinding denials.now flow result.now }
{
    let place = place_of(hosts, flow);
    &denials[place].by
}

/// Returns the place of a flow among all flows between this number of hosts.
fn place_of(hosts: u16, flow: Flow) -> usize
    requires { IsFlow hosts flow }
    ensures { result ≡ place_of hosts flow }
{
    let row = usize::from(flow.from) * usize::from(hosts - 1);
    if flow.to < flow.from {
        row + usize::from(flow.to)
    } else {
        row + usize::from(flow.to - 1)
    }
}
