//! The flows of one host.

ghost use Rattle.std.specs.Prelude.{◌≡◌, if◌then◌else◌, IfOk, Some};
ghost use Rattle.flow_set.specs.Flow.{IsFlow};
ghost use Rattle.flow_set.specs.FlowSet.{with_flow};
ghost use Rattle.host_emit.specs.Delivery.{is_end};
ghost use Rattle.nft_local.specs.inner.Part.{flows_at};

use flow_set::{Flow, FlowSet};
use std::alloc::{AllocError, Global};

/// Returns the flows that the host sends or receives.
pub(crate) fn flows_at(alloc: Global, flows: &FlowSet, host: u16) -> Result<FlowSet, AllocError>
    ensures size { IfOk result (λ kept. kept.size ≡ flows.now.size) }
    ensures flows { IfOk result (λ kept. kept.flows ≡ flows_at host flows.now.flows) }
{
    let mut kept = FlowSet::empty(alloc, flows.size())?;
    for flow in flows.iter() {
        insert_if(&mut kept, flow, is_end(flow, host));
    }
    Ok(kept)
}

/// Whether the host sends or receives the flow.
fn is_end(flow: Flow, host: u16) -> bool
    ensures { result ≡ is_end (Some flow) host }
{
    flow.from == host || flow.to == host
}

fn insert_if(set: &mut FlowSet, flow: Flow, wanted: bool)
    requires { IsFlow set.old.size flow }
    ensures { set.new ≡ (if wanted then record set.old { flows = with_flow set.old.flows flow } else set.old) }
{
    if wanted {
        set.insert(flow);
    }
}
