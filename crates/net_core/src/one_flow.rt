//! Inserting a flow into a set, or removing it.

ghost use Rattle.std.specs.Prelude.{◌≡◌};
ghost use Rattle.flow_set.specs.Flow.{IsFlow};
ghost use Rattle.net_core.specs.inner.Asking.{flows_where};

use flow_set::{Flow, FlowSet};

/// Inserts the flow into the set, or removes it.
pub(crate) fn set_flow(flows: &mut FlowSet, flow: Flow, is_in: bool)
    requires { IsFlow flows.old.size flow }
    ensures { flows.new ≡ record flows.old { flows = flows_where is_in flows.old.flows flow } }
{
    if is_in {
        flows.insert(flow);
    } else {
        flows.remove(flow);
    }
}
