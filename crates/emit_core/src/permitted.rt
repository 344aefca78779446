//! Membership of the flow between two hosts in a set of flows.

ghost use Rattle.std.specs.Prelude.{◌≡◌, ◌<◌};
ghost use Rattle.emit_core.specs.Directions.{permits};

use flow_set::{Flow, FlowSet};

/// Whether the flow from one host to another is in the set.
pub(crate) fn permits(flows: &FlowSet, from: u16, to: u16) -> bool
    requires from_within { from < flows.now.size }
    requires to_within { to < flows.now.size }
    ensures { result ≡ permits flows.now.flows from to }
{
    from != to && flows.has(Flow { from, to })
}
