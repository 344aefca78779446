//! The services of the flow from one host to another, if the flow is in a set.

ghost use Rattle.std.specs.Prelude.{◌≡◌, ◌<◌, option_map};
ghost use Rattle.host_net.specs.Services.{services_of};
ghost use Rattle.emit_core.specs.Directions.{permits};
ghost use Rattle.emit_core.specs.inner.Link.{served};

use flow_set::{Flow, FlowSet};
use host_net::{Service, Services};

/// Returns the services of the flow from one host to another, if it is in the set.
pub(crate) fn services_in<'a>(
    flows: &FlowSet,
    services: &'a Services,
    from: u16,
    to: u16,
) -> Option<&'a [Service]>
    requires from_within { from < flows.now.size }
    requires to_within { to < flows.now.size }
    ensures { option_map (λ ss. ss.now) result ≡ served (permits flows.now.flows from to) (services_of services.now from to) }
{
    if !permits(flows, from, to) {
        return None;
    }
    Some(services.of(from, to))
}

/// Whether the flow from one host to another is in the set.
fn permits(flows: &FlowSet, from: u16, to: u16) -> bool
    requires from_within { from < flows.now.size }
    requires to_within { to < flows.now.size }
    ensures { result ≡ permits flows.now.flows from to }
{
    from != to && flows.has(Flow { from, to })
}
