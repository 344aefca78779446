//! The first permitted flow with a service that a flow table cannot match.

ghost use Rattle.std.specs.Prelude.{◌≡◌, MatchOption};
ghost use Rattle.std.specs.List.{list_any};
ghost use Rattle.emit_core.specs.PortRanges.{HasNoRange, IsFirstRange, has_range, is_range};

use crate::narrowing::has_all_ports;
use flow_set::Flow;
use host_net::{Service, Services};
use pkt_core::FlowPolicy;

/// Returns the first permitted flow that is restricted to a range of ports, or `None` if there is
/// none.
pub(crate) fn first_range(policy: &FlowPolicy<'_>) -> Option<Flow>
    ensures { MatchOption result (HasNoRange policy.now.site.services policy.now.permitted)
        (IsFirstRange policy.now.site.services policy.now.permitted) }
{
    let services = policy.services();
    if services.is_empty() {
        return None;
    }
    for flow in policy.permitted().iter() {
        if has_range(services, flow) {
            return Some(flow);
        }
    }
    None
}

fn has_range(services: &Services, flow: Flow) -> bool
    ensures { result ≡ has_range services.now flow }
{
    is_one_range(services.of(flow.from, flow.to))
}

fn is_one_range(services: &[Service]) -> bool
    ensures { result ≡ list_any is_range services.now }
{
    services.iter().any(|service| is_range(*service))
}

/// Whether the service has several ports, but not all.
fn is_range(service: Service) -> bool
    ensures { result ≡ is_range service }
{
    service.low < service.high && !has_all_ports(service)
}
