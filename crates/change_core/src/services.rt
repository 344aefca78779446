//! Services of two flows that match one packet.

ghost use Rattle.std.specs.Prelude.{◌≡◌};
ghost use Rattle.std.specs.List.{list_any};
ghost use Rattle.host_net.specs.Service.{is_whole};
ghost use Rattle.change_core.specs.inner.Serving.{flows_meet, meets, meets_some, services_meet};

use flow_set::Flow;
use host_net::{Service, Services};

/// Whether some packet matches the services of a flow of the new network and those of a flow of the old network.
pub(crate) fn flows_meet(new: &Services, old: &Services, flow: Flow, past: Flow) -> bool
    ensures { result ≡ flows_meet new.now old.now flow past }
{
    services_meet(new.of(flow.from, flow.to), old.of(past.from, past.to))
}

/// Whether some packet matches both lists of services. An empty list matches every packet.
fn services_meet(left: &[Service], right: &[Service]) -> bool
    ensures { result ≡ services_meet left.now right.now }
{
    is_whole(left) || is_whole(right) || some_meet(left, right)
}

/// Whether a flow with these services is unrestricted.
fn is_whole(services: &[Service]) -> bool
    ensures { result ≡ is_whole services.now }
{
    services.is_empty()
}

/// Whether a service of one list meets a service of the other.
fn some_meet(left: &[Service], right: &[Service]) -> bool
    ensures { result ≡ list_any (meets_some right.now) left.now }
{
    left.iter().any(|service| meets_some(right, service))
}

/// Whether the service meets one of the others.
fn meets_some(others: &[Service], service: &Service) -> bool
    ensures { result ≡ meets_some others.now service.now }
{
    others.iter().any(|other| meets(service, other))
}

/// Whether the services have one protocol, and a port in common.
fn meets(left: &Service, right: &Service) -> bool
    ensures { result ≡ meets left.now right.now }
{
    left.proto == right.proto && left.low <= right.high && right.low <= left.high
}
