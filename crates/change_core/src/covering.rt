//! Services that match all packets of others.

ghost use Rattle.std.specs.Prelude.{◌≡◌};
ghost use Rattle.std.specs.List.{list_all};
ghost use Rattle.host_net.specs.Service.{is_whole};
ghost use Rattle.change_core.specs.inner.Covering.{covers, one_covers, services_cover};

use host_net::Service;

/// Whether the services are known to match every packet that the others match: they are unrestricted, or each of
/// the others has a protocol and ports of one of them.
pub(crate) fn services_cover(services: &[Service], others: &[Service]) -> bool
    ensures { result ≡ services_cover services.now others.now }
{
    is_whole(services) || (!is_whole(others) && all_covered(services, others))
}

/// Whether a flow with these services is unrestricted.
fn is_whole(services: &[Service]) -> bool
    ensures { result ≡ is_whole services.now }
{
    services.is_empty()
}

/// Whether one of the services covers each of the others.
fn all_covered(services: &[Service], others: &[Service]) -> bool
    ensures { result ≡ list_all (one_covers services.now) others.now }
{
    others.iter().all(|other| one_covers(services, other))
}

/// Whether one of the services covers the other.
fn one_covers(services: &[Service], other: &Service) -> bool
    ensures { result ≡ one_covers services.now other.now }
{
    services.iter().any(|service| covers(other, service))
}

/// Whether the service has the protocol and all ports of the other.
fn covers(other: &Service, service: &Service) -> bool
    ensures { result ≡ covers other.now service.now }
{
    service.proto == other.proto && service.low <= other.low && other.high <= service.high
}
