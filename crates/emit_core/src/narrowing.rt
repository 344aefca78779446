//! The restriction of a flow by its services.

ghost use Rattle.std.specs.Prelude.{◌≡◌};
ghost use Rattle.host_net.specs.Service.{has_all_ports, is_whole};

use host_net::{LAST_PORT, Service};

/// Whether a flow with these services is unrestricted.
pub(crate) fn is_whole(services: &[Service]) -> bool
    ensures { result ≡ is_whole services.now }
{
    services.is_empty()
}

/// Whether the service matches every packet of its protocol.
pub(crate) fn has_all_ports(service: Service) -> bool
    ensures { result ≡ has_all_ports service }
{
    service.low == 0 && service.high == LAST_PORT
}
