//! Services in their order: by protocol, then by port.

ghost use Rattle.std.specs.Prelude.{◌≡◌, ◌⊎◌, ◌↔◌, ◌+◌, ◌≤◌, ◌<◌, IsTrue, IfSome, IfNone};
ghost use Rattle.pass_core.specs.Services.{service_count, service_of};
ghost use Rattle.pass_core.specs.inner.Numbers.{number};

use host_net::Packet;

/// A protocol and a destination port.
#[derive(Clone, Copy)]
pub(crate) struct Service {
    pub(crate) proto: u8,
    pub(crate) port: u16,
}

impl Service {
    /// Returns the least service.
    pub(crate) fn first() -> Service
        ensures { number result ≡ 0 }
    {
        Service { proto: 0, port: 0 }
    }

    /// Returns the service of a packet.
    pub(crate) fn of(packet: &Packet) -> Service
        ensures { number result ≡ service_of packet.now }
    {
        Service {
            proto: packet.proto,
            port: packet.dport,
        }
    }

    /// Returns the number of the service in this order.
    pub(crate) fn number(self) -> u32
        ensures value { result ≡ number self }
        ensures small { result < service_count }
    {
        self.proto as u32 * 65536 + self.port as u32
    }

    /// Returns the next service, if there is one.
    pub(crate) fn next(self) -> Option<Service>
        ensures next { IfSome result (λ next. number next ≡ number self + 1) }
        ensures last { IfNone result (number self + 1 ≡ service_count) }
        ensures small { number self < service_count }
    {
        if self.port < u16::MAX {
            return Some(Service {
                proto: self.proto,
                port: self.port + 1,
            });
        }
        if self.proto < u8::MAX {
            return Some(Service {
                proto: self.proto + 1,
                port: 0,
            });
        }
        None
    }

    /// Returns the last service up to which a box of packets can extend from this service: the last service
    /// of its protocol, or the last of all services if its port is 0.
    pub(crate) fn end(self) -> Service
        ensures { number self ≤ number result }
    {
        if self.port == 0 {
            Service {
                proto: u8::MAX,
                port: u16::MAX,
            }
        } else {
            Service {
                proto: self.proto,
                port: u16::MAX,
            }
        }
    }

    /// Returns the earlier of two services.
    pub(crate) fn min(self, other: Service) -> Service
        ensures self_too { number result ≤ number self }
        ensures other_too { number result ≤ number other }
        ensures either { (result ≡ self) ⊎ (result ≡ other) }
    {
        if other.number() < self.number() {
            other
        } else {
            self
        }
    }

    /// Whether a packet has this service.
    pub(crate) fn is_of(self, packet: &Packet) -> bool
        ensures { IsTrue result ↔ (service_of packet.now ≡ number self) }
    {
        Service::of(packet).number() == self.number()
    }
}
