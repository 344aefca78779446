//! A service, to which a flow between two hosts may be restricted. The parser is in `spelling`.

ghost use Rattle.std.specs.Prelude.{◌≡◌, ◌≤◌, ◌↔◌, IsTrue};
ghost use Rattle.host_net.specs.Service.{serves};

mod spelling;

use crate::packet::Packet;
pub use spelling::{LAST_PORT, read_port, read_protocol, read_service};

/// The number of a protocol, and the destination ports from `low` to `high`, inclusive.
#[derive(Clone, Copy, Debug, PartialEq, Eq)]
pub struct Service {
    pub proto: u8,
    pub low: u16,
    pub high: u16,
}

impl Service {
    /// Whether the service matches the packet: by its protocol and its destination port.
    pub fn serves(&self, p: &Packet) -> bool
        ensures exact { result ≡ serves self.now p.now }
        ensures meaning { IsTrue result ↔ ((self.now.proto ≡ p.now.proto) × (self.now.low ≤ p.now.dport) × (p.now.dport ≤ self.now.high)) }
    {
        self.proto == p.proto && self.low <= p.dport && p.dport <= self.high
    }
}
