//! A packet as seen by a firewall, the connection state of a packet, and the verdict on it.

ghost use Rattle.std.specs.Prelude.{◌≡◌};
ghost use Rattle.host_net.specs.Packet.{swap_of};
ghost use Rattle.host_net.specs.Verdict.{verdict_if};

/// The header fields that rules match. Addresses are numbers in host byte order: `10.0.0.1` is
/// `0x0a000001`. Ports have a meaning only for protocols with ports, and are stored for all others.
#[derive(Clone, Copy, Debug, PartialEq, Eq, PartialOrd, Ord)]
pub struct Packet {
    /// The source address.
    pub src: u32,
    /// The destination address.
    pub dst: u32,
    /// The IP protocol number.
    pub proto: u8,
    /// The source port.
    pub sport: u16,
    /// The destination port.
    pub dport: u16,
}

impl Packet {
    /// Returns the reply packet: addresses and ports are exchanged.
    pub fn swap(&self) -> Packet
        ensures { result ≡ swap_of self.now }
    {
        Packet {
            src: self.dst,
            dst: self.src,
            proto: self.proto,
            sport: self.dport,
            dport: self.sport,
        }
    }
}

/// The state of a packet in connection tracking.
#[derive(Clone, Copy, Debug, PartialEq, Eq)]
pub enum CtState {
    New,
    Established,
}

/// The verdict on a packet.
#[derive(Clone, Copy, Debug, PartialEq, Eq)]
pub enum Verdict {
    Forward,
    Drop,
}

impl Verdict {
    /// Whether the packet is forwarded.
    pub fn is_forward(self) -> bool
        ensures { self ≡ verdict_if result }
    {
        matches!(self, Verdict::Forward)
    }
}
