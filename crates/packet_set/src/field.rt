//! The fields of a packet header, and the order in which diagrams test them.

ghost use Rattle.std.specs.Prelude.{◌≡◌, ◌<◌, ◌^◌};
ghost use Rattle.packet_set.specs.Nodes.{number_of, rank_of};

use host_net::Packet;

/// A field of a packet header, in the order of tests. The service of a packet (its protocol and its destination
/// port) comes first, because rules for the same pair of hosts differ most in their services. No public
/// contract depends on this order.
#[derive(Clone, Copy, Debug, PartialEq, Eq)]
pub enum Field {
    Proto,
    Dport,
    Src,
    Dst,
    Sport,
}

impl Field {
    /// Returns the number in the field of a packet.
    pub(crate) fn number_of(self, packet: &Packet) -> u32
        ensures { result ≡ number_of self packet.now }
    {
        match self {
            Field::Proto => packet.proto as u32,
            Field::Dport => packet.dport as u32,
            Field::Src => packet.src,
            Field::Dst => packet.dst,
            Field::Sport => packet.sport as u32,
        }
    }

    /// Returns the place of the field in the order of tests.
    pub(crate) fn rank(self) -> u8
        ensures { result ≡ rank_of self }
    {
        match self {
            Field::Proto => 0,
            Field::Dport => 1,
            Field::Src => 2,
            Field::Dst => 3,
            Field::Sport => 4,
        }
    }
}
