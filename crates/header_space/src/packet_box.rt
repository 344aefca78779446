//! Boxes of packets.

ghost use Rattle.std.specs.Prelude.{◌≡◌, ◌<◌, ◌^◌, IfSome};
ghost use Rattle.host_net.specs.declared.packet.Packet.{Packet};
ghost use Rattle.host_net.specs.Packet.{IsPacket};
ghost use Rattle.header_space.specs.Boxes.{IsBox, IsIn, swapped, every_packet};

use host_net::Packet;

/// The packets whose fields are each between that field of `least` and that field of `greatest`, both
/// included.
#[derive(Clone, Copy, Debug, PartialEq, Eq)]
pub struct PacketBox {
    pub least: Packet,
    pub greatest: Packet,
}

impl PacketBox {
    /// Returns the box of all packets.
    pub fn every() -> PacketBox
        ensures value { result ≡ every_packet }
        ensures is_box { IsBox result }
    {
        PacketBox {
            least: Packet {
                src: 0,
                dst: 0,
                proto: 0,
                sport: 0,
                dport: 0,
            },
            greatest: Packet {
                src: u32::MAX,
                dst: u32::MAX,
                proto: u8::MAX,
                sport: u16::MAX,
                dport: u16::MAX,
            },
        }
    }

    /// Returns the greatest packet of the box. Each field of a packet in a box is within the range of that
    /// header field.
    pub fn last(&self) -> Packet
        ensures value { result ≡ self.now.greatest }
        ensures packets { (p : Packet) → IsIn self.now p → IsPacket p }
    {
        Packet {
            src: address(self.greatest.src),
            dst: address(self.greatest.dst),
            proto: protocol(self.greatest.proto),
            sport: port(self.greatest.sport),
            dport: port(self.greatest.dport),
        }
    }

    /// Returns the box of the reply packets: exchanges source and destination.
    pub fn swap(self) -> PacketBox
        ensures { result ≡ swapped self }
    {
        PacketBox {
            least: self.least.swap(),
            greatest: self.greatest.swap(),
        }
    }
}

// These functions state the width of a field.

fn address(n: u32) -> u32
    ensures value { result ≡ n }
    ensures fits { n < 2 ^ 32 }
{
    n
}

fn protocol(n: u8) -> u8
    ensures value { result ≡ n }
    ensures fits { n < 2 ^ 8 }
{
    n
}

fn port(n: u16) -> u16
    ensures value { result ≡ n }
    ensures fits { n < 2 ^ 16 }
{
    n
}
