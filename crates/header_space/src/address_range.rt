//! Address ranges, and the packets from one range to another.

ghost use Rattle.host_net.specs.declared.packet.Packet.{Packet};
ghost use Rattle.host_net.specs.Packet.{IsPacket};
ghost use Rattle.header_space.specs.Boxes.{IsBox, IsIn};
ghost use Rattle.header_space.specs.Owners.{IsRange, LiesIn};

use crate::packet_box::PacketBox;
use host_net::Packet;

/// The addresses from `first` to `last`, both included.
#[derive(Clone, Copy, Debug, PartialEq, Eq, PartialOrd, Ord)]
pub struct AddressRange {
    pub first: u32,
    pub last: u32,
}

/// Returns the packets from one address range to another.
pub fn box_between(from: AddressRange, to: AddressRange) -> PacketBox
    requires from { IsRange from }
    requires to { IsRange to }
    ensures is_box { IsBox result }
    ensures inside { (p : Packet) → IsPacket p → LiesIn from p.src → LiesIn to p.dst → IsIn result p }
    ensures packets { (p : Packet) → IsIn result p → IsPacket p × LiesIn from p.src × LiesIn to p.dst }
{
    PacketBox {
        least: Packet {
            src: from.first,
            dst: to.first,
            proto: 0,
            sport: 0,
            dport: 0,
        },
        greatest: Packet {
            src: from.last,
            dst: to.last,
            proto: u8::MAX,
            sport: u16::MAX,
            dport: u16::MAX,
        },
    }
}
