//! The fields of a header, and boxes that end at a number in a field or start after it.

ghost use Rattle.std.specs.Prelude.{◌≡◌, ◌≤◌, ◌<◌};
ghost use Rattle.header_space.specs.inner.Fields.{after, limit_of, number_of, up_to, with_number};

use crate::packet_box::PacketBox;
use host_net::Packet;

/// A field of a header.
#[derive(Clone, Copy)]
pub(crate) enum Field {
    Src,
    Dst,
    Proto,
    Sport,
    Dport,
}

/// Returns the number in a field of a packet.
pub(crate) fn number_of(field: Field, packet: Packet) -> u32
    ensures value { result ≡ number_of field packet }
    ensures fits { result ≤ limit_of field }
{
    match field {
        Field::Src => packet.src,
        Field::Dst => packet.dst,
        Field::Proto => packet.proto as u32,
        Field::Sport => packet.sport as u32,
        Field::Dport => packet.dport as u32,
    }
}

/// Returns the packet with another number in a field.
fn with_number(field: Field, packet: Packet, number: u32) -> Packet
    requires { number ≤ limit_of field }
    ensures { result ≡ with_number field packet number }
{
    match field {
        Field::Src => Packet {
            src: number,
            ..packet
        },
        Field::Dst => Packet {
            dst: number,
            ..packet
        },
        Field::Proto => Packet {
            proto: number as u8,
            ..packet
        },
        Field::Sport => Packet {
            sport: number as u16,
            ..packet
        },
        Field::Dport => Packet {
            dport: number as u16,
            ..packet
        },
    }
}

/// Returns the packets of a box up to a number in a field.
pub(crate) fn up_to(field: Field, whole: PacketBox, number: u32) -> PacketBox
    requires { number ≤ limit_of field }
    ensures { result ≡ up_to field whole number }
{
    PacketBox {
        least: whole.least,
        greatest: with_number(field, whole.greatest, number),
    }
}

/// Returns the packets of a box after a number in a field.
pub(crate) fn after(field: Field, whole: PacketBox, number: u32) -> PacketBox
    requires { number < limit_of field }
    ensures { result ≡ after field whole number }
{
    PacketBox {
        least: with_number(field, whole.least, number + 1),
        greatest: whole.greatest,
    }
}
