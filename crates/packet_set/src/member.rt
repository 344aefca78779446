//! A packet of a set in a box, if there is one.

ghost use Rattle.std.specs.Prelude.{◌≡◌, ◌+◌, ◌<◌, ◌≤◌, length, if◌then◌else◌, Some, None};
ghost use Rattle.host_net.specs.declared.packet.Packet.{Packet};
ghost use Rattle.header_space.specs.Boxes.{IsBox, IsIn};
ghost use Rattle.packet_set.specs.Finding.{IsMember};
ghost use Rattle.packet_set.specs.Nodes.{number_of};

use crate::diagrams::{Diagrams, EVERY};
use crate::field::Field;
use crate::find::{next_address, next_port, up_to};
use header_space::PacketBox;
use host_net::Packet;

impl Diagrams {
    /// Returns a packet of a box that is in a set, or `None` if no packet of the box is.
    pub fn member(&self, set: u32, within: &PacketBox) -> Option<Packet>
        requires there { set < length self.now }
        requires is_box { IsBox within.now }
        ensures { IsMember self.now set within.now result }
    {
        if set < 2 {
            return least_if(set == EVERY, within);
        }
        let node = self.nodes[set as usize];
        if node.last < node.field.number_of(&within.least) {
            return self.member(node.high, within);
        }
        let low = self.member(node.low, &up_to(within, node.field, node.last));
        if low.is_some() || node.field.number_of(&within.greatest) <= node.last {
            return low;
        }
        self.member(node.high, &beyond(within, node.field, node.last))
    }
}

/// Returns the least packet of a box if all of its packets are in the set, or none if none is.
fn least_if(all: bool, within: &PacketBox) -> Option<Packet>
    ensures { result ≡ (if all then Some within.now.least else None) }
{
    if all { Some(within.least) } else { None }
}

/// Returns the packets of a box whose field is greater than a number.
fn beyond(within: &PacketBox, field: Field, last: u32) -> PacketBox
    requires is_box { IsBox within.now }
    requires some { number_of field within.now.least ≤ last }
    requires more { last < number_of field within.now.greatest }
    ensures is_box { IsBox result }
    ensures inside { (p : Packet) → IsIn within.now p → last < number_of field p → IsIn result p }
    ensures within { (p : Packet) → IsIn result p → IsIn within.now p × (last < number_of field p) }
{
    let mut part = *within;
    match field {
        Field::Proto => part.least.proto = next_protocol(last, within.greatest.proto),
        Field::Dport => part.least.dport = next_port(last, within.greatest.dport),
        Field::Src => part.least.src = next_address(last, within.greatest.src),
        Field::Dst => part.least.dst = next_address(last, within.greatest.dst),
        Field::Sport => part.least.sport = next_port(last, within.greatest.sport),
    }
    part
}

fn next_protocol(last: u32, greatest: u8) -> u8
    requires { last < greatest }
    ensures { result ≡ last + 1 }
{
    (last + 1) as u8
}
