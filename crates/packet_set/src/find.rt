//! The search for a packet of a set.

ghost use Rattle.std.specs.Prelude.{◌≡◌, ◌⊎◌, ◌↔◌, ◌+◌, ◌<◌, ◌≤◌, length, IsTrue, Some, None, if◌then◌else◌};
ghost use Rattle.host_net.specs.declared.packet.Packet.{Packet};
ghost use Rattle.header_space.specs.Boxes.{IsBox, IsIn};
ghost use Rattle.packet_set.specs.Finding.{IsFound, IsUpTo};
ghost use Rattle.packet_set.specs.Nodes.{number_of};
ghost use Rattle.packet_set.specs.inner.Searching.{IsService};

use crate::diagrams::{Diagrams, EVERY};
use crate::field::Field;
use header_space::PacketBox;
use host_net::Packet;

/// The result of a search for a packet of a set in a box. It holds for the services of the box whose protocol is at
/// most `proto` and whose destination port is at most `dport`.
#[derive(Clone, Copy, Debug, PartialEq, Eq)]
pub struct Found {
    /// A packet with the least service of the box, in the set with each of these services, or `None` if no packet of
    /// the box with one of them is in the set.
    pub packet: Option<Packet>,
    pub proto: u8,
    pub dport: u16,
}

impl Diagrams {
    /// Searches a box for a packet of a set, among the packets with the least service of the box. The result also
    /// says up to which service it is the same. A search of the whole box repeats this for the services that are left.
    pub fn some_packet(&self, set: u32, within: &PacketBox) -> Found
        requires there { set < length self.now }
        requires is_box { IsBox within.now }
        ensures { IsFound self.now set within.now result }
    {
        if set < 2 {
            return all_or_none(set == EVERY, within);
        }
        let node = self.nodes[set as usize];
        if node.last < node.field.number_of(&within.least) {
            return self.some_packet(node.high, within);
        }
        let found = self.some_packet(node.low, &up_to(within, node.field, node.last));
        if found.packet.is_some() || is_last(within, node.field, node.last) {
            return found;
        }
        self.some_packet(node.high, &after(within, &found, node.field, node.last))
    }
}

/// Returns the result for a set that has all packets of the box, or none of them.
fn all_or_none(all: bool, within: &PacketBox) -> Found
    ensures packet { result.packet ≡ (if all then Some within.now.least else None) }
    ensures proto { result.proto ≡ within.now.greatest.proto }
    ensures dport { result.dport ≡ within.now.greatest.dport }
{
    Found {
        packet: if all { Some(within.least) } else { None },
        proto: within.greatest.proto,
        dport: within.greatest.dport,
    }
}

/// Whether no packet of a box has a greater number in the field, or the field is part of the service.
fn is_last(within: &PacketBox, field: Field, last: u32) -> bool
    ensures { IsTrue result ↔ ((number_of field within.now.greatest ≤ last) ⊎ IsService field) }
{
    match field {
        Field::Proto | Field::Dport => true,
        Field::Src => within.greatest.src <= last,
        Field::Dst => within.greatest.dst <= last,
        Field::Sport => within.greatest.sport as u32 <= last,
    }
}

/// Returns the packets of a box whose field is at most a number.
pub(crate) fn up_to(within: &PacketBox, field: Field, last: u32) -> PacketBox
    requires is_box { IsBox within.now }
    requires some { number_of field within.now.least ≤ last }
    ensures is_box { IsBox result }
    ensures least { result.least ≡ within.now.least }
    ensures greatest { number_of field result.greatest ≤ last }
    ensures inside { (p : Packet) → IsIn within.now p → number_of field p ≤ last → IsIn result p }
    ensures within { (p : Packet) → IsIn result p → IsIn within.now p }
{
    let mut part = *within;
    match field {
        Field::Proto => part.greatest.proto = (within.greatest.proto as u32).min(last) as u8,
        Field::Dport => part.greatest.dport = (within.greatest.dport as u32).min(last) as u16,
        Field::Src => part.greatest.src = within.greatest.src.min(last),
        Field::Dst => part.greatest.dst = within.greatest.dst.min(last),
        Field::Sport => part.greatest.sport = (within.greatest.sport as u32).min(last) as u16,
    }
    part
}

/// Returns the packets of a box, with services up to the last service found, whose address or source port is
/// greater than a number.
fn after(within: &PacketBox, found: &Found, field: Field, last: u32) -> PacketBox
    requires is_box { IsBox within.now }
    requires proto { (within.now.least.proto ≤ found.now.proto) × (found.now.proto ≤ within.now.greatest.proto) }
    requires dport { (within.now.least.dport ≤ found.now.dport) × (found.now.dport ≤ within.now.greatest.dport) }
    requires some { number_of field within.now.least ≤ last }
    requires more { last < number_of field within.now.greatest }
    requires no_service { IsService field → ⊥ }
    ensures is_box { IsBox result }
    ensures proto { (result.least.proto ≡ within.now.least.proto) × (result.greatest.proto ≡ found.now.proto) }
    ensures dport { (result.least.dport ≡ within.now.least.dport) × (result.greatest.dport ≡ found.now.dport) }
    ensures inside { (p : Packet) → IsUpTo within.now found.now p → last < number_of field p → IsIn result p }
    ensures within { (p : Packet) → IsIn result p → IsUpTo within.now found.now p × (last < number_of field p) }
{
    let mut part = *within;
    part.greatest.proto = found.proto;
    part.greatest.dport = found.dport;
    match field {
        Field::Proto | Field::Dport => {}
        Field::Src => part.least.src = next_address(last, within.greatest.src),
        Field::Dst => part.least.dst = next_address(last, within.greatest.dst),
        Field::Sport => part.least.sport = next_port(last, within.greatest.sport),
    }
    part
}

pub(crate) fn next_address(last: u32, greatest: u32) -> u32
    requires { last < greatest }
    ensures { result ≡ last + 1 }
{
    last + 1
}

pub(crate) fn next_port(last: u32, greatest: u16) -> u16
    requires { last < greatest }
    ensures { result ≡ last + 1 }
{
    (last + 1) as u16
}
