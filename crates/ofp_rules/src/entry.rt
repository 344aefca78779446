//! An entry of a flow table, the frames, and which frames the entry matches.

ghost use Rattle.std.specs.Prelude.{◌≡◌};
ghost use Rattle.ofp_rules.specs.Matching.{matches, number_matches, packet_matches, part_matches};

use host_net::{Packet, Prefix};

/// A frame as a switch distinguishes it. All frames that are neither ARP nor IPv4 are `Other`.
#[derive(Clone, Copy, Debug, PartialEq, Eq)]
pub enum Frame {
    Arp,
    Ipv4(Packet),
    Other,
}

/// The frames that an entry matches on.
#[derive(Clone, Copy, Debug, PartialEq, Eq)]
pub enum FrameKind {
    Any,
    Arp,
    Ip,
}

/// The action on a frame. `Normal` forwards it as a switch without rules does.
#[derive(Clone, Copy, Debug, PartialEq, Eq)]
pub enum Action {
    Normal,
    Drop,
}

/// A flow entry. It matches a frame of its kind if its prefixes cover the addresses and its protocol and
/// ports are those of the packet. A field that is `None` matches every value.
#[derive(Clone, Copy, Debug, PartialEq, Eq)]
pub struct Entry {
    pub priority: u16,
    pub kind: FrameKind,
    pub src: Option<Prefix>,
    pub dst: Option<Prefix>,
    pub proto: Option<u8>,
    pub tp_src: Option<u16>,
    pub tp_dst: Option<u16>,
    pub action: Action,
}

impl Entry {
    pub(crate) fn matches(&self, frame: &Frame) -> bool
        ensures { result ≡ matches frame.now self.now }
    {
        match (self.kind, *frame) {
            (FrameKind::Any, _) => true,
            (FrameKind::Arp, Frame::Arp) => true,
            (FrameKind::Ip, Frame::Ipv4(packet)) => packet_matches(*self, packet),
            _ => false,
        }
    }
}

fn packet_matches(entry: Entry, packet: Packet) -> bool
    ensures { result ≡ packet_matches entry packet }
{
    protocol_matches(entry.proto, packet.proto)
        && port_matches(entry.tp_src, packet.sport)
        && port_matches(entry.tp_dst, packet.dport)
        && part_matches(entry.src, packet.src)
        && part_matches(entry.dst, packet.dst)
}

fn protocol_matches(part: Option<u8>, proto: u8) -> bool
    ensures { result ≡ number_matches part proto }
{
    match part {
        None => true,
        Some(own) => own == proto,
    }
}

fn port_matches(part: Option<u16>, port: u16) -> bool
    ensures { result ≡ number_matches part port }
{
    match part {
        None => true,
        Some(own) => own == port,
    }
}

fn part_matches(part: Option<Prefix>, address: u32) -> bool
    ensures { result ≡ part_matches part address }
{
    match part {
        None => true,
        Some(prefix) => prefix.covers(address),
    }
}
