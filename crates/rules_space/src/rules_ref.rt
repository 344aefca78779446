//! The rules of both dialects, as filters of packets.

ghost use Rattle.std.specs.Prelude.{◌≡◌, IfOk, IfSome};
ghost use Rattle.host_net.specs.declared.packet.Packet.{Packet};
ghost use Rattle.header_space.specs.Boxes.{IsBox, IsIn, Narrows};
ghost use Rattle.rules_space.specs.Rules.{Chains, filter_of};
ghost use Rattle.rules_space.specs.Verdicts.{HaveSameVerdicts, GivesOne};
ghost use Rattle.rules_space.specs.RulesView.{rules_of};

use header_space::PacketBox;
use host_net::{CtState, Packet};
use ipt_rules::{Ruleset, Slice};
use ofp_rules::{Frame, Table};
use std::alloc::{AllocError, Global};

/// Parsed rules: the rules of a packet filter or of a switch.
#[derive(Clone, Copy)]
pub enum RulesRef<'a> {
    /// Chains of iptables. Forwarded packets traverse FORWARD.
    Ipt(&'a Ruleset),
    /// A flow table of OpenFlow. It does not track connections.
    Ofp(&'a Table),
}

impl<'a> RulesRef<'a> {
    /// Whether the rules forward a packet in a state.
    pub fn passes(&self, packet: &Packet, state: CtState) -> bool
        ensures { filter_of (rules_of self.now) state packet.now result }
    {
        match self {
            RulesRef::Ipt(rules) => rules.verdict(packet, state).is_forward(),
            RulesRef::Ofp(table) => table.verdict(&Frame::Ipv4(*packet)).is_forward(),
        }
    }

    /// Whether the rules forward the packets of a box in a state. The box is narrowed to packets with the
    /// same result.
    pub fn passes_within(&self, within: &mut PacketBox, state: CtState) -> bool
        requires { IsBox within.old }
        ensures part { Narrows within.old within.new }
        ensures passes { (p : Packet) → IsIn within.new p → filter_of (rules_of self.now) state p result }
    {
        match self {
            RulesRef::Ipt(rules) => rules.verdict_within(within, state).is_forward(),
            RulesRef::Ofp(table) => table.verdict_within(within).is_forward(),
        }
    }

    /// Returns the slice of the rules for the packets of a box, if there is a slice that is worth its cost.
    pub fn slice(&self, alloc: Global, within: &PacketBox) -> Result<Option<Slice>, AllocError>
        ensures { IfOk result (λ slice. IfSome slice (λ chains. HaveSameVerdicts within.now (rules_of self.now) (Chains chains))) }
    {
        match self {
            RulesRef::Ipt(rules) => rules.slice(alloc, within),
            RulesRef::Ofp(_) => Ok(None),
        }
    }

    /// Returns the number of rules. For any rules, a packet passes in a state or does not.
    pub fn rules(&self) -> u32
        ensures gives { GivesOne (filter_of (rules_of self.now)) }
    {
        match self {
            RulesRef::Ipt(rules) => rules.rules(),
            RulesRef::Ofp(table) => table.len(),
        }
    }
}
