//! Matches of rules as header fields: which packets of a box a rule matches.

ghost use Rattle.std.specs.Prelude.{◌≡◌, ◌&&◌, ℕ, false, IfSome, None};
ghost use Rattle.host_net.specs.declared.packet.Packet.{Packet};
ghost use Rattle.header_space.specs.Boxes.{IsBox, IsIn, Narrows};
ghost use Rattle.header_space.specs.Matching.{field_fits, fits};
ghost use Rattle.ipt_rules.specs.inner.Slicing.{FitsNone};
ghost use Rattle.ipt_rules.specs.Matching.{matches, address_matches, port_matches, protocol_matches, state_matches};

use crate::rule::{AddrMatch, PortMatch, ProtoMatch, Rule, state_matches};
use header_space::{FieldMatch, HeaderMatch, PacketBox, field_may_fit};
use host_net::CtState;

impl Rule {
    /// Whether the rule matches the packets of a box in a state. Narrows the box until the result is the same
    /// for all of its packets.
    pub(crate) fn matches_within(&self, within: &mut PacketBox, state: CtState) -> bool
        requires { IsBox within.old }
        ensures part { Narrows within.old within.new }
        ensures alike { (p : Packet) → IsIn within.new p → matches p state self.now ≡ result }
    {
        if !state_matches(self.state, state) {
            return false;
        }
        match self.header_within(within) {
            None => false,
            Some(header) => within.narrow_by(&header),
        }
    }

    /// Whether the rule may match a packet of the box, in some state.
    pub(crate) fn may_match(&self, within: &PacketBox) -> bool
        ensures { result ≡ false → FitsNone within.now self.now }
    {
        self.header_within(within).is_some()
    }

    /// Returns the header fields that the rule matches on, or `None` if it matches no packet of the box.
    /// Stops at the first field that excludes all packets.
    fn header_within(&self, within: &PacketBox) -> Option<HeaderMatch>
        ensures none { result ≡ None → FitsNone within.now self.now }
        ensures header { IfSome result (λ asked. (p : Packet) (state : CtState) →
            matches p state self.now ≡ (fits asked p && state_matches self.now.state state)) }
    {
        let (least, greatest) = (within.least, within.greatest);
        let src = address_field(self.src);
        if !field_may_fit(src, least.src, greatest.src) {
            return None;
        }
        let dst = address_field(self.dst);
        if !field_may_fit(dst, least.dst, greatest.dst) {
            return None;
        }
        let proto = protocol_field(self.proto);
        if !field_may_fit(proto, least.proto as u32, greatest.proto as u32) {
            return None;
        }
        let sport = port_field(self.sport);
        if !field_may_fit(sport, least.sport as u32, greatest.sport as u32) {
            return None;
        }
        let dport = port_field(self.dport);
        if !field_may_fit(dport, least.dport as u32, greatest.dport as u32) {
            return None;
        }
        Some(HeaderMatch {
            src,
            dst,
            proto,
            sport,
            dport,
        })
    }
}

fn address_field(part: Option<AddrMatch>) -> Option<FieldMatch>
    ensures { (n : ℕ) → address_matches part n ≡ field_fits result n }
{
    match part {
        None => None,
        Some(asked) => Some(FieldMatch {
            low: asked.prefix.first(),
            high: asked.prefix.last(),
            negated: asked.negated,
        }),
    }
}

fn protocol_field(part: Option<ProtoMatch>) -> Option<FieldMatch>
    ensures { (n : ℕ) → protocol_matches part n ≡ field_fits result n }
{
    match part {
        None => None,
        Some(asked) => Some(FieldMatch {
            low: asked.proto as u32,
            high: asked.proto as u32,
            negated: asked.negated,
        }),
    }
}

fn port_field(part: Option<PortMatch>) -> Option<FieldMatch>
    ensures { (n : ℕ) → port_matches part n ≡ field_fits result n }
{
    match part {
        None => None,
        Some(asked) => Some(FieldMatch {
            low: asked.low as u32,
            high: asked.high as u32,
            negated: asked.negated,
        }),
    }
}
