//! The verdict on the packets of a box that arrive at a switch. Each entry that could decide narrows
//! the box until the entry matches all of its packets or none of them.

ghost use Rattle.std.specs.Prelude.{◌≡◌, ℕ, false, IfSome, None};
ghost use Rattle.std.specs.Option.{option_copied};
ghost use Rattle.host_net.specs.declared.packet.Packet.{Packet};
ghost use Rattle.header_space.specs.Boxes.{IsBox, IsIn, Narrows};
ghost use Rattle.header_space.specs.Matching.{field_fits, fits};
ghost use Rattle.ofp_rules.specs.declared.entry.Frame.TheVariants.{Ipv4};
ghost use Rattle.ofp_rules.specs.Matching.{matches, number_matches, packet_matches, part_matches};
ghost use Rattle.ofp_rules.specs.Semantics.{HasVerdict};
ghost use Rattle.ofp_rules.specs.inner.Highest.{IsFound, higher};

use crate::entry::{Entry, FrameKind};
use crate::table::{Table, is_above, verdict_by};
use header_space::{FieldMatch, HeaderMatch, PacketBox, field_may_fit};
use host_net::{Prefix, Verdict};

impl Table {
    /// Returns the verdict on the packets of a box. Narrows the box until the verdict is the same for all
    /// of its packets.
    pub fn verdict_within(&self, within: &mut PacketBox) -> Verdict
        requires { IsBox within.old }
        ensures part { Narrows within.old within.new }
        ensures verdict { (p : Packet) → IsIn within.new p → HasVerdict self.now (Ipv4 p) result }
    {
        verdict_by(highest_within(&self.entries, within))
    }
}

/// Returns the entry of the highest priority that matches the packets of a box, the first if there are
/// several.
fn highest_within<'a>(entries: &'a [Entry], within: &mut PacketBox) -> Option<&'a Entry>
    requires { IsBox within.old }
    ensures part { Narrows within.old within.new }
    ensures found { (p : Packet) → IsIn within.new p → IsFound entries.now (Ipv4 p) (option_copied result) }
{
    let mut found = None;
    for at in 0..entries.len() {
        found = higher_within(within, found, &entries[at]);
    }
    found
}

fn higher_within<'a>(
    within: &mut PacketBox,
    found: Option<&'a Entry>,
    entry: &'a Entry,
) -> Option<&'a Entry>
    requires { IsBox within.old }
    ensures part { Narrows within.old within.new }
    ensures found { (p : Packet) → IsIn within.new p → option_copied result ≡ higher (Ipv4 p) (option_copied found.entry) entry.now }
{
    if !is_above(entry.priority, found) {
        return found;
    }
    if entry.matches_within(within) {
        Some(entry)
    } else {
        found
    }
}

impl Entry {
    /// Whether the entry matches the packets of a box. Narrows the box until the result is the same for all
    /// of its packets.
    pub(crate) fn matches_within(&self, within: &mut PacketBox) -> bool
        requires { IsBox within.old }
        ensures part { Narrows within.old within.new }
        ensures alike { (p : Packet) → IsIn within.new p → matches (Ipv4 p) self.now ≡ result }
    {
        match self.kind {
            FrameKind::Any => true,
            FrameKind::Arp => false,
            FrameKind::Ip => match self.header_within(within) {
                None => false,
                Some(header) => within.narrow_by(&header),
            },
        }
    }

    /// Returns the header match of an entry for IPv4, or None if the entry matches no packet of the box.
    /// Stops at the first field that excludes all packets.
    fn header_within(&self, within: &PacketBox) -> Option<HeaderMatch>
        ensures none { result ≡ None → (p : Packet) → IsIn within.now p → packet_matches self.now p ≡ false }
        ensures header { IfSome result (λ asked. (p : Packet) → packet_matches self.now p ≡ fits asked p) }
    {
        let (least, greatest) = (within.least, within.greatest);
        let src = prefix_field(self.src);
        if !field_may_fit(src, least.src, greatest.src) {
            return None;
        }
        let dst = prefix_field(self.dst);
        if !field_may_fit(dst, least.dst, greatest.dst) {
            return None;
        }
        let proto = protocol_field(self.proto);
        if !field_may_fit(proto, least.proto as u32, greatest.proto as u32) {
            return None;
        }
        let sport = port_field(self.tp_src);
        if !field_may_fit(sport, least.sport as u32, greatest.sport as u32) {
            return None;
        }
        let dport = port_field(self.tp_dst);
        if !field_may_fit(dport, least.dport as u32, greatest.dport as u32) {
            return None;
        }
        Some(HeaderMatch {
            src,
            dst,
            proto,
            sport,
            dport,
        })
    }
}

fn prefix_field(part: Option<Prefix>) -> Option<FieldMatch>
    ensures { (n : ℕ) → part_matches part n ≡ field_fits result n }
{
    match part {
        None => None,
        Some(prefix) => Some(FieldMatch {
            low: prefix.first(),
            high: prefix.last(),
            negated: false,
        }),
    }
}

fn protocol_field(part: Option<u8>) -> Option<FieldMatch>
    ensures { (n : ℕ) → number_matches part n ≡ field_fits result n }
{
    match part {
        None => None,
        Some(own) => Some(FieldMatch {
            low: own as u32,
            high: own as u32,
            negated: false,
        }),
    }
}

fn port_field(part: Option<u16>) -> Option<FieldMatch>
    ensures { (n : ℕ) → number_matches part n ≡ field_fits result n }
{
    match part {
        None => None,
        Some(own) => Some(FieldMatch {
            low: own as u32,
            high: own as u32,
            negated: false,
        }),
    }
}
