//! The verdict of one rule on the packets of a box.

ghost use Rattle.std.specs.Prelude.{◌≡◌, ◌&&◌, IsTrue, Some, false, true};
ghost use Rattle.host_net.specs.declared.packet.Packet.{Packet};
ghost use Rattle.header_space.specs.Boxes.{IsBox, IsIn, Narrows};
ghost use Rattle.header_space.specs.Matching.{field_fits, fits};
ghost use Rattle.header_space.specs.Owners.{LiesIn};
ghost use Rattle.nft_rules.specs.Loadable.{AscendFrom};
ghost use Rattle.nft_rules.specs.Semantics.{Gives, address_at, ports_fit, service_fits, state_fits};
ghost use Rattle.nft_rules.specs.declared.table.Rule.TheVariants.{Map, Match};
ghost use Rattle.nft_space.specs.inner.First.{Ascends};

use crate::interval::interval_at;
use header_space::{AddressRange, FieldMatch, HeaderMatch, PacketBox};
use host_net::{CtState, Packet};
use nft_rules::{End, MatchRule, PortMatch, Rule, ServiceMatch, Verdict, VerdictMap};

/// Returns the verdict of a rule on the packets of a box, or `None`. Narrows the box until the rule
/// has the same verdict on all of its packets.
pub(crate) fn rule_within(rule: &Rule, within: &mut PacketBox, state: CtState) -> Option<Verdict>
    requires is_box { IsBox within.old }
    requires ascends { Ascends rule.now }
    ensures part { Narrows within.old within.new }
    ensures gives { (p : Packet) → IsIn within.new p → Gives state p rule.now result }
{
    match rule {
        Rule::Map(map) => map_within(map, within),
        Rule::Match(matched) => match_within(*matched, within, state),
    }
}

fn map_within(map: &VerdictMap, within: &mut PacketBox) -> Option<Verdict>
    requires is_box { IsBox within.old }
    requires ascends { AscendFrom 0 map.now.elements.items }
    ensures part { Narrows within.old within.new }
    ensures gives { (p : Packet) (state : CtState) → IsIn within.new p → Gives state p (Map map.now) result }
{
    let interval = interval_at(&map.elements, address_at(map.end, within.least));
    within.narrow_by(&between(map.end, interval.range));
    interval.verdict
}

fn address_at(end: End, packet: Packet) -> u32
    ensures { result ≡ address_at end packet }
{
    match end {
        End::Source => packet.src,
        End::Destination => packet.dst,
    }
}

/// Returns the match of the packets whose address at this end lies in the range.
fn between(end: End, range: AddressRange) -> HeaderMatch
    ensures inside { (p : Packet) → LiesIn range (address_at end p) → IsTrue (fits result p) }
    ensures only { (p : Packet) → IsTrue (fits result p) → LiesIn range (address_at end p) }
{
    let field = Some(FieldMatch {
        low: range.first,
        high: range.last,
        negated: false,
    });
    match end {
        End::Source => HeaderMatch {
            src: field,
            dst: None,
            proto: None,
            sport: None,
            dport: None,
        },
        End::Destination => HeaderMatch {
            src: None,
            dst: field,
            proto: None,
            sport: None,
            dport: None,
        },
    }
}

fn match_within(rule: MatchRule, within: &mut PacketBox, state: CtState) -> Option<Verdict>
    requires { IsBox within.old }
    ensures part { Narrows within.old within.new }
    ensures gives { (p : Packet) → IsIn within.new p → Gives state p (Match rule) result }
{
    if !state_fits(rule.established, state) {
        return None;
    }
    if within.narrow_by(&header_of(rule.service)) {
        Some(rule.verdict)
    } else {
        None
    }
}

fn state_fits(established: bool, state: CtState) -> bool
    ensures { result ≡ state_fits established state }
{
    match state {
        CtState::New => !established,
        CtState::Established => true,
    }
}

/// Returns the match of a service on the fields of a header.
fn header_of(service: Option<ServiceMatch>) -> HeaderMatch
    ensures { (p : Packet) → service_fits service p ≡ fits result p }
{
    match service {
        None => every_header(),
        Some(service) => service_header(service),
    }
}

fn every_header() -> HeaderMatch
    ensures { (p : Packet) → fits result p ≡ true }
{
    HeaderMatch {
        src: None,
        dst: None,
        proto: None,
        sport: None,
        dport: None,
    }
}

fn service_header(service: ServiceMatch) -> HeaderMatch
    ensures { (p : Packet) → service_fits (Some service) p ≡ fits result p }
{
    let (sport, dport) = port_fields(service.ports);
    HeaderMatch {
        src: None,
        dst: None,
        proto: Some(FieldMatch {
            low: service.proto as u32,
            high: service.proto as u32,
            negated: false,
        }),
        sport,
        dport,
    }
}

/// Returns the matches of a port match on the source port and on the destination port.
fn port_fields(ports: Option<PortMatch>) -> (Option<FieldMatch>, Option<FieldMatch>)
    ensures { (p : Packet) → ports_fit ports p ≡ (field_fits result.0 p.sport && field_fits result.1 p.dport) }
{
    match ports {
        None => (None, None),
        Some(ports) => match ports.end {
            End::Source => (Some(port_field(ports)), None),
            End::Destination => (None, Some(port_field(ports))),
        },
    }
}

fn port_field(ports: PortMatch) -> FieldMatch
    ensures low { result.low ≡ ports.low }
    ensures high { result.high ≡ ports.high }
    ensures negated { result.negated ≡ false }
{
    FieldMatch {
        low: ports.low as u32,
        high: ports.high as u32,
        negated: false,
    }
}
