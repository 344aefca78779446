//! Marks on the rules that single packets meet: for each rule, one packet that has its addresses, protocol and ports.

ghost use Rattle.std.specs.Prelude.{OnOk};
ghost use Rattle.header_space.specs.Boxes.{every_packet};
ghost use Rattle.pass_core.specs.inner.Meeting.{MarksMore};

use crate::met_rules::MetRules;
use header_space::{PacketBox, Visitor};
use host_net::Packet;
use ipt_rules::{AddrMatch, FORWARD, Place, PortMatch, ProtoMatch, Rule, Target, address_matches};
use std::alloc::{AllocError, Global};

/// The greatest number of rules of a chain for which packets are tested. Each packet may traverse the whole chain.
const SAMPLE_LIMIT: usize = 8192;

/// A chain, and a packet that a rule which jumps to it may match.
#[derive(Clone, Copy)]
struct Entrance {
    chain: u16,
    packet: Packet,
}

/// Marks rules that packets meet. For each unmarked rule of `FORWARD`, and of the chains that jumps from there lead to,
/// one packet is tested. Rules that only other packets meet may stay unmarked.
pub(crate) fn mark_by_samples(alloc: Global, met: &mut MetRules<'_>) -> Result<(), AllocError>
    ensures { OnOk result (MarksMore every_packet met.old met.new) }
{
    let chains = met.rules().chains();
    let mut entered = vec![in alloc; false; chains as usize]?;
    let mut entrances = Vec::new(alloc);
    let first = PacketBox::every().least;
    enter(&mut entered, &mut entrances, FORWARD, first)?;
    for number in 0..chains as usize {
        let Some(entrance) = entrances.get(number).copied() else {
            return Ok(());
        };
        mark_chain(met, &mut entered, &mut entrances, entrance)?;
    }
    Ok(())
}

/// Appends a chain with a packet to the entrances, unless the chain was appended before.
fn enter(
    entered: &mut Vec<bool>,
    entrances: &mut Vec<Entrance>,
    chain: u16,
    packet: Packet,
) -> Result<(), AllocError> {
    let at = chain as usize;
    if at >= entered.len() || entered[at] {
        return Ok(());
    }
    entered[at] = true;
    entrances.push(Entrance { chain, packet })?;
    Ok(())
}

/// Marks rules that packets meet, by one packet for each unmarked rule of a chain that is not too long. Appends the
/// chains to which its rules jump to the entrances.
fn mark_chain(
    met: &mut MetRules<'_>,
    entered: &mut Vec<bool>,
    entrances: &mut Vec<Entrance>,
    entrance: Entrance,
) -> Result<(), AllocError>
    ensures { OnOk result (MarksMore every_packet met.old met.new) }
{
    let chain = entrance.chain;
    if chain >= met.rules().chains() {
        return Ok(());
    }
    let rules = met.rules().rules_in(chain);
    if rules.len() > SAMPLE_LIMIT {
        return Ok(());
    }
    let mut place = Place { chain, rule: 0 };
    for rule in rules {
        let packet = sample(rule, entrance.packet);
        if !met.marks().is_marked(place) {
            mark_packet(met, packet);
        }
        if let Target::Jump(next) = rule.target {
            enter(entered, entrances, next, packet)?;
        }
        place.rule = place.rule.saturating_add(1);
    }
    Ok(())
}

/// Marks the rules that a packet meets.
fn mark_packet(met: &mut MetRules<'_>, packet: Packet)
    ensures { MarksMore every_packet met.old met.new }
{
    let mut within = PacketBox {
        least: packet,
        greatest: packet,
    };
    // This call establishes that packets of the box are packets.
    let _last = within.last();
    met.visit(&mut within);
}

/// Returns a packet that a rule may match: the given packet, with other numbers in the fields that the rule excludes.
fn sample(rule: &Rule, packet: Packet) -> Packet {
    Packet {
        src: address(rule.src, packet.src),
        dst: address(rule.dst, packet.dst),
        proto: protocol(rule.proto, packet.proto),
        sport: port(rule.sport, packet.sport),
        dport: port(rule.dport, packet.dport),
    }
}

fn address(part: Option<AddrMatch>, address: u32) -> u32 {
    if address_matches(part, address) {
        return address;
    }
    match part {
        None => address,
        Some(asked) if asked.negated => asked.prefix.last().wrapping_add(1),
        Some(asked) => asked.prefix.first(),
    }
}

fn protocol(part: Option<ProtoMatch>, proto: u8) -> u8 {
    match part {
        None => proto,
        Some(asked) if !asked.negated => asked.proto,
        Some(asked) if asked.proto == proto => proto.wrapping_add(1),
        Some(_) => proto,
    }
}

fn port(part: Option<PortMatch>, port: u16) -> u16 {
    match part {
        None => port,
        Some(asked) if (asked.low <= port && port <= asked.high) != asked.negated => port,
        Some(asked) if asked.negated => asked.high.wrapping_add(1),
        Some(asked) => asked.low,
    }
}
