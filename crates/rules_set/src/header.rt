//! The header fields that a rule matches on, if it may match packets of a box.

ghost use Rattle.std.specs.Prelude.{◌≡◌, ◌≤◌, ℕ, false, IfSome, None};
ghost use Rattle.host_net.specs.declared.packet.Packet.{Packet};
ghost use Rattle.header_space.specs.Boxes.{IsIn};
ghost use Rattle.header_space.specs.Matching.{field_fits, fits};
ghost use Rattle.ipt_rules.specs.Matching.{address_matches, matches, port_matches, protocol_matches, state_matches};

use header_space::{FieldMatch, HeaderMatch, PacketBox, field_may_fit};
use host_net::CtState;
use ipt_rules::{AddrMatch, PortMatch, ProtoMatch, Rule, StateMatch};

/// Returns the header fields that a rule matches on, for packets of a box. Returns `None` if its state or its
/// addresses exclude all packets of the box.
pub(crate) fn header_of(rule: &Rule, state: CtState, within: &PacketBox) -> Option<HeaderMatch>
    ensures none { result ≡ None → (p : Packet) → IsIn within.now p → matches p state rule.now ≡ false }
    ensures header { IfSome result (λ asked. (p : Packet) → IsIn within.now p → matches p state rule.now ≡ fits asked p) }
{
    if !is_for(rule.state, state) {
        return None;
    }
    let src = address_field(rule.src);
    if !field_may_fit(src, within.least.src, within.greatest.src) {
        return None;
    }
    let dst = address_field(rule.dst);
    if !field_may_fit(dst, within.least.dst, within.greatest.dst) {
        return None;
    }
    Some(HeaderMatch {
        src: needed(src, within.least.src, within.greatest.src),
        dst: needed(dst, within.least.dst, within.greatest.dst),
        proto: protocol_field(rule.proto),
        sport: port_field(rule.sport),
        dport: port_field(rule.dport),
    })
}

/// Whether a match on the state selects a state.
fn is_for(part: Option<StateMatch>, state: CtState) -> bool
    ensures { result ≡ state_matches part state }
{
    match part {
        None => true,
        Some(asked) => {
            let set = match state {
                CtState::New => asked.new,
                CtState::Established => asked.established,
            };
            set != asked.negated
        }
    }
}

/// Returns the match, or `None` if all numbers from `low` to `high` match.
fn needed(asked: Option<FieldMatch>, low: u32, high: u32) -> Option<FieldMatch>
    ensures { (n : ℕ) → low ≤ n → n ≤ high → field_fits result n ≡ field_fits asked n }
{
    match asked {
        Some(range) if !range.negated && range.low <= low && high <= range.high => None,
        _ => asked,
    }
}

fn address_field(part: Option<AddrMatch>) -> Option<FieldMatch>
    ensures { (n : ℕ) → address_matches part n ≡ field_fits result n }
{
    match part {
        None => None,
        Some(asked) => Some(FieldMatch {
            low: asked.prefix.first(),
            high: asked.prefix.last(),
            negated: asked.negated,
        }),
    }
}

fn protocol_field(part: Option<ProtoMatch>) -> Option<FieldMatch>
    ensures { (n : ℕ) → protocol_matches part n ≡ field_fits result n }
{
    match part {
        None => None,
        Some(asked) => Some(FieldMatch {
            low: asked.proto as u32,
            high: asked.proto as u32,
            negated: asked.negated,
        }),
    }
}

fn port_field(part: Option<PortMatch>) -> Option<FieldMatch>
    ensures { (n : ℕ) → port_matches part n ≡ field_fits result n }
{
    match part {
        None => None,
        Some(asked) => Some(FieldMatch {
            low: asked.low as u32,
            high: asked.high as u32,
            negated: asked.negated,
        }),
    }
}
