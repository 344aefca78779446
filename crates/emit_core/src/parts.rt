//! The forms of rules that a layout has.

ghost use Rattle.std.specs.Prelude.{◌≡◌, ◌+◌, ◌<◌, ◌^◌};
ghost use Rattle.emit_core.specs.Layout.{chain_of, match_prefix, match_established, from_source, match_peer, protocol_part, port_part, ports_of_service};
ghost use Rattle.emit_core.specs.inner.Link.{accepting};

use crate::direction::Direction;
use crate::narrowing::has_all_ports;
use host_net::{Prefix, Service};
use ipt_rules::{AddrMatch, PortMatch, ProtoMatch, Rule, StateMatch, Target};

/// Returns the number of a host's chain, after the three built-in ones.
pub(crate) fn chain_of(host: u16) -> u16
    requires { host + 3 < 2 ^ 16 }
    ensures { result ≡ chain_of host }
{
    host + 3
}

/// Returns a rule that matches the source of a packet; without a prefix it matches every source.
pub(crate) fn from_source(prefix: Option<Prefix>, target: Target) -> Rule
    ensures { result ≡ from_source prefix target }
{
    match_peer(Direction::Inbound, prefix, target)
}

/// Returns a rule that matches the address of the other host; without a prefix it matches every
/// address.
pub fn match_peer(side: Direction, prefix: Option<Prefix>, target: Target) -> Rule
    ensures { result ≡ match_peer side prefix None target }
{
    let part = match_prefix(prefix);
    let (src, dst) = match side {
        Direction::Outbound => (None, part),
        Direction::Inbound => (part, None),
    };
    Rule {
        src,
        dst,
        proto: None,
        sport: None,
        dport: None,
        state: None,
        target,
    }
}

/// The packets that a rule accepts: those of a flow, or answers to one.
#[derive(Clone, Copy, Debug, PartialEq, Eq)]
pub(crate) enum Accepted {
    Flow,
    Answers,
}

/// Returns a rule that accepts packets to the ports of a service, or answers from them; without a
/// service it matches on neither protocol nor port.
pub(crate) fn accepting(
    accepted: Accepted,
    side: Direction,
    prefix: Option<Prefix>,
    service: Option<Service>,
) -> Rule
    ensures { result ≡ accepting accepted side prefix service }
{
    let (proto, ports) = (protocol_part(service), port_part(service));
    let rule = match_peer(side, prefix, Target::Accept);
    match accepted {
        Accepted::Flow => Rule {
            proto,
            dport: ports,
            ..rule
        },
        Accepted::Answers => Rule {
            proto,
            sport: ports,
            state: match_established(),
            ..rule
        },
    }
}

/// Returns the state match for answers.
fn match_established() -> Option<StateMatch>
    ensures { result ≡ match_established }
{
    Some(StateMatch {
        new: false,
        established: true,
        negated: false,
    })
}

/// Returns the address match for a prefix; without a prefix there is none.
pub fn match_prefix(prefix: Option<Prefix>) -> Option<AddrMatch>
    ensures { result ≡ match_prefix prefix }
{
    match prefix {
        None => None,
        Some(prefix) => Some(AddrMatch {
            prefix,
            negated: false,
        }),
    }
}

/// Returns the protocol match for a service; without a service there is none.
fn protocol_part(service: Option<Service>) -> Option<ProtoMatch>
    ensures { result ≡ protocol_part service }
{
    match service {
        None => None,
        Some(service) => Some(ProtoMatch {
            proto: service.proto,
            negated: false,
        }),
    }
}

/// Returns the port match for a service; without a service there is none.
fn port_part(service: Option<Service>) -> Option<PortMatch>
    ensures { result ≡ port_part service }
{
    match service {
        None => None,
        Some(service) => ports_of_service(service),
    }
}

/// Returns the ports of a service, unless it has all ports.
fn ports_of_service(service: Service) -> Option<PortMatch>
    ensures { result ≡ ports_of_service service }
{
    if has_all_ports(service) {
        return None;
    }
    Some(PortMatch {
        low: service.low,
        high: service.high,
        negated: false,
    })
}
