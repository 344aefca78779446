//! A rule of a chain: the packets that it matches, and what it does with them.

ghost use Rattle.std.specs.Prelude.{◌≡◌, ◌&&◌, nat_le};
ghost use Rattle.ipt_rules.specs.Matching.{matches, address_matches, port_matches, protocol_matches, state_matches};

use host_net::{CtState, Packet, Prefix};

/// A match on an address of a packet: the prefix covers the address or, if negated, does not.
#[derive(Clone, Copy, Debug, PartialEq, Eq)]
pub struct AddrMatch {
    pub prefix: Prefix,
    pub negated: bool,
}

/// A match on the protocol of a packet: the protocol is `proto` or, if negated, another.
#[derive(Clone, Copy, Debug, PartialEq, Eq)]
pub struct ProtoMatch {
    pub proto: u8,
    pub negated: bool,
}

/// A match on a port of a packet: the port is in the range from `low` to `high`, both included, or, if
/// negated, outside it.
#[derive(Clone, Copy, Debug, PartialEq, Eq)]
pub struct PortMatch {
    pub low: u16,
    pub high: u16,
    pub negated: bool,
}

/// A match on the state of the packet's connection: the flag of the state is set or, if negated, is not set.
/// With neither flag no packet has such a state.
#[derive(Clone, Copy, Debug, PartialEq, Eq)]
pub struct StateMatch {
    pub new: bool,
    pub established: bool,
    pub negated: bool,
}

/// What a rule does with a packet that it matches. `Count` only counts the packet, and `Jump` continues in
/// the chain with this number.
#[derive(Clone, Copy, Debug, PartialEq, Eq)]
pub enum Target {
    Accept,
    Drop,
    Reject,
    Return,
    Count,
    Jump(u16),
}

/// A rule matches a packet if each match that is present holds.
#[derive(Clone, Copy, Debug, PartialEq, Eq)]
pub struct Rule {
    pub src: Option<AddrMatch>,
    pub dst: Option<AddrMatch>,
    pub proto: Option<ProtoMatch>,
    pub sport: Option<PortMatch>,
    pub dport: Option<PortMatch>,
    pub state: Option<StateMatch>,
    pub target: Target,
}

/// What a built-in chain does with a packet that reaches its end.
#[derive(Clone, Copy, Debug, PartialEq, Eq)]
pub enum Policy {
    Accept,
    Drop,
}

impl Rule {
    pub(crate) fn matches(&self, packet: &Packet, state: CtState) -> bool
        ensures { result ≡ matches packet.now state self.now }
    {
        protocol_matches(self.proto, packet.proto)
            && port_matches(self.sport, packet.sport)
            && port_matches(self.dport, packet.dport)
            && address_matches(self.src, packet.src)
            && address_matches(self.dst, packet.dst)
            && state_matches(self.state, state)
    }
}

fn protocol_matches(part: Option<ProtoMatch>, proto: u8) -> bool
    ensures { result ≡ protocol_matches part proto }
{
    match part {
        None => true,
        Some(asked) => (asked.proto == proto) != asked.negated,
    }
}

fn port_matches(part: Option<PortMatch>, port: u16) -> bool
    ensures { result ≡ port_matches part port }
{
    match part {
        None => true,
        Some(asked) => lies_in(asked, port) != asked.negated,
    }
}

fn lies_in(part: PortMatch, port: u16) -> bool
    ensures { result ≡ (nat_le part.low port && nat_le port part.high) }
{
    part.low <= port && port <= part.high
}

/// Whether an address of a packet, its source or its destination, satisfies a match of a rule.
pub fn address_matches(part: Option<AddrMatch>, address: u32) -> bool
    ensures { result ≡ address_matches part address }
{
    match part {
        None => true,
        Some(asked) => asked.prefix.covers(address) != asked.negated,
    }
}

pub(crate) fn state_matches(part: Option<StateMatch>, state: CtState) -> bool
    ensures { result ≡ state_matches part state }
{
    match part {
        None => true,
        Some(asked) => {
            let set = match state {
                CtState::New => asked.new,
                CtState::Established => asked.established,
            };
            set != asked.negated
        }
    }
}
