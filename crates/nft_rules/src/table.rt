//! The parts of a table, in the terms of nft(8).

use header_space::AddressRange;

/// What a rule, or an element of a verdict map, does with a packet: accept it, drop it, or continue
/// in the chain with this index. A chain that `goto` enters does not return.
#[derive(Clone, Copy, Debug, PartialEq, Eq)]
pub enum Verdict {
    Accept,
    Drop,
    Goto(u32),
}

/// The end of a packet whose address or port a rule matches.
#[derive(Clone, Copy, Debug, PartialEq, Eq)]
pub enum End {
    Source,
    Destination,
}

/// An element of a verdict map: an interval of addresses, and the verdict on their packets.
#[derive(Clone, Copy, Debug, PartialEq, Eq)]
pub struct Element {
    pub range: AddressRange,
    pub verdict: Verdict,
}

/// A rule `ip saddr vmap` or `ip daddr vmap`: a verdict for each of these addresses, and none for
/// other addresses.
#[derive(Drop)]
pub struct VerdictMap {
    pub end: End,
    pub elements: Vec<Element>,
}

/// A match `sport` or `dport`: the port at one end is between `low` and `high`, inclusive.
#[derive(Clone, Copy, Debug, PartialEq, Eq)]
pub struct PortMatch {
    pub end: End,
    pub low: u16,
    pub high: u16,
}

/// A match on the protocol, and on a port of it if there is a port match.
#[derive(Clone, Copy, Debug, PartialEq, Eq)]
pub struct ServiceMatch {
    pub proto: u8,
    pub ports: Option<PortMatch>,
}

/// A rule with a verdict for the packets that all of its matches fit: `ct state established` if
/// `established` is set, and the service match if there is one.
#[derive(Clone, Copy, Debug, PartialEq, Eq)]
pub struct MatchRule {
    pub established: bool,
    pub service: Option<ServiceMatch>,
    pub verdict: Verdict,
}

/// A rule of a chain.
#[derive(Drop)]
pub enum Rule {
    Map(VerdictMap),
    Match(MatchRule),
}

/// A chain: its name, and its rules in the order of evaluation.
#[derive(Drop)]
pub struct Chain {
    pub name: Vec<u8>,
    pub rules: Vec<Rule>,
}

/// A table: the rules of the base chain `forward`, whose policy is to drop, and the other chains in
/// the order of their indices.
#[derive(Drop)]
pub struct Table {
    pub forward: Vec<Rule>,
    pub chains: Vec<Chain>,
}
