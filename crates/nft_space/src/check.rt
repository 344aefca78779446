//! The test whether a table can be loaded.

ghost use Rattle.std.specs.Prelude.{◌≡◌, ◌==◌, [], IfOk};
ghost use Rattle.nft_rules.specs.Loadable.{IsChainName, IsRule, are_ports, begins_with_letter, is_service_match};
ghost use Rattle.nft_space.specs.inner.Checks.{are_chains, are_distinct, are_elements, are_rules, ascend_from, begins_later, is_chain, is_chain_name, is_loadable, is_rule, leads_below};
ghost use Rattle.std.specs.Bool.{Decides};
ghost use Rattle.std.specs.List.{list_all, list_any};
ghost use Rattle.text_core.specs.Name.{is_name_byte};
ghost use Rattle.host_net.specs.Service.{has_ports};

use indexmap::IndexSet;
use nft_rules::{Chain, Element, PortMatch, Rule, ServiceMatch, Table, Verdict};
use std::alloc::{AllocError, Global};

/// The greatest number of chains besides the base chain.
const CHAIN_LIMIT: usize = 100_000;

/// Whether a table can be loaded.
pub(crate) fn is_loadable(alloc: Global, table: &Table) -> Result<bool, AllocError>
    ensures { IfOk result (λ yes. yes ≡ is_loadable table.now) }
{
    let count = table.chains.len();
    if count > CHAIN_LIMIT || !are_rules(count, &table.forward) || !are_chains(&table.chains) {
        return Ok(false);
    }
    are_distinct(alloc, &table.chains)
}

fn are_chains(chains: &[Chain]) -> bool
    ensures { result ≡ are_chains 0 chains.now }
{
    for place in 0..chains.len() {
        if !is_chain(place, &chains[place]) {
            return false;
        }
    }
    true
}

fn is_chain(place: usize, chain: &Chain) -> bool
    ensures { result ≡ is_chain place chain.now }
{
    are_rules(place, &chain.rules) && is_chain_name(&chain.name)
}

fn are_distinct(alloc: Global, chains: &[Chain]) -> Result<bool, AllocError>
    ensures { IfOk result (λ yes. yes ≡ are_distinct [] chains.now) }
{
    let mut seen = IndexSet::new(alloc);
    for chain in chains {
        let name = Vec::from_slice(alloc, &chain.name)?;
        if !seen.insert(name)? {
            return Ok(false);
        }
    }
    Ok(true)
}

/// Whether the name is valid for a chain besides the base chain, as `Loadable` defines it.
#[tactic(auto, using(crate::proofs::CheckLaws::name_decided))]
pub fn is_chain_name(name: &[u8]) -> bool
    ensures value { result ≡ is_chain_name name.now }
    ensures decides { Decides result (IsChainName name.now) }
{
    begins_with_letter(name)
        && has_underscore(name)
        && has_name_bytes(name)
        && name.len() <= 128
        && name != b"forward".as_slice()
}

fn begins_with_letter(name: &[u8]) -> bool
    ensures { result ≡ begins_with_letter name.now }
{
    match name {
        [first, ..] => first.is_ascii_alphabetic(),
        [] => false,
    }
}

/// Whether the name has a `_`, which no keyword of nft has.
fn has_underscore(name: &[u8]) -> bool
    ensures { result ≡ list_any (λ b. b == 95) name.now }
{
    name.iter().any(|byte| *byte == b'_')
}

fn has_name_bytes(name: &[u8]) -> bool
    ensures { result ≡ list_all is_name_byte name.now }
{
    name.iter().all(|byte| is_name_byte(*byte))
}

fn is_name_byte(byte: u8) -> bool
    ensures { result ≡ is_name_byte byte }
{
    byte.is_ascii_alphanumeric() || byte == b'_' || byte == b'-'
}

/// Whether the rules are valid, and each `goto` leads to one of the first `below` chains.
fn are_rules(below: usize, rules: &[Rule]) -> bool
    ensures { result ≡ are_rules below rules.now }
{
    rules.iter().all(|rule| is_rule(below, rule))
}

/// Whether a rule is valid, and each `goto` of it leads to one of the first `below` chains.
#[tactic(auto, using(crate::proofs::CheckLaws::rule_decided))]
pub fn is_rule(below: usize, rule: &Rule) -> bool
    ensures value { result ≡ is_rule below rule.now }
    ensures decides { Decides result (IsRule below rule.now) }
{
    match rule {
        Rule::Map(map) => are_elements(below, &map.elements),
        Rule::Match(rule) => is_service_match(rule.service) && leads_below(below, rule.verdict),
    }
}

fn leads_below(below: usize, verdict: Verdict) -> bool
    ensures { result ≡ leads_below below verdict }
{
    match verdict {
        Verdict::Goto(chain) => (chain as usize) < below,
        _ => true,
    }
}

fn are_elements(below: usize, elements: &[Element]) -> bool
    ensures { result ≡ are_elements below elements.now }
{
    !elements.is_empty() && ascend(elements) && lead_below(below, elements)
}

fn lead_below(below: usize, elements: &[Element]) -> bool
    ensures { result ≡ list_all (λ e. leads_below below e.verdict) elements.now }
{
    elements
        .iter()
        .all(|element| leads_below(below, element.verdict))
}

/// Whether the intervals are non-empty, in ascending order and disjoint.
fn ascend(elements: &[Element]) -> bool
    ensures { result ≡ ascend_from 0 elements.now }
{
    let mut from = 0;
    for element in elements {
        if !begins_later(from, *element) {
            return false;
        }
        from = element.range.last as u64 + 1;
    }
    true
}

fn begins_later(from: u64, element: Element) -> bool
    ensures { result ≡ begins_later from element }
{
    from <= element.range.first as u64 && element.range.first <= element.range.last
}

fn is_service_match(service: Option<ServiceMatch>) -> bool
    ensures { result ≡ is_service_match service }
{
    match service {
        None => true,
        Some(service) => are_ports(service.proto, service.ports),
    }
}

fn are_ports(proto: u8, ports: Option<PortMatch>) -> bool
    ensures { result ≡ are_ports proto ports }
{
    match ports {
        None => proto == 1 || has_ports(proto),
        Some(ports) => has_ports(proto) && ports.low <= ports.high,
    }
}

fn has_ports(proto: u8) -> bool
    ensures { result ≡ has_ports proto }
{
    proto == 6 || proto == 17
}
