//! The rules of chains that stand for each place of a table.

ghost use Rattle.std.specs.Prelude.{◌≡◌, ◌≤◌, ◌<◌, ◌+◌, ◌++◌, ◌^◌, IfOk, OnOk, length};
ghost use Rattle.std.specs.List.{flat_map};
ghost use Rattle.ipt_rules.specs.ChainTable.{rule_count};
ghost use Rattle.nft_rules.specs.Loadable.{IsLoadable};
ghost use Rattle.nft_chains.specs.Translation.{chains_of, element_rules, prefixes_of, rules_of_rule, rules_of_rules};
ghost use Rattle.nft_flows.specs.inner.ChainRules.{AreRanges, HasChainRules, HaveChainRules};
ghost use Rattle.nft_flows.specs.inner.Spans.{is_in, number_of, span_at, spans_of, spans_of_elements, spans_of_rule, spans_of_rules};

use crate::place::TablePlace;
use header_space::AddressRange;
use ipt_rules::{FORWARD, Place, Ruleset};
use nft_chains::prefixes_of;
use nft_rules::{Rule, Table, VerdictMap};
use nft_space::LoadableTable;
use std::alloc::{AllocError, Global};

/// A place of a table, and the rules of the chains that stand for it.
#[derive(Clone, Copy)]
pub(crate) struct Span {
    pub place: TablePlace,
    /// The number of their chain.
    pub chain: u16,
    /// The index of the first of the rules in the chain.
    pub first: u32,
    /// The index after the last one.
    pub end: u32,
}

impl Span {
    /// Whether a rule of the chains is one of those of the span.
    pub(crate) fn contains(&self, rule: Place) -> bool
        ensures { result ≡ is_in self.now rule }
    {
        rule.chain == self.chain && self.first <= rule.rule && rule.rule < self.end
    }
}

/// Returns the spans of all places of a table, in ascending order. `chains` are the chains of the table.
pub(crate) fn spans_in(
    alloc: Global,
    table: &LoadableTable,
    chains: &Ruleset,
) -> Result<Vec<Span>, AllocError>
    requires { chains.now ≡ chains_of table.now }
    ensures { IfOk result (λ spans. spans.items ≡ spans_of table.now) }
{
    // These calls establish that the numbers of the chains and of their rules fit the types of a place.
    let _chains = chains.chains();
    let _rules = chains.rules();
    spans_of(alloc, table.table())
}

/// Returns the spans of a table whose chains and rules are not too many.
fn spans_of(alloc: Global, table: &Table) -> Result<Vec<Span>, AllocError>
    requires loadable { IsLoadable table.now }
    requires chains { length (chains_of table.now) < 2 ^ 16 }
    requires rules { rule_count (chains_of table.now) < 2 ^ 32 }
    ensures { IfOk result (λ spans. spans.items ≡ spans_of table.now) }
{
    let mut spans = Vec::new(alloc);
    push_rules(alloc, &mut spans, None, &table.forward)?;
    for index in 0..table.chains.len() {
        let rules = &table.chains[index].rules;
        push_rules(alloc, &mut spans, Some(index as u32), rules)?;
    }
    Ok(spans)
}

/// Appends the spans of the rules of a chain.
fn push_rules(
    alloc: Global,
    spans: &mut Vec<Span>,
    chain: Option<u32>,
    rules: &[Rule],
) -> Result<(), AllocError>
    requires chain { number_of chain < 2 ^ 16 }
    requires rules { HaveChainRules rules.now }
    requires few { length (rules_of_rules rules.now) < 2 ^ 32 }
    ensures { OnOk result (spans.new.items ≡ spans.old.items ++ spans_of_rules chain 0 0 rules.now) }
{
    let mut end = 0;
    for index in 0..rules.len() {
        end = push_rule(alloc, spans, chain, index as u32, end, &rules[index])?;
    }
    Ok(())
}

/// Appends the spans of a rule, whose rules of the chains begin at `first`. Returns the index after the last of them.
fn push_rule(
    alloc: Global,
    spans: &mut Vec<Span>,
    chain: Option<u32>,
    index: u32,
    first: u32,
    rule: &Rule,
) -> Result<u32, AllocError>
    requires chain { number_of chain < 2 ^ 16 }
    requires rule { HasChainRules rule.now }
    requires few { first + length (rules_of_rule rule.now) < 2 ^ 32 }
    ensures spans { OnOk result (spans.new.items ≡ spans.old.items ++ spans_of_rule chain index first rule.now) }
    ensures end { IfOk result (λ end. end ≡ first + length (rules_of_rule rule.now)) }
    ensures more { IfOk result (λ end. first < end) }
{
    match rule {
        Rule::Map(map) => push_map(alloc, spans, chain, index, first, map),
        Rule::Match(_) => {
            let place = TablePlace {
                chain,
                rule: index,
                element: None,
            };
            spans.push(new_span(place, first, first + 1))?;
            Ok(first + 1)
        }
    }
}

/// Appends the spans of the elements of a map, as `push_rule` does.
fn push_map(
    alloc: Global,
    spans: &mut Vec<Span>,
    chain: Option<u32>,
    rule: u32,
    first: u32,
    map: &VerdictMap,
) -> Result<u32, AllocError>
    requires chain { number_of chain < 2 ^ 16 }
    requires some { 0 < length map.now.elements.items }
    requires elements { AreRanges map.now.elements.items }
    requires few { first + length (flat_map (element_rules map.now.end) map.now.elements.items) < 2 ^ 32 }
    ensures spans { OnOk result (spans.new.items ≡ spans.old.items ++ spans_of_elements chain rule 0 first map.now.elements.items) }
    ensures end { IfOk result (λ end. end ≡ first + length (flat_map (element_rules map.now.end) map.now.elements.items)) }
    ensures more { IfOk result (λ end. first < end) }
{
    let mut end = first;
    for index in 0..map.elements.len() {
        let AddressRange { first, last } = map.elements[index].range;
        let next = end + prefix_count(alloc, first, last)?;
        let place = TablePlace {
            chain,
            rule,
            element: Some(index as u32),
        };
        spans.push(new_span(place, end, next))?;
        end = next;
    }
    Ok(end)
}

/// Returns the number of prefixes of an interval.
fn prefix_count(alloc: Global, first: u32, last: u32) -> Result<u32, AllocError>
    requires some { first ≤ last }
    requires few { length (prefixes_of (record { first = first; last = last })) < 2 ^ 32 }
    ensures count { IfOk result (λ count. count ≡ length (prefixes_of (record { first = first; last = last }))) }
    ensures some { IfOk result (λ count. 0 < count) }
{
    let prefixes = prefixes_of(alloc, AddressRange { first, last })?;
    Ok(prefixes.len() as u32)
}

/// Returns the span of a place.
fn new_span(place: TablePlace, first: u32, end: u32) -> Span
    requires { number_of place.chain < 2 ^ 16 }
    ensures { result ≡ span_at place.chain place.rule place.element first end }
{
    let chain = match place.chain {
        None => FORWARD,
        Some(chain) => (chain + 3) as u16,
    };
    Span {
        place,
        chain,
        first,
        end,
    }
}
