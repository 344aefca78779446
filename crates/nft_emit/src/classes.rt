//! The chains of a growing table. Flows with the same services share a chain.

ghost use Rattle.std.specs.Prelude.{◌≡◌, ◌<◌, ◌≤◌, ◌+◌, ◌∷◌, [], ◌++◌, map, length, IfOk, IfSome, List, OnOk, IsTrue, ℕ};
ghost use Rattle.host_net.specs.Host.{Host};
ghost use Rattle.nft_rules.specs.declared.table.Rule.TheVariants.{Match};
ghost use Rattle.nft_emit.specs.inner.Building.{AreAccepting, AreBuilt, Extends, HasRules};

use crate::names::services_name;
use crate::same::is_same_rule;
use indexmap::IndexMap;
use nft_rules::{Chain, MatchRule, PortMatch, Rule};
use std::alloc::{AllocError, Global};

/// The chains that a table has so far, and the index of the last chain that was added for a key of
/// `key_of`.
#[derive(Drop)]
pub(crate) struct Chains {
    pub list: Vec<Chain>,
    known: IndexMap<Vec<u16>, u32>,
}

impl Chains {
    /// Returns no chains.
    pub fn new(alloc: Global) -> Chains
        ensures { result.list.items ≡ [] }
    {
        Chains {
            list: Vec::new(alloc),
            known: IndexMap::new(alloc),
        }
    }
}

/// Returns the index of a chain with these rules, and adds the chain if there is none.
pub(crate) fn class_of(
    alloc: Global,
    chains: &mut Chains,
    rules: &[MatchRule],
) -> Result<u32, AllocError>
    requires room { length chains.old.list.items < 99999 }
    requires accepting { AreAccepting rules.now }
    ensures kept { OnOk result (Extends chains.old.list.items chains.new.list.items) }
    ensures few { OnOk result (length chains.new.list.items ≤ length chains.old.list.items + 1) }
    ensures built { OnOk result ((hosts : List Host) (from : ℕ) → AreBuilt hosts from chains.old.list.items → AreBuilt hosts from chains.new.list.items) }
    ensures rules { IfOk result (λ c. HasRules chains.new.list.items c (map Match rules.now)) }
{
    let key = key_of(alloc, rules)?;
    if let Some(number) = known_class(chains, &key, rules) {
        return Ok(number);
    }
    let number = push_class(alloc, &mut chains.list, rules)?;
    chains.known.insert(key, number)?;
    Ok(number)
}

/// Returns the index of a chain with these rules, if the chain was the last with its key.
fn known_class(chains: &Chains, key: &Vec<u16>, rules: &[MatchRule]) -> Option<u32>
    ensures { IfSome result (λ c. HasRules chains.now.list.items c (map Match rules.now)) }
{
    let number = *chains.known.get(key)?;
    if has_rules(&chains.list, number, rules) {
        Some(number)
    } else {
        None
    }
}

/// Returns numbers that are the same for the same rules. Few other rules have the same numbers.
fn key_of(alloc: Global, rules: &[MatchRule]) -> Result<Vec<u16>, AllocError> {
    let mut key = Vec::new(alloc);
    for rule in rules {
        push_key(&mut key, rule)?;
    }
    Ok(key)
}

fn push_key(key: &mut Vec<u16>, rule: &MatchRule) -> Result<(), AllocError> {
    key.push(rule.established as u16)?;
    if let Some(service) = rule.service {
        key.push(service.proto as u16)?;
        push_ports(key, service.ports)?;
    }
    Ok(())
}

fn push_ports(key: &mut Vec<u16>, ports: Option<PortMatch>) -> Result<(), AllocError> {
    if let Some(ports) = ports {
        key.push(ports.low)?;
        key.push(ports.high)?;
    }
    Ok(())
}

/// Whether the chain with this index has these rules.
fn has_rules(chains: &[Chain], number: u32, rules: &[MatchRule]) -> bool
    ensures { IsTrue result → HasRules chains.now number (map Match rules.now) }
{
    match chains.get(number as usize) {
        Some(chain) => are_rules(&chain.rules, rules),
        None => false,
    }
}

fn are_rules(rules: &[Rule], wanted: &[MatchRule]) -> bool
    ensures { IsTrue result → rules.now ≡ map Match wanted.now }
{
    if rules.len() != wanted.len() {
        return false;
    }
    for i in 0..wanted.len() {
        if !is_rule(&rules[i], wanted[i]) {
            return false;
        }
    }
    true
}

fn is_rule(rule: &Rule, wanted: MatchRule) -> bool
    ensures { IsTrue result → rule.now ≡ Match wanted }
{
    match rule {
        Rule::Match(rule) => is_same_rule(*rule, wanted),
        Rule::Map(_) => false,
    }
}

/// Adds a chain with these rules, and returns its index.
fn push_class(
    alloc: Global,
    chains: &mut Vec<Chain>,
    rules: &[MatchRule],
) -> Result<u32, AllocError>
    requires room { length chains.old.items < 99999 }
    requires accepting { AreAccepting rules.now }
    ensures kept { OnOk result (Extends chains.old.items chains.new.items) }
    ensures few { OnOk result (length chains.new.items ≤ length chains.old.items + 1) }
    ensures built { OnOk result ((hosts : List Host) (from : ℕ) → AreBuilt hosts from chains.old.items → AreBuilt hosts from chains.new.items) }
    ensures rules { IfOk result (λ c. HasRules chains.new.items c (map Match rules.now)) }
{
    let number = chains.len() as u32;
    let name = services_name(alloc, number)?;
    let rules = rules_of(alloc, rules)?;
    chains.push(Chain { name, rules })?;
    Ok(number)
}

fn rules_of(alloc: Global, rules: &[MatchRule]) -> Result<Vec<Rule>, AllocError>
    ensures { IfOk result (λ made. made.items ≡ map Match rules.now) }
{
    let mut made = Vec::new(alloc);
    for rule in rules {
        made.push(Rule::Match(*rule))?;
    }
    Ok(made)
}
