//! A builder of chains: it adds rules one by one, before the chains form a rule set.

ghost use Rattle.std.specs.Prelude.{◌≡◌, ◌<◌, ◌≤◌, ◌+◌, ◌^◌, ◌∷◌, [], ◌++◌, length, IfOk, OnOk, OnErr, IsNone, IfSome, IsTrue, bytes_eq};
ghost use Rattle.std.specs.List.Sorted.{IsSearchInRange};
ghost use Rattle.ipt_rules.specs.Chain.{built_in_chains, user_chain, with_policy, with_rule, name_of, number_of};
ghost use Rattle.ipt_rules.specs.ChainTable.{rule_count};
ghost use Rattle.ipt_rules.specs.inner.RuleParts.{is_rule};

use crate::chain::{Chain, Head};
use crate::name::ChainName;
use crate::rule::{Policy, Rule};
use crate::ruleset::{FORWARD, INPUT, OUTPUT};
use std::alloc::{AllocError, Global};
use std::marker::Model;

/// Chains with their rules, numbered from 0: INPUT, FORWARD, OUTPUT and then the user chains in order of
/// insertion.
#[derive(Drop)]
pub struct Chains {
    pub(crate) alloc: Global,
    pub(crate) chains: Vec<Chain>,
    pub(crate) rules: u32,
    /// The numbers of the chains, sorted by name.
    by_name: Vec<u16>,
}

impl Model for Chains {
    ghost use Rattle.std.specs.Prelude.{List};
    ghost use Rattle.ipt_rules.specs.Chain.{Chain};
    ghost use Rattle.ipt_rules.specs.inner.ChainTable.{IsChainList};

    ghost Value = { List Chain };

    ghost view = { λ c. c.chains.items };

    ghost invariant = { λ c. IsChainList c.chains.items c.rules };
}

impl Chains {
    /// Returns the three built-in chains with policy `Accept` and without rules.
    pub fn new(alloc: Global) -> Result<Chains, AllocError>
        ensures { IfOk result (λ chains. chains ≡ built_in_chains) }
    {
        let mut chains = Vec::new(alloc);
        chains.push(Chain::new(alloc, Head::Input(Policy::Accept)))?;
        chains.push(Chain::new(alloc, Head::Forward(Policy::Accept)))?;
        chains.push(Chain::new(alloc, Head::Output(Policy::Accept)))?;
        let by_name = built_in_by_name(alloc)?;
        Ok(Chains {
            alloc,
            chains,
            rules: 0,
            by_name,
        })
    }

    /// Sets the policy of a built-in chain.
    pub fn set_policy(&mut self, chain: u16, policy: Policy)
        requires { chain < 3 }
        ensures { self.new ≡ with_policy self.old chain policy }
    {
        let changed = &mut self.chains[chain as usize];
        changed.set_policy(policy);
    }

    /// Adds a user chain without rules, and returns its number.
    pub fn add(&mut self, name: ChainName) -> Result<u16, AllocError>
        requires unused { IsNone (number_of self.old name) }
        requires room { length self.old < 65536 }
        ensures number { IfOk result (λ number. number ≡ length self.old) }
        ensures ok { OnOk result (self.new ≡ self.old ++ user_chain name ∷ []) }
        ensures err { OnErr result (self.new ≡ self.old) }
    {
        let number = self.chains.len() as u16;
        let place = place_for(&self.chains, &self.by_name, name.bytes());
        self.by_name.insert(place, number)?;
        self.chains.push(Chain::new(self.alloc, name.head()))?;
        Ok(number)
    }

    /// Returns the number of the chain with this name. Finds built-in chains as well.
    pub fn find(&self, name: &[u8]) -> Option<u16>
        ensures { result ≡ number_of self.now name.now }
    {
        if let Some(number) = looked_up(&self.chains, &self.by_name, name) {
            return Some(number);
        }
        // Only a comparison with all chains shows that no chain has the name.
        let number = position_of(&self.chains, name)?;
        Some(number as u16)
    }

    /// Reserves capacity for `rules` additional rules of a chain.
    pub fn reserve(&mut self, chain: u16, rules: usize) -> Result<(), AllocError>
        requires { chain < length self.old }
        ensures { self.new ≡ self.old }
    {
        let changed = &mut self.chains[chain as usize];
        changed.reserve(rules)
    }

    /// Appends a rule to a chain.
    pub fn rule(&mut self, chain: u16, rule: Rule) -> Result<(), AllocError>
        requires there { chain < length self.old }
        requires room { rule_count self.old + 1 < 2 ^ 32 }
        requires parts { IsTrue (is_rule rule) }
        ensures ok { OnOk result (self.new ≡ with_rule self.old chain rule) }
        ensures err { OnErr result (self.new ≡ self.old) }
    {
        let changed = &mut self.chains[chain as usize];
        changed.push(rule)?;
        self.rules += 1;
        Ok(())
    }
}

fn built_in_by_name(alloc: Global) -> Result<Vec<u16>, AllocError> {
    let mut by_name = Vec::new(alloc);
    by_name.push(FORWARD)?;
    by_name.push(INPUT)?;
    by_name.push(OUTPUT)?;
    Ok(by_name)
}

/// Returns the name of the chain with this number, or no bytes if there is none.
pub(crate) fn name_at(chains: &[Chain], number: u16) -> &[u8]
    ensures { result.now ≡ name_of chains.now number }
{
    match chains.get(number as usize) {
        Some(chain) => chain.name(),
        None => b"",
    }
}

/// Returns the position of the name in the sorted numbers, or the position at which to insert it.
fn place_by_name(chains: &[Chain], by_name: &[u16], name: &[u8]) -> Result<usize, usize>
    ensures { IsSearchInRange result (length by_name.now) }
{
    by_name.binary_search_by(|number| name_at(chains, *number).cmp(name))
}

fn place_for(chains: &[Chain], by_name: &[u16], name: &[u8]) -> usize
    ensures { result ≤ length by_name.now }
{
    match place_by_name(chains, by_name, name) {
        Ok(place) => place,
        Err(place) => place,
    }
}

/// Returns the chain that the sorted numbers lead to. Compares its name: the sorted numbers are only a hint.
fn looked_up(chains: &[Chain], by_name: &[u16], name: &[u8]) -> Option<u16>
    ensures within { IfSome result (λ number. number < length chains.now) }
    ensures named { IfSome result (λ number. IsTrue (bytes_eq (name_of chains.now number) name.now)) }
{
    let place = place_by_name(chains, by_name, name).ok()?;
    let number = *by_name.get(place)?;
    if number as usize >= chains.len() {
        return None;
    }
    if name_at(chains, number) != name {
        return None;
    }
    Some(number)
}

fn position_of(chains: &[Chain], name: &[u8]) -> Option<usize>
    ensures exact { result ≡ number_of chains.now name.now }
    ensures within { IfSome result (λ number. number < length chains.now) }
{
    chains.iter().position(|chain| chain.name() == name)
}
