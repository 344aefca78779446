//! Access to the rules of a rule set, by number or by chain.

ghost use Rattle.std.specs.Prelude.{◌≡◌, ◌<◌, ◌≤◌, length, slice_get, Some};
ghost use Rattle.ipt_rules.specs.Chain.{name_of, rules_of};
ghost use Rattle.ipt_rules.specs.inner.OneOutcome.{AreDeterministic};
ghost use Rattle.ipt_rules.specs.Rules.{all_rules};
ghost use Rattle.ipt_rules.specs.inner.Starts.{starts_from};

use crate::chain::Chain;
use crate::chains::name_at;
use crate::rule::Rule;
use crate::ruleset::Ruleset;
use crate::starts::chain_at;
use crate::walk::rules_of;
use std::cell::Cell;

impl Ruleset {
    /// Returns the number of rules in all chains.
    pub fn rules(&self) -> u32
        ensures count { result ≡ length (all_rules self.now) }

        // Each chain has exactly one outcome for every packet.
        ensures deterministic { AreDeterministic self.now }
    {
        self.rules
    }

    /// Returns the rule at index `k`, from 0, among the rules of all chains in order.
    pub fn rule_at(&self, k: u32) -> Rule
        requires { k < length (all_rules self.now) }
        ensures { slice_get (all_rules self.now) k ≡ Some result }
    {
        rule_among(&self.chains, &self.starts, &self.found_last, k)
    }

    /// Returns the number of chains, including the built-in chains.
    pub fn chains(&self) -> u16
        ensures { result ≡ length self.now }
    {
        self.chains.len() as u16
    }

    /// Returns the name of a chain, or no bytes if there is no such chain.
    pub fn chain_name(&self, chain: u16) -> &[u8]
        ensures { result.now ≡ name_of self.now chain }
    {
        name_at(&self.chains, chain)
    }

    /// Returns the rules of a chain, in order.
    pub fn rules_in(&self, chain: u16) -> &[Rule]
        requires { chain < length self.now }
        ensures { result.now ≡ rules_of self.now chain }
    {
        rules_of(&self.chains, chain)
    }
}

fn rule_among(chains: &[Chain], starts: &[u32], found_last: &Cell<usize>, number: u32) -> Rule
    requires starts { starts.now ≡ starts_from 0 chains.now }
    requires few { length chains.now ≤ 4096 }
    requires there { number < length (all_rules chains.now) }
    ensures { slice_get (all_rules chains.now) number ≡ Some result }
{
    let place = chain_at(starts, found_last, number as usize);
    let rules = chains[place].rules();
    rules[(number - starts[place]) as usize]
}
