//! The chains of a rule set or of a slice, to be read rule by rule.

ghost use Rattle.std.specs.Prelude.{◌≡◌, ◌<◌, length};
ghost use Rattle.ipt_rules.specs.Chain.{policy_of, rules_of};
ghost use Rattle.ipt_rules.specs.inner.OneOutcome.{AreDeterministic};
ghost use Rattle.ipt_rules.specs.inner.Ranks.{HasTopologicalOrder};

use crate::chain::Chain;
use crate::rule::{Policy, Rule};
use crate::ruleset::Ruleset;
use crate::slice::Slice;
use crate::walk::{policy_of, rules_of};
use std::marker::Model;

/// The chains of a rule set or of a slice.
#[derive(Drop)]
pub struct ChainsRef<'a> {
    chains: &'a [Chain],
}

impl<'a> Model for ChainsRef<'a> {
    ghost use Rattle.std.specs.Prelude.{List};
    ghost use Rattle.ipt_rules.specs.Chain.{Chain};
    ghost use Rattle.ipt_rules.specs.inner.Slicing.{IsSlice};

    ghost Value = { List Chain };

    ghost view = { λ c. c.chains.now };

    ghost invariant = { λ c. IsSlice c.chains.now };
}

impl<'a> ChainsRef<'a> {
    /// Returns the number of chains, including the built-in chains.
    pub fn count(&self) -> u16
        ensures count { result ≡ length self.now }
        ensures forward { 1 < result }

        // Each chain has exactly one outcome for every packet.
        ensures deterministic { AreDeterministic self.now }

        // In some order of the chains, each jump goes to an earlier chain.
        ensures ordered { HasTopologicalOrder self.now }
    {
        self.chains.len() as u16
    }

    /// Returns the rules of a chain, in order.
    pub fn rules_in(&self, chain: u16) -> &[Rule]
        requires { chain < length self.now }
        ensures { result.now ≡ rules_of self.now chain }
    {
        rules_of(self.chains, chain)
    }

    /// Returns the policy of a chain. A user chain has none.
    pub fn policy(&self, chain: u16) -> Option<Policy>
        requires { chain < length self.now }
        ensures { result ≡ policy_of self.now chain }
    {
        policy_of(self.chains, chain)
    }
}

impl Ruleset {
    /// Returns its chains.
    pub fn as_chains(&self) -> ChainsRef<'_>
        ensures { result ≡ self.now }
    {
        ChainsRef {
            chains: &self.chains,
        }
    }
}

impl Slice {
    /// Returns its chains.
    pub fn as_chains(&self) -> ChainsRef<'_>
        ensures { result ≡ self.now }
    {
        ChainsRef {
            chains: &self.chains,
        }
    }
}
