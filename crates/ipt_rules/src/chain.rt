//! A chain: its head and its rules. A built-in chain has a policy, a user chain has a name.

ghost use Rattle.std.specs.Prelude.{◌≡◌, ◌≤◌, ◌∷◌, [], ◌++◌, length, OnOk, OnErr, IsSome, IsTrue, Some};
ghost use Rattle.ipt_rules.specs.inner.Addresses.{addresses_fit};
ghost use Rattle.ipt_rules.specs.inner.Head.{head_name, head_policy};

use crate::name::ChainName;
use crate::rule::{Policy, Rule};
use std::alloc::{AllocError, Global};
use std::marker::Model;

/// The head of a chain: the content of its chain line.
#[derive(Clone, Copy)]
pub(crate) enum Head {
    Input(Policy),
    Forward(Policy),
    Output(Policy),
    User(ChainName),
}

impl Head {
    #[tactic(auto, using(crate::proofs::NameLemmas::user_name_fits))]
    pub(crate) fn name(&self) -> &[u8]
        ensures value { result.now ≡ head_name self.now }
        ensures short { length result.now ≤ 64 }
    {
        match self {
            Head::Input(_) => b"INPUT",
            Head::Forward(_) => b"FORWARD",
            Head::Output(_) => b"OUTPUT",
            Head::User(name) => name.bytes(),
        }
    }

    fn policy(&self) -> Option<Policy>
        ensures { result ≡ head_policy self.now }
    {
        match self {
            Head::Input(policy) | Head::Forward(policy) | Head::Output(policy) => Some(*policy),
            Head::User(_) => None,
        }
    }

    fn with_policy(self, policy: Policy) -> Head
        requires { IsSome (head_policy self) }
        ensures name { head_name result ≡ head_name self }
        ensures policy { head_policy result ≡ Some policy }
    {
        match self {
            Head::Input(_) => Head::Input(policy),
            Head::Forward(_) => Head::Forward(policy),
            Head::Output(_) => Head::Output(policy),
            Head::User(_) => self,
        }
    }
}

#[derive(Drop)]
pub(crate) struct Chain {
    head: Head,
    rules: Vec<Rule>,
}

impl Model for Chain {
    ghost use Rattle.ipt_rules.specs.Chain.{Chain};

    ghost Value = { Chain };

    ghost use Rattle.ipt_rules.specs.inner.Head.{head_name, head_policy};

    ghost view = { λ c. record { name = head_name c.head; policy = head_policy c.head; rules = c.rules.items } };
}

impl Chain {
    /// Returns a chain without rules.
    pub(crate) fn new(alloc: Global, head: Head) -> Chain
        ensures { result ≡ record { name = head_name head; policy = head_policy head; rules = [] } }
    {
        Chain {
            head,
            rules: Vec::new(alloc),
        }
    }

    /// Returns the same chain without rules.
    pub(crate) fn emptied(&self, alloc: Global) -> Chain
        ensures { result ≡ record { name = self.now.name; policy = self.now.policy; rules = [] } }
    {
        Chain::new(alloc, self.head)
    }

    pub(crate) fn name(&self) -> &[u8]
        ensures value { result.now ≡ self.now.name }
        ensures short { length result.now ≤ 64 }
    {
        self.head.name()
    }

    pub(crate) fn policy(&self) -> Option<Policy>
        ensures { result ≡ self.now.policy }
    {
        self.head.policy()
    }

    /// Sets the policy of a built-in chain.
    pub(crate) fn set_policy(&mut self, policy: Policy)
        requires { IsSome self.old.policy }
        ensures { self.new ≡ record self.old { policy = Some policy } }
    {
        self.head = self.head.with_policy(policy);
    }

    pub(crate) fn rules(&self) -> &[Rule]
        ensures { result.now ≡ self.now.rules }
    {
        &self.rules
    }

    /// Reserves capacity for additional rules.
    pub(crate) fn reserve(&mut self, rules: usize) -> Result<(), AllocError>
        ensures { self.new ≡ self.old }
    {
        self.rules.reserve(rules)
    }

    pub(crate) fn push(&mut self, rule: Rule) -> Result<(), AllocError>
        ensures ok { OnOk result (self.new ≡ record self.old { rules = self.old.rules ++ rule ∷ [] }) }
        ensures err { OnErr result (self.new ≡ self.old) }
        // The addresses that the rule matches on have 32 bits.
        ensures fits { IsTrue (addresses_fit rule) }
    {
        self.rules.push(rule)?;
        Ok(())
    }
}
