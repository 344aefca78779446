//! The chain of one host: its outbound packets by destination, or its inbound packets by source.

ghost use Rattle.std.specs.Prelude.{◌≡◌, ◌≤◌, ◌<◌, ◌++◌, length, IfOk, OnOk};
ghost use Rattle.std.specs.List.{flat_map};
ghost use Rattle.std.specs.Option.{ForSome};
ghost use Rattle.host_net.specs.Host.{rest_of};
ghost use Rattle.emit_core.specs.Layout.{is_open, to_prefix, to_rest, for_each_prefix, host_rules};
ghost use Rattle.emit_core.specs.inner.Link.{link_of, prefix_rules};

mod link;

use crate::direction::Direction;
use crate::parts::match_peer;
use host_net::Prefix;
use ipt_rules::{Rule, Target};
use link::Link;
use pkt_core::FlowPolicy;
use std::alloc::{AllocError, Global};

/// Returns the rules of the chain of a host for outbound or for inbound packets.
pub fn host_rules(
    alloc: Global,
    policy: &FlowPolicy<'_>,
    side: Direction,
    host: u16,
) -> Result<Vec<Rule>, AllocError>
    requires { host < length policy.now.site.hosts }
    ensures { IfOk result (λ rules. rules.items ≡ host_rules side policy.now host) }
{
    let chain = HostChain {
        policy,
        side,
        host,
        rest: policy.rest(),
    };
    chain.rules(alloc)
}

/// The host of the chain, and the policy.
#[derive(Drop)]
struct HostChain<'a> {
    policy: &'a FlowPolicy<'a>,
    side: Direction,
    host: u16,
    rest: Option<u16>,
    ghost host_within: { host < length policy.now.site.hosts },
    ghost is_rest: { rest ≡ rest_of policy.now.site.hosts },
    ghost rest_within: { ForSome rest (λ r. r < length policy.now.site.hosts) },
}

impl<'a> HostChain<'a> {
    /// Returns the packets that pass between the host and another.
    fn link(&self, other: u16) -> Link<'a>
        requires { other < length self.now.policy.now.site.hosts }
        ensures { result ≡ link_of self.now.side self.now.policy.now self.now.host other }
    {
        Link::of(self.policy, self.side, self.host, other)
    }

    /// Whether some packet to the rest host passes, or some packet from it.
    #[tactic(auto, using(crate::proofs::LinkLaws::link_open))]
    fn is_open(&self) -> bool
        ensures { result ≡ is_open self.now.side self.now.policy.now self.now.host self.now.rest }
    {
        match self.rest {
            None => false,
            Some(rest) => self.link(rest).is_open(),
        }
    }

    /// Returns the rules of the host's chain.
    fn rules(&self, alloc: Global) -> Result<Vec<Rule>, AllocError>
        ensures { IfOk result (λ rules. rules.items ≡ host_rules self.now.side self.now.policy.now self.now.host) }
    {
        let mut rules = Vec::with_capacity(alloc, self.policy.count() as usize)?;
        self.push_to_hosts(&mut rules)?;
        self.push_to_rest(&mut rules)?;
        rules.push(match_peer(self.side, None, Target::Drop))?;
        Ok(rules)
    }

    #[tactic(auto, using(crate::proofs::Steps::for_each_all))]
    fn push_to_hosts(&self, rules: &mut Vec<Rule>) -> Result<(), AllocError>
        ensures { OnOk result (rules.new.items ≡ rules.old.items
            ++ for_each_prefix (to_prefix self.now.side self.now.policy.now self.now.host self.now.rest) 0 self.now.policy.now.site.hosts) }
    {
        let opened = self.is_open();
        for to in 0..self.policy.count() {
            push_to_host(rules, &self.link(to), opened, self.policy.prefixes(to))?;
        }
        Ok(())
    }

    #[tactic(auto, using(crate::proofs::LinkLaws::link_accepts))]
    fn push_to_rest(&self, rules: &mut Vec<Rule>) -> Result<(), AllocError>
        ensures { OnOk result (rules.new.items ≡ rules.old.items
            ++ to_rest self.now.side self.now.policy.now self.now.host self.now.rest) }
    {
        if let Some(rest) = self.rest {
            self.link(rest).push_accepts(rules, None)?;
        }
        Ok(())
    }
}

/// Adds the rules for each prefix of the other host.
fn push_to_host(
    rules: &mut Vec<Rule>,
    link: &Link<'_>,
    opened: bool,
    prefixes: &[Prefix],
) -> Result<(), AllocError>
    ensures { OnOk result (rules.new.items ≡ rules.old.items
        ++ flat_map (prefix_rules link.now opened) prefixes.now) }
{
    for prefix in prefixes {
        link.push_to_prefix(rules, opened, *prefix)?;
    }
    Ok(())
}
