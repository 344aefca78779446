//! The chains of a policy, assembled.

ghost use Rattle.std.specs.Prelude.{◌≡◌, ◌+◌, ◌<◌, ◌≤◌, ◌^◌, ◌∷◌, [], ◌++◌, None, length, IfOk, IfErr, OnOk, IsNone, IsTrue};
ghost use Rattle.std.specs.List.{list_all};
ghost use Rattle.host_net.specs.inner.Hosts.{IsHosts};
ghost use Rattle.host_net.specs.inner.Site.{IsSite};
ghost use Rattle.pkt_core.specs.Filter.{Enforces, ForwardsAsExpected};
ghost use Rattle.pkt_core.specs.inner.FlowPolicy.{IsFlowPolicy};
ghost use Rattle.ipt_rules.specs.Chain.{number_of};
ghost use Rattle.ipt_rules.specs.ChainTable.{rule_count};
ghost use Rattle.ipt_rules.specs.Semantics.{PassesChains};
ghost use Rattle.ipt_rules.specs.inner.RuleParts.{is_rule};
ghost use Rattle.emit_core.specs.EmitRefusals.{rule_limit};
ghost use Rattle.emit_core.specs.inner.EmitRefusals.{HasNoChains};
ghost use Rattle.emit_core.specs.inner.Filling.{AreCounted, chains_up_to};
ghost use Rattle.emit_core.specs.Layout.{entry_chains, forward_rules, host_chain_name, layout};

use crate::direction::Direction;
use crate::filling::{build_accepted, fill};
use crate::forward::forward_rules;
use crate::host_chain::host_rules;
use crate::refusal::NoChains;
use host_net::Hosts;
use ipt_rules::{ChainName, Chains, FORWARD, Policy, Rule, Ruleset};
use pkt_core::FlowPolicy;
use std::alloc::{AllocError, Global};

/// The greatest number of rules of a layout.
const RULE_LIMIT: u32 = 600_000;

/// Returns the rules of a policy: permitted flows pass, and the answers of stateful flows pass on
/// established connections.
pub fn iptables_layout(alloc: Global, policy: &FlowPolicy<'_>) -> Result<Ruleset, NoChains>
    ensures layout { IfOk result (λ rules. rules ≡ layout policy.now) }
    ensures few { OnOk result (rule_count (layout policy.now) ≤ rule_limit) }
    ensures refused { IfErr result (HasNoChains policy.now) }

    // Each packet has a verdict, and it is forwarded if and only if the policy allows it.
    ensures enforces { IfOk result (λ rules. Enforces (PassesChains rules) policy.now) }

    // For every list of events, a packet is forwarded if and only if the policy and its answers
    // expect it.
    ensures expected { IfOk result (λ rules. ForwardsAsExpected (PassesChains rules) policy.now) }
{
    let Ok(Layout { chains, count }) = layout_of(alloc, policy) else {
        return Err(NoChains::Memory);
    };
    if count > RULE_LIMIT {
        return Err(NoChains::TooManyRules { count });
    }
    match build_accepted(alloc, chains) {
        Ok(rules) => Ok(rules),
        Err(AllocError) => Err(NoChains::Memory),
    }
}

/// A growing layout: all rules are counted, and the chains are stored while the count is within the
/// limit.
#[derive(Drop)]
struct Layout {
    chains: Chains,
    count: u32,
}

fn layout_of(alloc: Global, policy: &FlowPolicy<'_>) -> Result<Layout, AllocError>
    ensures counted { IfOk result (λ made. AreCounted
        (layout policy.now) made.chains made.count) }
    ensures policy { OnOk result (IsFlowPolicy policy.now) }
{
    let mut made = entry_layout(alloc, policy.hosts())?;
    for host in 0..policy.count() {
        add_host_chain(alloc, &mut made, policy, host)?;
    }
    Ok(made)
}

/// Returns the built-in chains with their rules.
fn entry_layout(alloc: Global, hosts: &Hosts) -> Result<Layout, AllocError>
    ensures chains { IfOk result (λ made. made.chains ≡ entry_chains hosts.now) }
    ensures count { IfOk result (λ made. made.count ≡ length (forward_rules hosts.now)) }
    ensures hosts { IsHosts hosts.now }
{
    let _count = hosts.count();
    let rules = forward_rules(alloc, hosts)?;
    let mut chains = Chains::new(alloc)?;
    chains.set_policy(FORWARD, Policy::Drop);
    fill(&mut chains, FORWARD, &rules)?;
    Ok(Layout {
        chains,
        count: rules.len() as u32,
    })
}

fn add_host_chain(
    alloc: Global,
    made: &mut Layout,
    policy: &FlowPolicy<'_>,
    host: u16,
) -> Result<(), AllocError>
    requires there { host < length policy.now.site.hosts }
    requires site { IsSite policy.now.site }
    requires before { AreCounted (chains_up_to policy.now host) made.old.chains made.old.count }
    ensures { OnOk result (AreCounted (chains_up_to policy.now (host + 1)) made.new.chains made.new.count) }
{
    let rules = host_rules(alloc, policy, Direction::Outbound, host)?;
    made.count += rules.len() as u32;
    if made.count > RULE_LIMIT {
        return Ok(());
    }
    add_chain(alloc, &mut made.chains, host, &rules)?;
    Ok(())
}

/// Adds the chain of a host with its rules.
fn add_chain(
    alloc: Global,
    chains: &mut Chains,
    host: u16,
    rules: &[Rule],
) -> Result<(), AllocError>
    requires unused { IsNone (number_of chains.old (host_chain_name host)) }
    requires few_chains { length chains.old < 65536 }
    requires few_rules { rule_count chains.old + length rules.now < 2 ^ 32 }
    requires parts { IsTrue (list_all is_rule rules.now) }
    ensures { OnOk result (chains.new
        ≡ chains.old ++ record { name = host_chain_name host; policy = None; rules = rules.now } ∷ []) }
{
    let chain = chains.add(host_chain_name(alloc, host)?)?;
    fill(chains, chain, rules)?;
    Ok(())
}

fn host_chain_name(alloc: Global, host: u16) -> Result<ChainName, AllocError>
    ensures { IfOk result (λ name. name ≡ host_chain_name host) }
{
    let text = format!(in alloc; "H{host}")?;
    Ok(ChainName::new(text.as_bytes()).unwrap())
}
