//! The chains for the machines of one host, assembled.

ghost use Rattle.std.specs.Prelude.{◌≡◌, ◌<◌, ◌++◌, [], length, IfOk, OnOk, IsTrue};
ghost use Rattle.std.specs.List.{flat_map};
ghost use Rattle.pkt_core.specs.inner.FlowPolicy.{IsFlowPolicy};
ghost use Rattle.host_emit.specs.HostEnforcement.{EnforcesAtHost, PassesOn};
ghost use Rattle.host_emit.specs.LocalEvents.{DeliversAsExpected};
ghost use Rattle.host_emit.specs.inner.LocalFilling.{AreChainRules, dropping_chains};
ghost use Rattle.host_emit.specs.LocalLayout.{chain_for, entry_rules, is_specific, local_layout, loopback, loopback_rule, machine_chains, own_jump};

use emit_core::{Direction, build_accepted, fill, host_rules, match_peer, match_prefix};
use host_net::{Hosts, Prefix};
use ipt_rules::{ChainName, Chains, FORWARD, INPUT, OUTPUT, Policy, Rule, Ruleset, Target};
use pkt_core::FlowPolicy;
use std::alloc::{AllocError, Global};

/// 127.0.0.0.
const LOOPBACK: u32 = 0x7f000000;

/// Returns the rules for the machines of one specific host, for a policy: permitted flows pass, and
/// the answers of stateful flows pass on established connections.
pub fn local_rules(alloc: Global, policy: &FlowPolicy<'_>, host: u16) -> Result<Ruleset, AllocError>
    requires there { host < length policy.now.site.hosts }
    requires specific { IsTrue (is_specific policy.now.site.hosts host) }
    ensures layout { IfOk result (λ rules. rules ≡ local_layout policy.now host) }

    // In each direction a packet of the host passes if and only if the policy allows it. No other
    // packet passes, except loopback packets.
    ensures enforces_at_host { IfOk result (λ rules. EnforcesAtHost (PassesOn rules) policy.now host) }

    // If the machines of every specific host have its rules, a packet passes if and only if the
    // policy and its answers expect it, for every list of events with external packets.
    ensures passes { OnOk result (DeliversAsExpected (λ h. PassesOn (local_layout policy.now h)) policy.now) }
{
    let chains = local_chains(alloc, policy, host)?;
    build_accepted(alloc, chains)
}

/// Whether a host is specific: every host except the rest host.
pub fn is_specific(hosts: &Hosts, host: u16) -> bool
    ensures { result ≡ is_specific hosts.now host }
{
    match hosts.rest() {
        None => true,
        Some(rest) => rest != host,
    }
}

fn local_chains(alloc: Global, policy: &FlowPolicy<'_>, host: u16) -> Result<Chains, AllocError>
    requires { host < length policy.now.site.hosts }
    ensures layout { IfOk result (λ chains. chains ≡ local_layout policy.now host) }
    ensures policy { IsFlowPolicy policy.now }
{
    // The call establishes the invariants of policies.
    let _count = policy.count();
    let input = entry_rules(alloc, Direction::Inbound, policy.prefixes(host))?;
    let output = entry_rules(alloc, Direction::Outbound, policy.prefixes(host))?;
    let incoming = host_rules(alloc, policy, Direction::Inbound, host)?;
    let outgoing = host_rules(alloc, policy, Direction::Outbound, host)?;
    filled(alloc, &input, &output, &incoming, &outgoing)
}

/// Returns the chains of a machine, given their rules.
fn filled(
    alloc: Global,
    input: &[Rule],
    output: &[Rule],
    incoming: &[Rule],
    outgoing: &[Rule],
) -> Result<Chains, AllocError>
    requires input { AreChainRules input.now }
    requires output { AreChainRules output.now }
    requires incoming { AreChainRules incoming.now }
    requires outgoing { AreChainRules outgoing.now }
    ensures { IfOk result (λ chains. chains ≡ machine_chains input.now output.now incoming.now outgoing.now) }
{
    let mut chains = entered(alloc, input, output)?;
    fill(&mut chains, chain_for(Direction::Inbound), incoming)?;
    fill(&mut chains, chain_for(Direction::Outbound), outgoing)?;
    Ok(chains)
}

/// Returns the chains of a machine with only the rules of INPUT and OUTPUT.
fn entered(alloc: Global, input: &[Rule], output: &[Rule]) -> Result<Chains, AllocError>
    requires input { AreChainRules input.now }
    requires output { AreChainRules output.now }
    ensures { IfOk result (λ chains. chains ≡ machine_chains input.now output.now [] []) }
{
    let mut chains = empty_chains(alloc)?;
    fill(&mut chains, INPUT, input)?;
    fill(&mut chains, OUTPUT, output)?;
    Ok(chains)
}

fn empty_chains(alloc: Global) -> Result<Chains, AllocError>
    ensures { IfOk result (λ chains. chains ≡ machine_chains [] [] [] []) }
{
    let mut chains = dropping_chains(alloc)?;
    chains.add(ChainName::new(b"IN").unwrap())?;
    chains.add(ChainName::new(b"OUT").unwrap())?;
    Ok(chains)
}

/// Returns the built-in chains with policy DROP.
fn dropping_chains(alloc: Global) -> Result<Chains, AllocError>
    ensures { IfOk result (λ chains. chains ≡ dropping_chains) }
{
    let mut chains = Chains::new(alloc)?;
    chains.set_policy(INPUT, Policy::Drop);
    chains.set_policy(FORWARD, Policy::Drop);
    chains.set_policy(OUTPUT, Policy::Drop);
    Ok(chains)
}

/// Returns the number of the user chain for outbound or inbound packets.
fn chain_for(side: Direction) -> u16
    ensures { result ≡ chain_for side }
{
    match side {
        Direction::Outbound => 4,
        Direction::Inbound => 3,
    }
}

/// Returns the rules of INPUT or OUTPUT for a host with these prefixes.
fn entry_rules(alloc: Global, side: Direction, prefixes: &[Prefix]) -> Result<Vec<Rule>, AllocError>
    ensures { IfOk result (λ rules. rules.items ≡ entry_rules side prefixes.now) }
{
    let mut rules = Vec::new(alloc);
    rules.push(loopback_rule())?;
    push_jumps(&mut rules, side, prefixes)?;
    Ok(rules)
}

fn push_jumps(rules: &mut Vec<Rule>, side: Direction, prefixes: &[Prefix]) -> Result<(), AllocError>
    ensures { OnOk result (rules.new.items ≡ rules.old.items ++ flat_map (own_jump side) prefixes.now) }
{
    for prefix in prefixes {
        let target = Target::Jump(chain_for(side));
        rules.push(match_peer(side.other(), Some(*prefix), target))?;
    }
    Ok(())
}

/// Returns the rule that accepts loopback packets.
fn loopback_rule() -> Rule
    ensures { result ≡ loopback_rule }
{
    let part = match_prefix(Some(loopback()));
    Rule {
        src: part,
        dst: part,
        proto: None,
        sport: None,
        dport: None,
        state: None,
        target: Target::Accept,
    }
}

fn loopback() -> Prefix
    ensures { result ≡ loopback }
{
    Prefix::new(LOOPBACK, 8).unwrap()
}
