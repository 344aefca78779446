//! The rules of iptables for the rules of a table.

ghost use Rattle.std.specs.Prelude.{◌≡◌, ◌≤◌, ◌++◌, IfOk, IsTrue, OnOk, length, nat_le};
ghost use Rattle.std.specs.List.{flat_map, list_all};
ghost use Rattle.std.specs.Option.{ForSome};
ghost use Rattle.host_net.specs.Service.{max_port};
ghost use Rattle.ipt_rules.specs.ChainTable.{rule_limit};
ghost use Rattle.ipt_rules.specs.inner.RuleParts.{is_rule};
ghost use Rattle.nft_rules.specs.Loadable.{AreRules, IsRule, LeadBelow, LeadsBelow, is_service_match};
ghost use Rattle.nft_chains.specs.Translation.{destination_ports, element_rules, every_packet, match_rule, port_range, ports_in, prefix_rule, protocol_part, rules_of_rule, rules_of_rules, source_ports, state_part, target_of};
ghost use Rattle.nft_chains.specs.inner.Building.{Appends, table_limit};

use crate::prefixes::prefixes_of;
use host_net::Prefix;
use ipt_rules::{
    AddrMatch, PortMatch as PortRange, ProtoMatch, RULE_LIMIT, Rule as ChainRule, StateMatch,
    Target,
};
use nft_rules::{Element, End, MatchRule, PortMatch, Rule, ServiceMatch, Verdict, VerdictMap};
use std::alloc::{AllocError, Global};

/// Appends the rules for rules of a table. Returns `false` if there are too many.
pub(crate) fn push_rules(
    alloc: Global,
    rules: &mut Vec<ChainRule>,
    from: &[Rule],
) -> Result<bool, AllocError>
    requires from { AreRules table_limit from.now }
    requires valid { IsTrue (list_all is_rule rules.old.items) }
    ensures added { IfOk result (Appends rules.old.items (rules_of_rules from.now) rules.new.items) }
    ensures valid { OnOk result (IsTrue (list_all is_rule rules.new.items)) }
{
    for rule in from {
        if !push_rule(alloc, rules, rule)? {
            return Ok(false);
        }
    }
    Ok(true)
}

fn push_rule(alloc: Global, rules: &mut Vec<ChainRule>, rule: &Rule) -> Result<bool, AllocError>
    requires rule { IsRule table_limit rule.now }
    requires valid { IsTrue (list_all is_rule rules.old.items) }
    ensures added { IfOk result (Appends rules.old.items (rules_of_rule rule.now) rules.new.items) }
    ensures valid { OnOk result (IsTrue (list_all is_rule rules.new.items)) }
{
    match rule {
        Rule::Map(map) => push_map(alloc, rules, map),
        Rule::Match(rule) => {
            rules.push(match_rule(*rule))?;
            Ok(are_few(rules))
        }
    }
}

fn push_map(alloc: Global, rules: &mut Vec<ChainRule>, map: &VerdictMap) -> Result<bool, AllocError>
    requires targets { LeadBelow table_limit map.now.elements.items }
    requires valid { IsTrue (list_all is_rule rules.old.items) }
    ensures added { IfOk result (Appends rules.old.items (flat_map (element_rules map.now.end) map.now.elements.items) rules.new.items) }
    ensures valid { OnOk result (IsTrue (list_all is_rule rules.new.items)) }
{
    for element in &map.elements {
        push_element(alloc, rules, map.end, *element)?;
        if !are_few(rules) {
            return Ok(false);
        }
    }
    Ok(true)
}

fn are_few(rules: &Vec<ChainRule>) -> bool
    ensures { result ≡ nat_le (length rules.now.items) rule_limit }
{
    rules.len() <= RULE_LIMIT as usize
}

fn push_element(
    alloc: Global,
    rules: &mut Vec<ChainRule>,
    end: End,
    element: Element,
) -> Result<(), AllocError>
    requires target { LeadsBelow table_limit element.verdict }
    requires valid { IsTrue (list_all is_rule rules.old.items) }
    ensures added { OnOk result (rules.new.items ≡ rules.old.items ++ element_rules end element) }
    ensures valid { OnOk result (IsTrue (list_all is_rule rules.new.items)) }
{
    let target = target_of(element.verdict);
    for prefix in &prefixes_of(alloc, element.range)? {
        rules.push(prefix_rule(end, target, *prefix))?;
    }
    Ok(())
}

/// Returns the rule for the packets whose address at this end the prefix covers.
fn prefix_rule(end: End, target: Target, prefix: Prefix) -> ChainRule
    ensures { result ≡ prefix_rule end target prefix }
{
    let part = AddrMatch {
        prefix,
        negated: false,
    };
    let mut rule = every_packet(target);
    match end {
        End::Source => rule.src = Some(part),
        End::Destination => rule.dst = Some(part),
    }
    rule
}

/// Returns the rule for the packets that a rule with matches fits.
fn match_rule(from: MatchRule) -> ChainRule
    requires target { LeadsBelow table_limit from.verdict }
    requires service { IsTrue (is_service_match from.service) }
    ensures value { result ≡ match_rule from }
    ensures valid { IsTrue (is_rule result) }
{
    let (sport, dport) = port_parts(from.service);
    ChainRule {
        src: None,
        dst: None,
        proto: protocol_part(from.service),
        sport,
        dport,
        state: state_part(from.established),
        target: target_of(from.verdict),
    }
}

fn protocol_part(service: Option<ServiceMatch>) -> Option<ProtoMatch>
    ensures { result ≡ protocol_part service }
{
    match service {
        None => None,
        Some(service) => Some(ProtoMatch {
            proto: service.proto,
            negated: false,
        }),
    }
}

/// Returns the match on the source port and the match on the destination port.
fn port_parts(service: Option<ServiceMatch>) -> (Option<PortRange>, Option<PortRange>)
    ensures source { result.0 ≡ source_ports (ports_in service) }
    ensures destination { result.1 ≡ destination_ports (ports_in service) }
    ensures fit { ForSome (ports_in service) (λ m. m.high ≤ max_port) }
{
    match service {
        None => (None, None),
        Some(service) => ports_at_ends(service.ports),
    }
}

fn ports_at_ends(ports: Option<PortMatch>) -> (Option<PortRange>, Option<PortRange>)
    ensures source { result.0 ≡ source_ports ports }
    ensures destination { result.1 ≡ destination_ports ports }
    ensures fit { ForSome ports (λ m. m.high ≤ max_port) }
{
    match ports {
        None => (None, None),
        Some(ports) => match ports.end {
            End::Source => (Some(port_range(ports)), None),
            End::Destination => (None, Some(port_range(ports))),
        },
    }
}

fn port_range(ports: PortMatch) -> PortRange
    ensures value { result ≡ port_range ports }
    ensures fits { ports.high ≤ max_port }
{
    PortRange {
        low: ports.low,
        high: ports.high,
        negated: false,
    }
}

fn state_part(established: bool) -> Option<StateMatch>
    ensures { result ≡ state_part established }
{
    if established {
        Some(StateMatch {
            new: false,
            established: true,
            negated: false,
        })
    } else {
        None
    }
}

/// Returns what a rule with this verdict does. A chain of a table follows the three built-in chains.
fn target_of(verdict: Verdict) -> Target
    requires { LeadsBelow table_limit verdict }
    ensures { result ≡ target_of verdict }
{
    match verdict {
        Verdict::Accept => Target::Accept,
        Verdict::Drop => Target::Drop,
        Verdict::Goto(chain) => Target::Jump(chain as u16 + 3),
    }
}

/// Returns the rule for all packets.
pub(crate) fn every_packet(target: Target) -> ChainRule
    ensures { result ≡ every_packet target }
{
    ChainRule {
        src: None,
        dst: None,
        proto: None,
        sport: None,
        dport: None,
        state: None,
        target,
    }
}
