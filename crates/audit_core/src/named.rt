//! The cuts of the ranges of addresses and ports, and the protocols, that a description and rules name.

ghost use Rattle.std.specs.Prelude.{◌≡◌, ◌<◌, ◌++◌, ◌∷◌, [], IfOk, OnOk, map, length};
ghost use Rattle.std.specs.List.{flat_map};
ghost use Rattle.host_net.specs.Hosts.{all_prefixes};
ghost use Rattle.host_net.specs.Services.{services_of};
ghost use Rattle.ipt_rules.specs.Rules.{all_rules};
ghost use Rattle.audit_core.specs.inner.Named.{AreMore, IsNamedBy};
ghost use Rattle.audit_core.specs.Parts.{Addresses, Protocol, Ports, address_parts, entry_parts, flow_services, number_parts, one_port_parts, port_parts, prefix_parts, protocol_parts, rule_parts, rules_parts, service_parts, site_parts};
ghost use Rattle.rules_space.specs.RulesView.{rules_of};

use crate::cuts::{push_addresses, push_ports};
use flow_set::FlowSet;
use host_net::{Hosts, Prefix, Service, Services};
use ipt_rules::{AddrMatch, PortMatch, ProtoMatch, Rule, Ruleset};
use ofp_rules::{Entry, Table};
use pkt_core::FlowPolicy;
use rules_space::RulesRef;
use std::alloc::{AllocError, Global};

/// The cuts of the ranges, the first cuts, and the protocols that a description and rules name, in no order.
#[derive(Drop)]
pub(crate) struct Found {
    pub(crate) addresses: Vec<u32>,
    pub(crate) protocols: Vec<u8>,
    pub(crate) ports: Vec<u16>,
}

/// Returns the cuts and protocols that a description and rules name.
pub(crate) fn named_between(
    alloc: Global,
    policy: &FlowPolicy<'_>,
    text: &RulesRef<'_>,
) -> Result<Found, AllocError>
    ensures { IfOk result (IsNamedBy (site_parts policy.now.site ++ rules_parts (rules_of text.now))) }
{
    let mut found = first_cuts(alloc)?;
    push_hosts(&mut found, policy.hosts())?;
    push_flows(alloc, &mut found, policy)?;
    push_text(&mut found, text)?;
    Ok(found)
}

/// Returns the cuts of no ranges.
fn first_cuts(alloc: Global) -> Result<Found, AllocError>
    ensures { IfOk result (IsNamedBy []) }
{
    let mut found = Found {
        addresses: Vec::new(alloc),
        protocols: Vec::new(alloc),
        ports: Vec::new(alloc),
    };
    found.addresses.push(0)?;
    found.ports.push(0)?;
    Ok(found)
}

fn push_hosts(found: &mut Found, hosts: &Hosts) -> Result<(), AllocError>
    ensures { OnOk result (AreMore (map Addresses (all_prefixes hosts.now)) found.old found.new) }
{
    for host in 0..hosts.count() {
        push_prefixes(found, hosts.prefixes(host))?;
    }
    Ok(())
}

fn push_prefixes(found: &mut Found, prefixes: &[Prefix]) -> Result<(), AllocError>
    ensures { OnOk result (AreMore (map Addresses prefixes.now) found.old found.new) }
{
    for prefix in prefixes {
        push_prefix(found, *prefix)?;
    }
    Ok(())
}

/// Appends the services of every flow between the hosts.
fn push_flows(alloc: Global, found: &mut Found, policy: &FlowPolicy<'_>) -> Result<(), AllocError>
    ensures { OnOk result (AreMore (flat_map service_parts (flow_services policy.now.site)) found.old found.new) }
{
    let flows = FlowSet::full(alloc, policy.count())?;
    push_services_of(found, &flows, policy.services())
}

fn push_services_of(
    found: &mut Found,
    flows: &FlowSet,
    services: &Services,
) -> Result<(), AllocError>
    ensures { OnOk result (AreMore (flat_map service_parts (flat_map (λ f. services_of services.now f.from f.to) flows.now.flows)) found.old found.new) }
{
    for flow in flows.iter() {
        push_services(found, services.of(flow.from, flow.to))?;
    }
    Ok(())
}

fn push_services(found: &mut Found, services: &[Service]) -> Result<(), AllocError>
    ensures { OnOk result (AreMore (flat_map service_parts services.now) found.old found.new) }
{
    for service in services {
        push_service(found, *service)?;
    }
    Ok(())
}

fn push_service(found: &mut Found, service: Service) -> Result<(), AllocError>
    ensures { OnOk result (AreMore (service_parts service) found.old found.new) }
{
    push_protocol(found, service.proto)?;
    push_range(found, service.low, service.high)?;
    Ok(())
}

fn push_text(found: &mut Found, text: &RulesRef<'_>) -> Result<(), AllocError>
    ensures { OnOk result (AreMore (rules_parts (rules_of text.now)) found.old found.new) }
{
    match text {
        RulesRef::Ipt(rules) => push_rules(found, rules),
        RulesRef::Ofp(table) => push_entries(found, table),
    }
}

fn push_rules(found: &mut Found, rules: &Ruleset) -> Result<(), AllocError>
    ensures { OnOk result (AreMore (flat_map rule_parts (all_rules rules.now)) found.old found.new) }
{
    for k in 0..rules.rules() {
        push_rule(found, rules.rule_at(k))?;
    }
    Ok(())
}

fn push_rule(found: &mut Found, rule: Rule) -> Result<(), AllocError>
    ensures { OnOk result (AreMore (rule_parts rule) found.old found.new) }
{
    push_address_part(found, rule.src)?;
    push_address_part(found, rule.dst)?;
    push_protocol_part(found, rule.proto)?;
    push_port_part(found, rule.sport)?;
    push_port_part(found, rule.dport)?;
    Ok(())
}

fn push_address_part(found: &mut Found, part: Option<AddrMatch>) -> Result<(), AllocError>
    ensures { OnOk result (AreMore (address_parts part) found.old found.new) }
{
    match part {
        None => Ok(()),
        Some(asked) => push_prefix(found, asked.prefix),
    }
}

fn push_protocol_part(found: &mut Found, part: Option<ProtoMatch>) -> Result<(), AllocError>
    ensures { OnOk result (AreMore (protocol_parts part) found.old found.new) }
{
    match part {
        None => Ok(()),
        Some(asked) => push_protocol(found, asked.proto),
    }
}

fn push_port_part(found: &mut Found, part: Option<PortMatch>) -> Result<(), AllocError>
    ensures { OnOk result (AreMore (port_parts part) found.old found.new) }
{
    match part {
        None => Ok(()),
        Some(asked) => push_range(found, asked.low, asked.high),
    }
}

fn push_entries(found: &mut Found, table: &Table) -> Result<(), AllocError>
    ensures { OnOk result (AreMore (flat_map entry_parts table.now) found.old found.new) }
{
    for k in 0..table.len() {
        push_entry(found, table.entry(k))?;
    }
    Ok(())
}

fn push_entry(found: &mut Found, entry: Entry) -> Result<(), AllocError>
    ensures { OnOk result (AreMore (entry_parts entry) found.old found.new) }
{
    push_some_prefix(found, entry.src)?;
    push_some_prefix(found, entry.dst)?;
    push_some_protocol(found, entry.proto)?;
    push_some_port(found, entry.tp_src)?;
    push_some_port(found, entry.tp_dst)?;
    Ok(())
}

fn push_some_prefix(found: &mut Found, part: Option<Prefix>) -> Result<(), AllocError>
    ensures { OnOk result (AreMore (prefix_parts part) found.old found.new) }
{
    match part {
        None => Ok(()),
        Some(prefix) => push_prefix(found, prefix),
    }
}

fn push_some_protocol(found: &mut Found, part: Option<u8>) -> Result<(), AllocError>
    ensures { OnOk result (AreMore (number_parts part) found.old found.new) }
{
    match part {
        None => Ok(()),
        Some(proto) => push_protocol(found, proto),
    }
}

fn push_some_port(found: &mut Found, part: Option<u16>) -> Result<(), AllocError>
    ensures { OnOk result (AreMore (one_port_parts part) found.old found.new) }
{
    match part {
        None => Ok(()),
        Some(port) => push_range(found, port, port),
    }
}

fn push_prefix(found: &mut Found, prefix: Prefix) -> Result<(), AllocError>
    ensures { OnOk result (AreMore (Addresses prefix ∷ []) found.old found.new) }
{
    push_addresses(&mut found.addresses, prefix.first(), prefix.last())
}

fn push_protocol(found: &mut Found, proto: u8) -> Result<(), AllocError>
    ensures { OnOk result (AreMore (Protocol proto ∷ []) found.old found.new) }
{
    found.protocols.push(proto)?;
    Ok(())
}

fn push_range(found: &mut Found, low: u16, high: u16) -> Result<(), AllocError>
    ensures { OnOk result (AreMore (Ports low high ∷ []) found.old found.new) }
{
    push_ports(&mut found.ports, low, high)
}
