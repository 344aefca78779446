//! The two chains of a direction: one for the packets that a machine sends or receives, and one for
//! those of them whose own address is a loopback address.

ghost use Rattle.std.specs.Prelude.{◌≡◌, ◌<◌, ◌≤◌, length, IfOk, OnOk};
ghost use Rattle.nft_local.specs.HostTable.{own_name};
ghost use Rattle.nft_local.specs.inner.Entries.{AddsChain, AddsSide, IsEntry, far_end, loopback_name, loopback_range, near_end};

use crate::own::own_rules;
use emit_core::Direction;
use header_space::AddressRange;
use host_net::Hosts;
use nft_rules::{Chain, Element, End, Rule, Verdict, VerdictMap};
use std::alloc::{AllocError, Global};

/// Adds the chains of a direction. They continue in the chain `flows` with the packets of the host.
pub(crate) fn push_side(
    alloc: Global,
    chains: &mut Vec<Chain>,
    hosts: &Hosts,
    host: u16,
    side: Direction,
    flows: u32,
) -> Result<(), AllocError>
    requires there { host < length hosts.now }
    requires room { length chains.old.items ≤ 99999 }
    ensures { OnOk result (AddsSide hosts.now host side flows chains.old.items chains.new.items) }
{
    let loopback = chains.len() as u32;
    let own = own_rules(alloc, hosts, host, near_end(side), flows)?;
    let rules = entry_rules(alloc, far_end(side), Verdict::Accept, own)?;
    push_loopback(alloc, chains, side, rules)?;
    let own = own_rules(alloc, hosts, host, near_end(side), flows)?;
    let rules = entry_rules(alloc, near_end(side), Verdict::Goto(loopback), own)?;
    push_own(alloc, chains, side, rules)
}

/// Returns these rules behind a map with a verdict on the packets that have a loopback address at
/// this end.
fn entry_rules(
    alloc: Global,
    end: End,
    verdict: Verdict,
    own: Vec<Rule>,
) -> Result<Vec<Rule>, AllocError>
    ensures { IfOk result (λ rules. IsEntry end verdict own.items rules.items) }
{
    let mut elements = Vec::new(alloc);
    elements.push(Element {
        range: loopback_range(),
        verdict,
    })?;
    let mut rules = Vec::new(alloc);
    rules.push(Rule::Map(VerdictMap { end, elements }))?;
    let mut behind = own;
    rules.append(&mut behind)?;
    Ok(rules)
}

/// Returns the addresses of 127.0.0.0/8.
fn loopback_range() -> AddressRange
    ensures { result ≡ loopback_range }
{
    AddressRange {
        first: 0x7f00_0000,
        last: 0x7fff_ffff,
    }
}

fn push_loopback(
    alloc: Global,
    chains: &mut Vec<Chain>,
    side: Direction,
    rules: Vec<Rule>,
) -> Result<(), AllocError>
    ensures { OnOk result (AddsChain (loopback_name side) rules.items chains.old.items chains.new.items) }
{
    match side {
        Direction::Outbound => push_chain(alloc, chains, b"output_loopback", rules),
        Direction::Inbound => push_chain(alloc, chains, b"input_loopback", rules),
    }
}

fn push_own(
    alloc: Global,
    chains: &mut Vec<Chain>,
    side: Direction,
    rules: Vec<Rule>,
) -> Result<(), AllocError>
    ensures { OnOk result (AddsChain (own_name side) rules.items chains.old.items chains.new.items) }
{
    match side {
        Direction::Outbound => push_chain(alloc, chains, b"output_own", rules),
        Direction::Inbound => push_chain(alloc, chains, b"input_own", rules),
    }
}

/// Adds a chain with this name and these rules.
pub(crate) fn push_chain(
    alloc: Global,
    chains: &mut Vec<Chain>,
    name: &[u8],
    rules: Vec<Rule>,
) -> Result<(), AllocError>
    ensures { OnOk result (AddsChain name.now rules.items chains.old.items chains.new.items) }
{
    let name = Vec::from_slice(alloc, name)?;
    chains.push(Chain { name, rules })?;
    Ok(())
}

/// Returns the end of a packet at which the host has its address.
fn near_end(side: Direction) -> End
    ensures { result ≡ near_end side }
{
    match side {
        Direction::Outbound => End::Source,
        Direction::Inbound => End::Destination,
    }
}

fn far_end(side: Direction) -> End
    ensures { result ≡ far_end side }
{
    match side {
        Direction::Outbound => End::Destination,
        Direction::Inbound => End::Source,
    }
}
