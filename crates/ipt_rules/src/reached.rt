//! The chains that packets of a box may reach from FORWARD. A slice does not rely on this result: it checks
//! jumps to unmarked chains again.

use crate::chain::Chain;
use crate::rule::{Rule, Target};
use crate::ruleset::FORWARD;
use header_space::PacketBox;
use std::alloc::{AllocError, Global};

/// The chains that packets of a box may reach, and how many of their rules may match such a packet.
#[derive(Drop)]
pub(crate) struct Reached {
    pub(crate) chains: Vec<bool>,
    pub(crate) rules: u32,
}

/// Marks the chains that packets of a box may reach from FORWARD.
pub(crate) fn reached_by(
    alloc: Global,
    chains: &[Chain],
    within: &PacketBox,
) -> Result<Reached, AllocError> {
    let mut reached = Reached {
        chains: vec![in alloc; false; chains.len()]?,
        rules: 0,
    };
    let mut waiting = Vec::new(alloc);
    mark(&mut reached, &mut waiting, Target::Jump(FORWARD))?;
    for _ in 0..chains.len() {
        if let Some(chain) = waiting.pop() {
            visit(chains, chain, within, &mut reached, &mut waiting)?;
        }
    }
    Ok(reached)
}

/// Marks the chains that rules of a chain jump to, for the rules that may match a packet of the box.
fn visit(
    chains: &[Chain],
    chain: u16,
    within: &PacketBox,
    reached: &mut Reached,
    waiting: &mut Vec<u16>,
) -> Result<(), AllocError> {
    let Some(chain) = chains.get(chain as usize) else {
        return Ok(());
    };
    for rule in chain.rules() {
        take(rule, within, reached, waiting)?;
    }
    Ok(())
}

/// Counts a rule and marks the chain that it jumps to, if it may match a packet of the box.
fn take(
    rule: &Rule,
    within: &PacketBox,
    reached: &mut Reached,
    waiting: &mut Vec<u16>,
) -> Result<(), AllocError> {
    if !rule.may_match(within) {
        return Ok(());
    }
    reached.rules = reached.rules.saturating_add(1);
    mark(reached, waiting, rule.target)
}

/// Marks the chain that a target jumps to, and adds it to the work list if it was not marked.
fn mark(reached: &mut Reached, waiting: &mut Vec<u16>, target: Target) -> Result<(), AllocError> {
    let Target::Jump(chain) = target else {
        return Ok(());
    };
    if let Some(false) = reached.chains.get(chain as usize).copied() {
        reached.chains[chain as usize] = true;
        waiting.push(chain)?;
    }
    Ok(())
}
