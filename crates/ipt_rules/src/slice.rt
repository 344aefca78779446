//! Slices: the part of a rule set that can decide packets of a box. In a slice a chain that no such packet
//! reaches has no rules. The other chains have the rules that may match a packet of the box.

ghost use Rattle.std.specs.Prelude.{◌≡◌, ◌⊎◌, ◌<◌, ◌≤◌, ◌++◌, ◌∷◌, [], length, IfOk, IfSome, OnOk, IsTrue};
ghost use Rattle.std.specs.List.{list_all};
ghost use Rattle.host_net.specs.declared.packet.Packet.{Packet};
ghost use Rattle.header_space.specs.Boxes.{IsBox, IsIn, Narrows};
ghost use Rattle.ipt_rules.specs.ChainTable.{rule_count};
ghost use Rattle.ipt_rules.specs.Slices.{HaveSameChainVerdicts};
ghost use Rattle.ipt_rules.specs.inner.OneOutcome.{AreDeterministic, HasVerdict};
ghost use Rattle.ipt_rules.specs.inner.Ranks.{HasTopologicalOrder};
ghost use Rattle.ipt_rules.specs.inner.Slicing.{AreSlices, FitsNone, Thins, all_stay, chains_stay, stays};

use crate::chain::Chain;
use crate::reached::{Reached, reached_by};
use crate::rule::{Rule, Target};
use crate::ruleset::{FORWARD, Ruleset};
use crate::walk::{is_known_to_return, verdict_in};
use header_space::PacketBox;
use host_net::{CtState, Verdict};
use std::alloc::{AllocError, Global};
use std::marker::Model;

/// The number of rules, plus a few for each chain, up to which no slice is made: testing all rules is as
/// fast.
const FEW_RULES: u32 = 32;

/// The number of rules above which no slice is made, since slices take as much memory as the rules.
const MANY_RULES: u32 = 400_000;

/// The part of a rule set that can decide packets of a box.
#[derive(Drop)]
pub struct Slice {
    pub(crate) chains: Vec<Chain>,
    rules: u32,
}

impl Model for Slice {
    ghost use Rattle.std.specs.Prelude.{List};
    ghost use Rattle.ipt_rules.specs.Chain.{Chain};
    ghost use Rattle.ipt_rules.specs.inner.Slicing.{IsSlice};

    ghost Value = { List Chain };

    ghost view = { λ s. s.chains.items };

    ghost invariant = { λ s. IsSlice s.chains.items };
}

impl Slice {
    /// Returns the approximate number of its rules.
    pub fn rules(&self) -> u32
        // Each chain has exactly one outcome for every packet.
        ensures deterministic { AreDeterministic self.now }
    {
        self.rules
    }

    /// Returns the verdict on the least packet of a box that traverses `FORWARD` in this state. Narrows the
    /// box until all of its packets have this verdict.
    pub fn verdict_within(&self, within: &mut PacketBox, state: CtState) -> Verdict
        requires { IsBox within.old }
        ensures part { Narrows within.old within.new }
        ensures verdict { (p : Packet) → IsIn within.new p → HasVerdict self.now p state result }
    {
        let chains = self.chains.as_slice();
        verdict_in(chains, FORWARD, within, state)
    }

    /// Returns the slice for the packets of a box, or None if it has more than five eighths of the rules.
    pub fn slice(&self, alloc: Global, within: &PacketBox) -> Result<Option<Slice>, AllocError>
        ensures { IfOk result (λ slice. IfSome slice (HaveSameChainVerdicts within.now self.now)) }
    {
        slice_of(alloc, &self.chains, self.rules, within)
    }
}

impl Ruleset {
    /// Returns the slice for the packets of a box, or None if it has more than five eighths of the rules.
    pub fn slice(&self, alloc: Global, within: &PacketBox) -> Result<Option<Slice>, AllocError>
        ensures { IfOk result (λ slice. IfSome slice (HaveSameChainVerdicts within.now self.now)) }
    {
        slice_of(alloc, &self.chains, self.rules, within)
    }
}

/// Returns the slice of these chains, if it is worth its cost.
fn slice_of(
    alloc: Global,
    chains: &[Chain],
    rules: u32,
    within: &PacketBox,
) -> Result<Option<Slice>, AllocError>
    requires few_chains { length chains.now ≤ 4096 }
    requires forward { 1 < length chains.now }
    requires few_rules { rule_count chains.now ≤ 1000000 }
    requires topological_order { HasTopologicalOrder chains.now }
    ensures { IfOk result (λ slice. IfSome slice (HaveSameChainVerdicts within.now chains.now)) }
{
    if rules <= FEW_RULES + chains.len() as u32 / 4 {
        return Ok(None);
    }
    if rules > MANY_RULES {
        return Ok(None);
    }
    let reached = reached_by(alloc, chains, within)?;
    if reached.rules > rules / 8 * 5 {
        return Ok(None);
    }
    closed_slice(alloc, chains, reached, within)
}

/// Returns the slice with the chains that are reached, if no jump leads out of them.
fn closed_slice(
    alloc: Global,
    chains: &[Chain],
    reached: Reached,
    within: &PacketBox,
) -> Result<Option<Slice>, AllocError>
    requires few_chains { length chains.now ≤ 4096 }
    requires forward { 1 < length chains.now }
    requires few_rules { rule_count chains.now ≤ 1000000 }
    requires topological_order { HasTopologicalOrder chains.now }
    ensures { IfOk result (λ slice. IfSome slice (HaveSameChainVerdicts within.now chains.now)) }
{
    let marks = reached.chains.as_slice();
    let kept = sliced(alloc, chains, marks, within)?;
    let own = kept.as_slice();
    if !is_known_to_return(marks, FORWARD) {
        return Ok(None);
    }
    if !chains_stay(marks, own) {
        return Ok(None);
    }
    Ok(Some(Slice {
        chains: kept,
        rules: reached.rules,
    }))
}

/// Returns the slices of all chains. A chain that is not marked has no rules.
fn sliced(
    alloc: Global,
    chains: &[Chain],
    marks: &[bool],
    within: &PacketBox,
) -> Result<Vec<Chain>, AllocError>
    requires { length chains.now ≤ 4096 }
    ensures { IfOk result (λ sliced. AreSlices within.now marks.now 0 chains.now sliced.items) }
{
    let mut sliced = Vec::with_capacity(alloc, chains.len())?;
    for at in 0..chains.len() {
        let chain = if is_known_to_return(marks, at as u16) {
            thinned(alloc, &chains[at], within)?
        } else {
            chains[at].emptied(alloc)
        };
        sliced.push(chain)?;
    }
    Ok(sliced)
}

/// Returns a chain with the rules that may match a packet of the box.
fn thinned(alloc: Global, chain: &Chain, within: &PacketBox) -> Result<Chain, AllocError>
    ensures policy { IfOk result (λ thinned. thinned.policy ≡ chain.now.policy) }
    ensures rules { IfOk result (λ thinned. Thins within.now chain.now.rules thinned.rules) }
{
    let mut thinned = chain.emptied(alloc);
    let rules = chain.rules();
    for rule in rules {
        push_if_fits(&mut thinned, rule, within)?;
    }
    Ok(thinned)
}

/// Appends a rule to a chain if it may match a packet of the box.
fn push_if_fits(chain: &mut Chain, rule: &Rule, within: &PacketBox) -> Result<(), AllocError>
    ensures { OnOk result ((chain.new ≡ record chain.old { rules = chain.old.rules ++ rule.now ∷ [] })
        ⊎ ((chain.new ≡ chain.old) × FitsNone within.now rule.now)) }
{
    if rule.may_match(within) {
        chain.push(*rule)?;
    }
    Ok(())
}

/// Whether all jumps go to marked chains.
fn chains_stay(marks: &[bool], chains: &[Chain]) -> bool
    ensures { result ≡ chains_stay marks.now chains.now }
{
    chains.iter().all(|chain| all_stay(marks, chain.rules()))
}

fn all_stay(marks: &[bool], rules: &[Rule]) -> bool
    ensures { result ≡ all_stay marks.now rules.now }
{
    rules.iter().all(|rule| stays(marks, rule.target))
}

fn stays(marks: &[bool], target: Target) -> bool
    ensures { result ≡ stays marks.now target }
{
    match target {
        Target::Jump(chain) => is_known_to_return(marks, chain),
        _ => true,
    }
}
