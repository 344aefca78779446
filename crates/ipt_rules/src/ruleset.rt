//! A rule set: chains whose jumps all go to user chains and form no cycle. Each packet has a verdict.

ghost use Rattle.std.specs.Prelude.{◌≡◌, ◌<◌, ◌≤◌, ◌⊎◌, length, IfOk, IfErr, OnOk, IsNone, IfSome, Some, None};
ghost use Rattle.ipt_rules.specs.Chain.{Chain};
ghost use Rattle.ipt_rules.specs.ChainTable.{rule_count};
ghost use Rattle.ipt_rules.specs.inner.ChainTable.{IsTable};
ghost use Rattle.ipt_rules.specs.inner.Build.{refusal_of, RefusedFor, first_unknown, has_unknown_target, place_of_unknown};
ghost use Rattle.ipt_rules.specs.inner.Ranked.{IsRanked};
ghost use Rattle.ipt_rules.specs.Loops.{IsAcyclic};
ghost use Rattle.ipt_rules.specs.inner.OneOutcome.{AreDeterministic};

use crate::chain::Chain;
use crate::chains::Chains;
use crate::loops::find_cycle;
use crate::rule::{Rule, Target};
use crate::starts::starts_of;
use std::alloc::{AllocError, Global};
use std::cell::Cell;
use std::marker::Model;

/// The maximum number of chains of a rule set.
pub const CHAIN_LIMIT: usize = 4096;
/// The maximum number of rules of a rule set, over all its chains.
pub const RULE_LIMIT: u32 = 1_000_000;

/// The built-in chain of packets to the machine itself.
pub const INPUT: u16 = 0;
/// The built-in chain of packets that are routed through the machine.
pub const FORWARD: u16 = 1;
/// The built-in chain of packets from the machine itself.
pub const OUTPUT: u16 = 2;

/// Why chains are refused as a rule set.
#[derive(Clone, Copy, Debug, PartialEq, Eq)]
pub enum BuildRefusal {
    /// There are more than 4,096 chains or, otherwise, more than 1,000,000 rules.
    TooMany { count: u32 },
    /// The rule with this number, from 0, jumps to a built-in chain or to a chain that does not exist.
    UnknownChain { chain: u16, rule: u32 },
    /// This chain is on a cycle of jumps.
    Loop { chain: u16 },
    /// Out of memory.
    Memory,
}

/// Chains of which each has exactly one outcome for every packet.
#[derive(Drop)]
pub struct Ruleset {
    pub(crate) chains: Vec<Chain>,
    pub(crate) rules: u32,
    /// The number of the first rule of each chain among the rules of all chains.
    pub(crate) starts: Vec<u32>,
    /// The chain in which a rule was found last.
    pub(crate) found_last: Cell<usize>,
}

impl Model for Ruleset {
    ghost use Rattle.std.specs.Prelude.{List};
    ghost use Rattle.ipt_rules.specs.Chain.{Chain};

    ghost Value = { List Chain };

    ghost use Rattle.ipt_rules.specs.inner.Jumps.{IsRuleset};

    ghost view = { λ r. r.chains.items };

    ghost invariant = { λ r. IsRuleset r.chains.items r.rules r.starts.items };
}

impl Ruleset {
    /// Builds a rule set from the chains. Consumes the chains in every case.
    pub fn build(alloc: Global, chains: Chains) -> Result<Ruleset, BuildRefusal>
        ensures ok { IfOk result (λ rules. rules ≡ chains) }
        // The names of chains are distinct, and the names of user chains are legal.
        ensures table { IfOk result IsTable }
        // Each chain has exactly one outcome for every packet, hence the traversal by a packet ends.
        ensures deterministic { IfOk result AreDeterministic }
        ensures accepted { OnOk result (IsNone (refusal_of chains)) }
        ensures acyclic { IfOk result IsAcyclic }
        ensures refused { IfErr result (RefusedFor chains) }
    {
        if let Some(why) = refusal(&chains.chains, chains.rules) {
            return Err(why);
        }
        let Ok(found) = chains.first_loop(alloc) else {
            return Err(BuildRefusal::Memory);
        };
        if let Some(chain) = found {
            return Err(BuildRefusal::Loop { chain });
        }
        match Ruleset::new(alloc, chains) {
            Ok(rules) => Ok(rules),
            Err(_) => Err(BuildRefusal::Memory),
        }
    }

    /// Builds a rule set from chains that are not refused and form no cycle.
    pub fn new(alloc: Global, chains: Chains) -> Result<Ruleset, AllocError>
        requires accepted { refusal_of chains ≡ None }
        requires ranked { IsRanked chains None }
        ensures ok { IfOk result (λ rules. rules ≡ chains) }
        ensures table { IfOk result IsTable }
        ensures deterministic { IfOk result AreDeterministic }
        ensures acyclic { IfOk result IsAcyclic }
    {
        let starts = starts_of(alloc, &chains.chains)?;
        Ok(Ruleset {
            chains: chains.chains,
            rules: chains.rules,
            starts,
            found_last: Cell::new(0),
        })
    }
}

impl Chains {
    /// Returns the first chain that is on a cycle, of chains that are not refused for another reason.
    pub fn first_loop(&self, alloc: Global) -> Result<Option<u16>, AllocError>
        requires { refusal_of self.now ≡ None }
        ensures { IfOk result (IsRanked self.now) }
    {
        find_cycle(alloc, &self.chains)
    }
}

#[tactic(auto, unfolding(crate::specs::inner::Build::refusal_of))]
fn refusal(chains: &[Chain], rules: u32) -> Option<BuildRefusal>
    requires counted { rules ≡ rule_count chains.now }
    requires numbered { length chains.now ≤ 65536 }
    ensures { result ≡ refusal_of chains.now }
{
    let count = chains.len();
    if count > CHAIN_LIMIT {
        return Some(BuildRefusal::TooMany {
            count: count as u32,
        });
    }
    if rules > RULE_LIMIT {
        return Some(BuildRefusal::TooMany { count: rules });
    }
    first_unknown(chains)
}

fn first_unknown(chains: &[Chain]) -> Option<BuildRefusal>
    requires few_chains { length chains.now ≤ 4096 }
    requires few_rules { rule_count chains.now ≤ 1000000 }
    ensures { result ≡ first_unknown (length chains.now) 0 chains.now }
{
    for (number, chain) in chains.iter().enumerate() {
        if let Some(place) = place_of_unknown(chains.len(), chain.rules()) {
            return Some(BuildRefusal::UnknownChain {
                chain: number as u16,
                rule: place as u32,
            });
        }
    }
    None
}

fn place_of_unknown(count: usize, rules: &[Rule]) -> Option<usize>
    ensures first { result ≡ place_of_unknown count rules.now }
    ensures within { IfSome result (λ place. place < length rules.now) }
{
    rules
        .iter()
        .position(|rule| has_unknown_target(count, rule.target))
}

fn has_unknown_target(count: usize, target: Target) -> bool
    ensures { result ≡ has_unknown_target count target }
{
    match target {
        Target::Jump(chain) => chain < 3 || chain as usize >= count,
        _ => false,
    }
}
