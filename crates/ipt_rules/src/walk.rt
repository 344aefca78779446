//! The traversal of a chain, by a packet or by the packets of a box. The traversal follows the rules of a
//! chain, and at a jump to a chain that is not known to return, traverses that chain first. A verdict of a
//! chain is the verdict of all chains that lead to it. The traversal records that a chain returned. Hence no
//! chain is traversed twice, however the jumps are nested, and no memory is allocated. Jumps are nested at
//! most as deep as there are chains, since no chain is on a cycle.

ghost use Rattle.std.specs.Prelude.{◌≡◌, ◌<◌, ◌≤◌, List, length};
ghost use Rattle.std.specs.Option.{option_and_then};
ghost use Rattle.host_net.specs.declared.packet.Packet.{Packet};
ghost use Rattle.ipt_rules.specs.Chain.{Chain, rules_of, policy_of};
ghost use Rattle.ipt_rules.specs.ChainTable.{rule_count};
ghost use Rattle.ipt_rules.specs.Meets.{verdict_at};
ghost use Rattle.ipt_rules.specs.Semantics.{HasVerdictIn, policy_verdict, step_of};
ghost use Rattle.ipt_rules.specs.inner.OneOutcome.{AreDeterministic};
ghost use Rattle.ipt_rules.specs.inner.Ranks.{HasTopologicalOrder};
ghost use Rattle.ipt_rules.specs.inner.Walking.{AreTraversed, ForAll, HasMetOnly, IsShallow, IsStep, IsTraversed, Steps, Traverses, is_known_to_return};

use crate::chain::Chain;
use crate::marks::Place;
use crate::packets::Packets;
use crate::record::{NoRecord, Record};
use crate::rule::{Policy, Rule, Target};
use crate::ruleset::CHAIN_LIMIT;
use host_net::{CtState, Verdict};

/// The built-in chains and one for each of 256 hosts. Up to this number of chains a traversal needs less
/// space, and less time to clear it.
const SMALL_CHAIN_COUNT: usize = 259;

/// The step of one rule: the traversal continues with the next rule, the rule decides, its chain returns, or
/// another chain is traversed.
#[derive(Drop)]
enum Step {
    Continues,
    Decides,
    Returns,
    JumpsTo(u16),
}

/// Returns the step of a rule, by whether the rule matches.
fn step_by(fits: bool, target: Target) -> Step
    ensures { IsStep result (step_of fits target) }
{
    if !fits {
        return Step::Continues;
    }
    match target {
        Target::Accept | Target::Drop | Target::Reject => Step::Decides,
        Target::Return => Step::Returns,
        Target::Count => Step::Continues,
        Target::Jump(chain) => Step::JumpsTo(chain),
    }
}

/// Returns the step of a rule, and records the rule if it matches.
fn step_at<P: Packets, R: Record>(
    rule: &Rule,
    place: Place,
    packets: &mut P,
    state: CtState,
    met: &mut R,
) -> Step
    requires { (chains : List Chain) × P.can_traverse packets.old chains × R.is_for met.old chains × (place.rule < length (rules_of chains place.chain)) }
    ensures part { P.narrows packets.old packets.new }
    ensures same { (chains : List Chain) → R.is_for met.old chains → R.is_for met.new chains }
    ensures steps { Steps (P.contains packets.new) state rule.now place (R.has met.old) (R.has met.new) result }
{
    let fits = packets.match_rule(rule, state);
    met.record_if(fits, place);
    step_by(fits, rule.target)
}

#[tactic(auto, using(crate::proofs::ChainLemmas::rules_of_read))]
pub(crate) fn rules_of(chains: &[Chain], number: u16) -> &[Rule]
    requires { number < length chains.now }
    ensures { result.now ≡ rules_of chains.now number }
{
    chains[number as usize].rules()
}

/// Whether a chain is known to return.
pub(crate) fn is_known_to_return(known_to_return: &[bool], chain: u16) -> bool
    ensures { result ≡ is_known_to_return known_to_return.now chain }
{
    known_to_return
        .get(chain as usize)
        .copied()
        .unwrap_or(false)
}

/// Traverses a chain from its first rule, unless it is known to return. Returns the place of the rule that
/// decides, or `None` if the chain returns. Jumps are nested less than `depth` deep.
fn traverse<P: Packets, R: Record>(
    chains: &[Chain],
    number: u16,
    depth: usize,
    known_to_return: &mut [bool],
    packets: &mut P,
    state: CtState,
    met: &mut R,
) -> Option<Place>
    requires few { rule_count chains.now ≤ 1000000 }
    requires deterministic { AreDeterministic chains.now }
    requires shallow { IsShallow chains.now depth number }
    requires room { length chains.now ≤ length known_to_return.old }
    requires packets { P.can_traverse packets.old chains.now }
    requires met { R.is_for met.old chains.now }
    requires known { ForAll (P.contains packets.old) state (λ fits. AreTraversed fits chains.now (R.has met.old) known_to_return.old) }
    ensures part { P.narrows packets.old packets.new }
    ensures met { R.is_for met.new chains.now }
    ensures traverses { ForAll (P.contains packets.new) state (λ fits. Traverses fits chains.now (R.has met.old) (R.has met.new) known_to_return.new number result) }
{
    if is_known_to_return(known_to_return, number) {
        return None;
    }
    let rules = rules_of(chains, number);
    let mut from = 0;
    while let Some(at) = packets.next_rule(rules, number, from) {
        let place = Place {
            chain: number,
            rule: at as u32,
        };
        from = at + 1;
        match step_at(&rules[at], place, packets, state, met) {
            Step::Continues => {}
            Step::Decides => return Some(place),
            Step::Returns => {
                known_to_return[number as usize] = true;
                return None;
            }
            Step::JumpsTo(chain) => {
                let decider = traverse(
                    chains,
                    chain,
                    depth - 1,
                    known_to_return,
                    packets,
                    state,
                    met,
                );
                if decider.is_some() {
                    return decider;
                }
            }
        }
    }
    // The end of a chain returns.
    known_to_return[number as usize] = true;
    None
}

/// Returns the place of the rule that decides packets which traverse a chain, or `None` if the chain returns.
/// Records the rules that they meet.
pub(crate) fn decider<P: Packets, R: Record>(
    chains: &[Chain],
    number: u16,
    packets: &mut P,
    state: CtState,
    met: &mut R,
) -> Option<Place>
    requires there { number < length chains.now }
    requires few_chains { length chains.now ≤ 4096 }
    requires few_rules { rule_count chains.now ≤ 1000000 }
    requires topological_order { HasTopologicalOrder chains.now }
    requires packets { P.can_traverse packets.old chains.now }
    requires met { R.is_for met.old chains.now }
    ensures part { P.narrows packets.old packets.new }
    ensures met { R.is_for met.new chains.now }
    ensures only { ForAll (P.contains packets.new) state (λ fits. HasMetOnly fits chains.now number (R.has met.old) (R.has met.new)) }
    ensures all { ForAll (P.contains packets.new) state (λ fits. IsTraversed fits chains.now (R.has met.new) number result) }
{
    let depth = chains.len();
    if depth <= SMALL_CHAIN_COUNT {
        let mut known_to_return = [false; SMALL_CHAIN_COUNT];
        traverse(
            chains,
            number,
            depth,
            &mut known_to_return,
            packets,
            state,
            met,
        )
    } else {
        let mut known_to_return = [false; CHAIN_LIMIT];
        traverse(
            chains,
            number,
            depth,
            &mut known_to_return,
            packets,
            state,
            met,
        )
    }
}

/// Returns the verdict on packets that traverse a built-in chain.
pub(crate) fn verdict_in<P: Packets>(
    chains: &[Chain],
    number: u16,
    packets: &mut P,
    state: CtState,
) -> Verdict
    requires there { number < length chains.now }
    requires few_chains { length chains.now ≤ 4096 }
    requires few_rules { rule_count chains.now ≤ 1000000 }
    requires topological_order { HasTopologicalOrder chains.now }
    requires packets { P.can_traverse packets.old chains.now }
    ensures part { P.narrows packets.old packets.new }
    ensures verdict { (p : Packet) → P.contains packets.new p → HasVerdictIn chains.now number p state result }
{
    let place = decider(chains, number, packets, state, &mut NoRecord);
    match decided_verdict(chains, place) {
        Some(verdict) => verdict,
        None => policy_verdict(policy_of(chains, number)),
    }
}

/// Returns the verdict of the rule that decides, if there is one.
fn decided_verdict(chains: &[Chain], decider: Option<Place>) -> Option<Verdict>
    ensures { result ≡ option_and_then (verdict_at chains.now) decider }
{
    let place = decider?;
    let rule = chains
        .get(place.chain as usize)?
        .rules()
        .get(place.rule as usize)?;
    match rule.target {
        Target::Accept => Some(Verdict::Forward),
        Target::Drop | Target::Reject => Some(Verdict::Drop),
        Target::Return | Target::Count | Target::Jump(_) => None,
    }
}

/// Returns the policy of a chain. A user chain has none.
#[tactic(auto, using(crate::proofs::ChainLemmas::policy_of_read))]
pub(crate) fn policy_of(chains: &[Chain], number: u16) -> Option<Policy>
    requires { number < length chains.now }
    ensures { result ≡ policy_of chains.now number }
{
    chains[number as usize].policy()
}

fn policy_verdict(policy: Option<Policy>) -> Verdict
    ensures { result ≡ policy_verdict policy }
{
    match policy {
        Some(Policy::Accept) => Verdict::Forward,
        Some(Policy::Drop) | None => Verdict::Drop,
    }
}
