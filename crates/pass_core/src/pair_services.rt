//! The services of new packets that chains forward between two sets of addresses, by sets of packets.

ghost use Rattle.std.specs.Prelude.{◌≡◌, ◌<◌, ℕ, List, length, IfOk, IfSome, IfNone, true};
ghost use Rattle.host_net.specs.declared.packet.Packet.{Packet};
ghost use Rattle.host_net.specs.declared.packet.CtState.TheVariants.{New};
ghost use Rattle.header_space.specs.declared.address_range.AddressRange.{AddressRange};
ghost use Rattle.header_space.specs.Boxes.{IsIn};
ghost use Rattle.header_space.specs.Owners.{GoesBetween};
ghost use Rattle.ipt_rules.specs.Chain.{Chain};
ghost use Rattle.ipt_rules.specs.Semantics.{PassesChains};
ghost use Rattle.rules_set.specs.Pairs.{ArePairSets};
ghost use Rattle.rules_space.specs.Verdicts.{GivesOne};
ghost use Rattle.pass_core.specs.Passing.{ArePassing};
ghost use Rattle.pass_core.specs.inner.PairSurveys.{HasServiceWithout};

use crate::pair_survey::survey_pair;
use crate::passing::append;
use crate::passing_range::PassingRange;
use crate::service::Service;
use header_space::{AddressRange, PacketBox};
use host_net::CtState;
use ipt_rules::ChainsRef;
use packet_set::{Diagrams, SetRefusal};
use rules_set::PairSets;
use std::alloc::{AllocError, Global};

/// The maximum number of rules of which sets are computed. A search passes over most of more rules.
const RULE_LIMIT: usize = 1 << 12;

/// Returns the services of new packets that the chains forward from one set of addresses to another, as ranges in
/// ascending order. Returns `None` if there are more than 4,096 rules, if the sets of packets need too many nodes, or
/// if there are no packets. The chains are evaluated on the box only.
pub(crate) fn services_of_chains(
    alloc: Global,
    chains: &ChainsRef<'_>,
    from: &[AddressRange],
    to: &[AddressRange],
    within: &PacketBox,
) -> Result<Option<Vec<PassingRange>>, AllocError>
    requires covers { (p : Packet) → GoesBetween from.now to.now p → IsIn within.now p }
    requires one { GivesOne (PassesChains chains.now) }
    ensures { IfOk result (λ ranges. IfSome ranges (λ ranges. ArePassing (λ p. PassesChains chains.now New p true) (GoesBetween from.now to.now) ranges.items)) }
{
    if rule_count(chains) > RULE_LIMIT {
        return Ok(None);
    }
    let mut diagrams = Diagrams::new(alloc)?;
    match PairSets::of(alloc, &mut diagrams, chains, CtState::New, from, to, within) {
        Ok(sets) => services_of_pair(alloc, &diagrams, sets),
        Err(SetRefusal::TooManyNodes) => Ok(None),
        Err(SetRefusal::Memory) => Err(AllocError),
    }
}

/// Returns the number of rules of the chains.
pub(crate) fn rule_count(chains: &ChainsRef<'_>) -> usize {
    let mut rules: usize = 0;
    for chain in 0..chains.count() {
        rules = rules.saturating_add(chains.rules_in(chain).len());
    }
    rules
}

/// Returns the services that pass, or `None` if a service has no packets.
fn services_of_pair(
    alloc: Global,
    diagrams: &Diagrams,
    sets: PairSets,
) -> Result<Option<Vec<PassingRange>>, AllocError>
    requires passing { sets.passing < length diagrams.now }
    requires staying { sets.staying < length diagrams.now }
    ensures ranges { IfOk result (λ ranges. IfSome ranges (λ ranges. (chains : List Chain) (from to : List AddressRange) → ArePairSets chains New from to diagrams.now sets
        → GivesOne (PassesChains chains) → ArePassing (λ p. PassesChains chains New p true) (GoesBetween from to) ranges.items)) }
    ensures none { IfOk result (λ ranges. IfNone ranges (HasServiceWithout diagrams.now sets)) }
{
    let mut ranges = Vec::new(alloc);
    let mut next = Some(Service::first());
    while let Some(first) = next {
        let Some(found) = survey_pair(diagrams, sets, first) else {
            return Ok(None);
        };
        append(&mut ranges, &found)?;
        next = found.last.next();
    }
    Ok(Some(ranges))
}
