//! The flows that rules let pass: for each pair of owners its services, each with the rules that let it pass.

ghost use Rattle.std.specs.Prelude.{◌≡◌, ◌<◌, IfOk, IfSome, map};
ghost use Rattle.std.specs.List.{All};
ghost use Rattle.header_space.specs.Owners.{IsRange};
ghost use Rattle.rules_space.specs.RulesView.{rules_of};
ghost use Rattle.pass_core.specs.Services.{service_count};
ghost use Rattle.decide_core.specs.Deciders.{AreDeciders};
ghost use Rattle.decide_core.specs.Flows.{AreFlows, AreFlowsOf, AreFlowsOfEach};
ghost use Rattle.decide_core.specs.ServiceRanges.{HasServiceBetween};
ghost use Rattle.decide_core.specs.inner.Flows.{HasServices};
ghost use Rattle.decide_core.specs.inner.PairSets.{ArePairDeciders};

use crate::between::deciders_between;
use crate::deciders::Deciders;
use crate::pair_sets::PairDeciders;
use header_space::{AddressRange, ranges_of};
use host_net::Hosts;
use pass_core::{PairServices, PassingRange, passing_by_pairs};
use rules_space::RulesRef;
use std::alloc::{AllocError, Global};

/// The number of searches from which on sets of packets replace them. There is one search for each pair of a source
/// range and a destination range, and for each range of services.
const MANY_SEARCHES: usize = 64;

/// A range of services that pass, wholly or in part, with the rules that let its packets pass.
#[derive(Drop)]
pub struct FlowRange {
    pub range: PassingRange,
    pub deciders: Deciders,
}

/// The services of which new packets pass from one owner to another.
#[derive(Drop)]
pub struct PairFlows {
    /// The owner of the sources, or `None` for addresses that no host owns.
    pub from: Option<u16>,
    /// The owner of the destinations.
    pub to: Option<u16>,
    pub ranges: Vec<FlowRange>,
}

/// Returns what the rules let pass as new packets, for each pair of owners between which some packet passes,
/// also of an owner with itself. The owners are the hosts in their order and, last, `None`.
pub fn flows_by_pairs(
    alloc: Global,
    text: &RulesRef<'_>,
    hosts: &Hosts,
) -> Result<Vec<PairFlows>, AllocError>
    ensures { IfOk result (λ flows. AreFlows (rules_of text.now) hosts.now flows.items) }
{
    let pairs = passing_by_pairs(alloc, text, hosts)?;
    decide_pairs(alloc, text, hosts, &pairs)
}

/// Returns the flows of the pairs, one by one.
fn decide_pairs(
    alloc: Global,
    text: &RulesRef<'_>,
    hosts: &Hosts,
    pairs: &[PairServices],
) -> Result<Vec<PairFlows>, AllocError>
    requires { All HasServices pairs.now }
    ensures { IfOk result (λ flows. AreFlowsOfEach (rules_of text.now) hosts.now pairs.now flows.items) }
{
    let mut flows = Vec::new(alloc);
    for pair in pairs {
        let decided = decide_pair(alloc, text, hosts, pair)?;
        flows.push(decided)?;
    }
    Ok(flows)
}

fn decide_pair(
    alloc: Global,
    text: &RulesRef<'_>,
    hosts: &Hosts,
    pair: &PairServices,
) -> Result<PairFlows, AllocError>
    requires { HasServices pair.now }
    ensures { IfOk result (λ flows. AreFlowsOf (rules_of text.now) hosts.now pair.now flows) }
{
    let from = ranges_of(alloc, hosts, pair.from)?;
    let to = ranges_of(alloc, hosts, pair.to)?;
    let ranges = decide_ranges(alloc, text, &from, &to, &pair.ranges)?;
    Ok(PairFlows {
        from: pair.from,
        to: pair.to,
        ranges,
    })
}

/// Returns the ranges of services between two sets of addresses, each with the rules that let it pass.
fn decide_ranges(
    alloc: Global,
    text: &RulesRef<'_>,
    from: &[AddressRange],
    to: &[AddressRange],
    ranges: &[PassingRange],
) -> Result<Vec<FlowRange>, AllocError>
    requires from { All IsRange from.now }
    requires to { All IsRange to.now }
    requires services { All (λ r. r.high < service_count) ranges.now }
    ensures ranges { IfOk result (λ list. map (λ r. r.range) list.items ≡ ranges.now) }
    ensures deciders { IfOk result (λ list. All (λ r. AreDeciders (rules_of text.now) (HasServiceBetween from.now to.now r.range.low r.range.high) r.deciders) list.items) }
{
    let searches = from
        .len()
        .saturating_mul(to.len())
        .saturating_mul(ranges.len());
    let sets = if searches < MANY_SEARCHES {
        None
    } else {
        PairDeciders::of(alloc, text, from, to)?
    };
    decide_each(alloc, text, from, to, &sets, ranges)
}

/// Returns the ranges as `decide_ranges` does, by the sets of packets that meet rules, if there are sets.
fn decide_each(
    alloc: Global,
    text: &RulesRef<'_>,
    from: &[AddressRange],
    to: &[AddressRange],
    sets: &Option<PairDeciders>,
    ranges: &[PassingRange],
) -> Result<Vec<FlowRange>, AllocError>
    requires from { All IsRange from.now }
    requires to { All IsRange to.now }
    requires sets { IfSome sets.now (ArePairDeciders (rules_of text.now) from.now to.now) }
    requires services { All (λ r. r.high < service_count) ranges.now }
    ensures ranges { IfOk result (λ list. map (λ r. r.range) list.items ≡ ranges.now) }
    ensures deciders { IfOk result (λ list. All (λ r. AreDeciders (rules_of text.now) (HasServiceBetween from.now to.now r.range.low r.range.high) r.deciders) list.items) }
{
    let mut list = Vec::new(alloc);
    for range in ranges {
        let deciders = decide_range(alloc, text, from, to, sets, range)?;
        list.push(FlowRange {
            range: *range,
            deciders,
        })?;
    }
    Ok(list)
}

/// Returns the rules that let packets of a range pass: by sets of packets, or by a search if there are no sets.
fn decide_range(
    alloc: Global,
    text: &RulesRef<'_>,
    from: &[AddressRange],
    to: &[AddressRange],
    sets: &Option<PairDeciders>,
    range: &PassingRange,
) -> Result<Deciders, AllocError>
    requires from { All IsRange from.now }
    requires to { All IsRange to.now }
    requires sets { IfSome sets.now (ArePairDeciders (rules_of text.now) from.now to.now) }
    requires services { range.now.high < service_count }
    ensures { IfOk result (AreDeciders (rules_of text.now) (HasServiceBetween from.now to.now range.now.low range.now.high)) }
{
    match sets {
        Some(sets) => sets.deciders(alloc, text, from, to, range.low, range.high),
        None => deciders_between(alloc, text, from, to, range.low, range.high),
    }
}
