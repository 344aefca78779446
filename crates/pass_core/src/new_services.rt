//! The services that rules accept for new connections, between two sets of addresses and by pairs of owners.

ghost use Rattle.std.specs.Prelude.{IfOk, OnOk};
ghost use Rattle.std.specs.List.{All};
ghost use Rattle.rules_space.specs.RulesView.{rules_of};
ghost use Rattle.header_space.specs.Owners.{GoesBetween, HasRanges};
ghost use Rattle.pass_core.specs.NewPackets.{LetsPass};
ghost use Rattle.pass_core.specs.Pairs.{AreListed, AreListedByOwners, AreListedFrom, IsListedFor};
ghost use Rattle.pass_core.specs.Passing.{ArePassing, AreRanges};
ghost use Rattle.pass_core.specs.inner.Listing.{AreSources, IsAdded};

use crate::pairs::{
    PairServices, every_address, hull, passes_in_hulls, push_pair as search_pair,
    push_pairs as search_pairs, services_by_pairs, sources_of,
};
use crate::passes_new::PassesNew;
use crate::passing_range::PassingRange;
use header_space::{AddressRange, Owned, Question, all_owned, box_between};
use host_net::Hosts;
use rules_space::RulesRef;
use std::alloc::{AllocError, Global};

/// The maximum number of owners for which sets of packets are computed by any number of rules.
const FEW_OWNERS: usize = 8;

/// The maximum product of the number of owners and the number of rules for the packets of one owner, if there are
/// more owners. A search passes over the rules that match no packet of a pair, and sets of packets do not.
const WORK_LIMIT: usize = 1 << 15;

/// The least number of pairs of a source range and a destination range for which sets of packets are computed, if there
/// are more owners. A search goes through them one by one.
const MANY_AREAS: usize = 64;

/// Returns the services that the rules accept for new connections from one set of addresses to another,
/// wholly or in part, as ranges in ascending order.
pub fn passing_between(
    alloc: Global,
    text: &RulesRef<'_>,
    from: &[AddressRange],
    to: &[AddressRange],
) -> Result<Vec<PassingRange>, AllocError>
    requires from { AreRanges from.now }
    requires to { AreRanges to.now }
    ensures { IfOk result (λ ranges. ArePassing (LetsPass (rules_of text.now)) (GoesBetween from.now to.now) ranges.items) }
{
    PassesNew::whole(text).services(alloc, from, to)
}

/// Returns the services that the rules accept for new connections, for each pair of owners between which some
/// packet passes. The owners are the hosts in their order and then `None`, for the addresses that no host
/// owns.
pub fn passing_by_pairs(
    alloc: Global,
    text: &RulesRef<'_>,
    hosts: &Hosts,
) -> Result<Vec<PairServices>, AllocError>
    ensures { IfOk result (λ list. AreListedByOwners (LetsPass (rules_of text.now)) hosts.now list.items) }
{
    let owned = all_owned(alloc, hosts)?;
    services_of_owned(alloc, text, &owned)
}

/// Returns the services that the rules accept for each pair of owners: for chains by sets of packets or by a search, as
/// the numbers of owners and of rules suggest, for a flow table by a search.
fn services_of_owned(
    alloc: Global,
    text: &RulesRef<'_>,
    owned: &[Owned],
) -> Result<Vec<PairServices>, AllocError>
    requires { All HasRanges owned.now }
    ensures { IfOk result (λ list. AreListed (LetsPass (rules_of text.now)) owned.now list.items) }
{
    let question = PassesNew::whole(text);
    match text {
        RulesRef::Ipt(_) => new_services_by_pairs(alloc, &question, owned),
        RulesRef::Ofp(_) => services_by_pairs(alloc, &question, owned),
    }
}

/// Returns the services that pass for each pair of owners, as `services_by_pairs` does, by sets of packets if this is
/// worth the cost.
fn new_services_by_pairs(
    alloc: Global,
    question: &PassesNew<'_>,
    owned: &[Owned],
) -> Result<Vec<PairServices>, AllocError>
    requires { All HasRanges owned.now }
    ensures { IfOk result (λ list. AreListed (LetsPass question.now) owned.now list.items) }
{
    let mut list = Vec::new(alloc);
    for from in owned {
        push_from(alloc, &mut list, question, from, owned)?;
    }
    Ok(list)
}

/// Lists the pairs of one source owner. Restricts the rules to its packets if this is worth the cost.
fn push_from(
    alloc: Global,
    list: &mut Vec<PairServices>,
    question: &PassesNew<'_>,
    from: &Owned,
    owned: &[Owned],
) -> Result<(), AllocError>
    requires from { HasRanges from.now }
    requires to { All HasRanges owned.now }
    ensures { OnOk result (IsAdded (AreListedFrom (LetsPass question.now) owned.now from.now) list.old.items list.new.items) }
{
    let within = box_between(hull(&from.ranges), every_address());
    match question.restrict(alloc, &within)? {
        None => push_by_size(alloc, list, question, from, owned),
        Some(part) => push_by_size(alloc, list, &part, from, owned),
    }
}

/// Lists the pairs of one source owner with all destination owners: by sets of packets if there are few owners, by sets
/// or by a search if there are few rules, else by a search.
fn push_by_size(
    alloc: Global,
    list: &mut Vec<PairServices>,
    question: &PassesNew<'_>,
    from: &Owned,
    owned: &[Owned],
) -> Result<(), AllocError>
    requires from { HasRanges from.now }
    requires to { All HasRanges owned.now }
    ensures { OnOk result (IsAdded (AreListedFrom (LetsPass question.now) owned.now from.now) list.old.items list.new.items) }
{
    let work = owned.len().saturating_mul(question.rule_count());
    if owned.len() <= FEW_OWNERS {
        push_pairs(alloc, list, question, from, owned)
    } else if work <= WORK_LIMIT {
        push_each(alloc, list, question, from, owned)
    } else {
        search_pairs(alloc, list, question, from, owned)
    }
}

/// Lists the pairs of one source owner with all destination owners: each pair by sets of packets if its owners have many
/// ranges of addresses, else by a search.
fn push_each(
    alloc: Global,
    list: &mut Vec<PairServices>,
    question: &PassesNew<'_>,
    from: &Owned,
    owned: &[Owned],
) -> Result<(), AllocError>
    requires from { HasRanges from.now }
    requires to { All HasRanges owned.now }
    ensures { OnOk result (IsAdded (AreListedFrom (LetsPass question.now) owned.now from.now) list.old.items list.new.items) }
{
    let sources = sources_of(alloc, question, &from.ranges)?;
    for to in owned {
        push_chosen(alloc, list, question, from, &sources, to)?;
    }
    Ok(())
}

/// Lists a pair of owners, if some packet of it passes. `sources` contains each source address from which some packet
/// passes.
fn push_chosen(
    alloc: Global,
    list: &mut Vec<PairServices>,
    question: &PassesNew<'_>,
    from: &Owned,
    sources: &[AddressRange],
    to: &Owned,
) -> Result<(), AllocError>
    requires from { HasRanges from.now }
    requires sources { AreSources (LetsPass question.now) from.now.ranges.items sources.now }
    requires to { HasRanges to.now }
    ensures { OnOk result (IsAdded
        (IsListedFor (LetsPass question.now) (GoesBetween from.now.ranges.items to.now.ranges.items) from.now.owner to.now.owner)
        list.old.items list.new.items) }
{
    let areas = sources.len().saturating_mul(to.ranges.len());
    if areas >= MANY_AREAS {
        push_pair(alloc, list, question, from, to)
    } else {
        search_pair(alloc, list, question, from, sources, to)
    }
}

/// Lists the pairs of one source owner with all destination owners.
fn push_pairs(
    alloc: Global,
    list: &mut Vec<PairServices>,
    question: &PassesNew<'_>,
    from: &Owned,
    owned: &[Owned],
) -> Result<(), AllocError>
    requires from { HasRanges from.now }
    requires to { All HasRanges owned.now }
    ensures { OnOk result (IsAdded (AreListedFrom (LetsPass question.now) owned.now from.now) list.old.items list.new.items) }
{
    for to in owned {
        push_pair(alloc, list, question, from, to)?;
    }
    Ok(())
}

/// Lists a pair of owners, if some packet of it passes.
fn push_pair(
    alloc: Global,
    list: &mut Vec<PairServices>,
    question: &PassesNew<'_>,
    from: &Owned,
    to: &Owned,
) -> Result<(), AllocError>
    requires from { HasRanges from.now }
    requires to { HasRanges to.now }
    ensures { OnOk result (IsAdded
        (IsListedFor (LetsPass question.now) (GoesBetween from.now.ranges.items to.now.ranges.items) from.now.owner to.now.owner)
        list.old.items list.new.items) }
{
    if from.ranges.is_empty() || to.ranges.is_empty() {
        return Ok(());
    }
    let passes = passes_in_hulls(alloc, question, &from.ranges, &to.ranges)?;
    if !passes {
        return Ok(());
    }
    let ranges = question.services(alloc, &from.ranges, &to.ranges)?;
    if ranges.is_empty() {
        return Ok(());
    }
    list.push(PairServices {
        from: from.owner,
        to: to.owner,
        ranges,
    })?;
    Ok(())
}
