//! The flows that a table lets pass: for each pair of owners its services, each with the places that let it pass.

ghost use Rattle.std.specs.Prelude.{◌≡◌, IfOk};
ghost use Rattle.std.specs.List.{AllZip};
ghost use Rattle.nft_chains.specs.Translation.{chains_of};
ghost use Rattle.nft_flows.specs.Flows.{AreTableFlows};
ghost use Rattle.nft_flows.specs.inner.Selected.{IsPlacedPair, IsPlacedRange};

use crate::place::TablePlace;
use crate::selected::with_one;
use crate::span::{Span, spans_in};
use decide_core::{FlowRange, PairFlows, flows_by_pairs};
use host_net::Hosts;
use ipt_rules::Ruleset;
use nft_space::LoadableTable;
use pass_core::PassingRange;
use rules_space::RulesRef;
use std::alloc::{AllocError, Global};

/// A range of services that pass, wholly or in part, with the places that let its packets pass.
#[derive(Drop)]
pub struct TableFlowRange {
    /// The range, with a packet that passes and one that does not, if there is one.
    pub range: PassingRange,
    /// The places that decide a packet of the range such that it passes, in ascending order.
    pub deciders: Vec<TablePlace>,
}

/// The services of which new packets pass from one owner to another.
#[derive(Drop)]
pub struct PairTableFlows {
    /// The owner of the sources, or `None` for addresses that no host owns.
    pub from: Option<u16>,
    /// The owner of the destinations.
    pub to: Option<u16>,
    /// The ranges of services, in ascending order.
    pub ranges: Vec<TableFlowRange>,
}

/// Returns what the table lets pass as new packets, for each pair of owners between which some packet passes, also of
/// an owner with itself. `chains` are the chains of the table.
pub fn flows_of_table(
    alloc: Global,
    table: &LoadableTable,
    chains: &Ruleset,
    hosts: &Hosts,
) -> Result<Vec<PairTableFlows>, AllocError>
    requires { chains.now ≡ chains_of table.now }
    ensures { IfOk result (λ flows. AreTableFlows table.now hosts.now flows.items) }
{
    // This call establishes that the table can be loaded, and has one verdict on each packet.
    let _held = table.table();
    let flows = flows_by_pairs(alloc, &RulesRef::Ipt(chains), hosts)?;
    let spans = spans_in(alloc, table, chains)?;
    place_pairs(alloc, &spans, &flows)
}

/// Returns the flows with the places of their deciders.
fn place_pairs(
    alloc: Global,
    spans: &[Span],
    flows: &[PairFlows],
) -> Result<Vec<PairTableFlows>, AllocError>
    ensures { IfOk result (λ placed. AllZip (IsPlacedPair spans.now) flows.now placed.items) }
{
    let mut placed = Vec::new(alloc);
    for pair in flows {
        let ranges = place_ranges(alloc, spans, &pair.ranges)?;
        placed.push(PairTableFlows {
            from: pair.from,
            to: pair.to,
            ranges,
        })?;
    }
    Ok(placed)
}

/// Returns the ranges with the places of their deciders.
fn place_ranges(
    alloc: Global,
    spans: &[Span],
    ranges: &[FlowRange],
) -> Result<Vec<TableFlowRange>, AllocError>
    ensures { IfOk result (λ placed. AllZip (IsPlacedRange spans.now) ranges.now placed.items) }
{
    let mut placed = Vec::new(alloc);
    for range in ranges {
        let deciders = with_one(alloc, spans, &range.deciders.places)?;
        placed.push(TableFlowRange {
            range: range.range,
            deciders,
        })?;
    }
    Ok(placed)
}
