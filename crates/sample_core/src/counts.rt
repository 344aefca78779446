//! The results of the commands for a description, in numbers.

ghost use Rattle.std.specs.Prelude.{◌≡◌, IfOk, [], option_map};
ghost use Rattle.sample_core.specs.Sample.{IsTableLines, offence_size};
ghost use Rattle.sample_core.specs.inner.SampleCounts.{AreOffending};

use desc_core::Description;
use emit_core::{NoTable, flow_table_layout, needs_state};
use flow_set::FlowSet;
use permit_core::offending_by_steps;
use pkt_core::FlowPolicy;
use std::alloc::{AllocError, Global};

/// The text of the flow table of a policy.
#[derive(Clone, Copy, Debug, PartialEq, Eq)]
pub enum TableLines {
    /// The flow table has this number of lines.
    Lines(u32),
    /// There is no flow table, because an answer requires connection tracking.
    NeedsState,
    /// There is no flow table, because it would exceed the entry limit.
    TooMany,
}

/// Returns the number of lines of the flow table of a policy with unrestricted flows only.
pub(crate) fn table_lines(alloc: Global, policy: &FlowPolicy<'_>) -> Result<TableLines, AllocError>
    requires whole { policy.now.site.services ≡ [] }
    ensures { IfOk result (IsTableLines policy.now) }
{
    if needs_state(policy).is_some() {
        return Ok(TableLines::NeedsState);
    }
    match flow_table_layout(alloc, policy) {
        Ok(table) => Ok(TableLines::Lines(table.lines())),
        Err(NoTable::RangeOfPorts { .. }) => unreachable!(),
        Err(NoTable::TooManyEntries { .. }) => Ok(TableLines::TooMany),
        Err(NoTable::Memory) => Err(AllocError),
    }
}

/// Returns, for each invariant, the size of the set of flows that `check` reports.
pub(crate) fn offending(alloc: Global, description: &Description) -> Result<Vec<u32>, AllocError>
    ensures { IfOk result (λ counts. AreOffending description.now counts.items) }
{
    let asked = description.asked();
    let mut counts = Vec::new(alloc);
    for invariant in description.invariants() {
        let offence = offending_by_steps(alloc, invariant, asked)?;
        counts.push(size_of(&offence))?;
    }
    Ok(counts)
}

fn size_of(offence: &Option<FlowSet>) -> u32
    ensures { result ≡ offence_size (option_map (λ set. set.flows) offence.now) }
{
    match offence {
        None => 0,
        Some(flows) => flows.len(),
    }
}
