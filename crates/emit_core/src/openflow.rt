//! The flow table of a policy, assembled.

ghost use Rattle.std.specs.Prelude.{◌≡◌, List, [], ◌≤◌, length, IfOk, IfErr, OnOk};
ghost use Rattle.flow_set.specs.declared.flow.Flow.{Flow};
ghost use Rattle.pkt_core.specs.Filter.{Enforces, ForwardsAsExpected};
ghost use Rattle.pkt_core.specs.FlowPolicy.{policy_with};
ghost use Rattle.ofp_rules.specs.Ambiguity.{most_entries};
ghost use Rattle.ofp_rules.specs.Semantics.{PassesEntries};
ghost use Rattle.emit_core.specs.inner.EmitRefusals.{HasNoTable};
ghost use Rattle.emit_core.specs.FlowTable.{flow_entries};
ghost use Rattle.emit_core.specs.FlowTableEvents.{AnswersAreCovered};
ghost use Rattle.emit_core.specs.FlowTableForwarding.{ForwardsArpAlone};
ghost use Rattle.emit_core.specs.inner.KeptEntries.{AreCounted};
ghost use Rattle.emit_core.specs.PortRanges.{HasNoRange};

use crate::entries::Entries;
use crate::flow_entry::{arp_entry, other_entry};
use crate::flows::push_between;
use crate::ranges::first_range;
use crate::refusal::NoTable;
use crate::rest_flows::push_with_rest;
use ofp_rules::{ENTRY_LIMIT, Table, TableRefusal};
use pkt_core::FlowPolicy;
use std::alloc::{AllocError, Global};

/// Returns the flow table of a policy: permitted flows pass. Answers to them pass only if they
/// belong to permitted flows themselves, since a table is stateless.
pub fn flow_table_layout(alloc: Global, policy: &FlowPolicy<'_>) -> Result<Table, NoTable>
    ensures layout { IfOk result (λ table. table ≡ flow_entries policy.now.site policy.now.permitted) }
    ensures ports { OnOk result (HasNoRange policy.now.site.services policy.now.permitted) }
    ensures few { OnOk result (length (flow_entries policy.now.site policy.now.permitted) ≤ most_entries) }
    ensures refused { IfErr result (HasNoTable policy.now.site policy.now.permitted) }

    // An IPv4 frame is forwarded if and only if its packet belongs to a permitted flow, regardless
    // of the connection state. Of all other frames only ARP is forwarded.
    ensures enforces { IfOk result (λ table. Enforces (PassesEntries table) (policy_with policy.now.site policy.now.permitted [])) }
    ensures others { IfOk result (λ table. ForwardsArpAlone table) }

    // So if the answers of each stateful flow are covered, packets are forwarded exactly as
    // expected, for every list of events.
    ensures expected { IfOk result (λ table. (s : List Flow) → AnswersAreCovered (policy_with policy.now.site policy.now.permitted s)
        → ForwardsAsExpected (PassesEntries table) (policy_with policy.now.site policy.now.permitted s)) }
{
    // The call establishes the invariants of policies.
    let _count = policy.count();
    if let Some(flow) = first_range(policy) {
        return Err(NoTable::RangeOfPorts { flow });
    }
    let Ok(entries) = entries_of(alloc, policy) else {
        return Err(NoTable::Memory);
    };
    let count = entries.count();
    if count > ENTRY_LIMIT {
        return Err(NoTable::TooManyEntries { count });
    }
    match Table::build(alloc, entries.into_kept()) {
        Ok(table) => Ok(table),
        Err(why) => {
            // No layout within the entry limit is refused: memory allocation failed.
            let is_memory = matches!(why, TableRefusal::Memory);
            prove!(is_memory);
            Err(NoTable::Memory)
        }
    }
}

fn entries_of(alloc: Global, policy: &FlowPolicy<'_>) -> Result<Entries, AllocError>
    ensures { IfOk result (AreCounted (flow_entries policy.now.site policy.now.permitted)) }
{
    let rest = policy.rest();
    let mut entries = Entries::new(alloc);
    push_between(&mut entries, policy, rest)?;
    push_with_rest(&mut entries, policy, rest)?;
    entries.push(arp_entry())?;
    entries.push(other_entry())?;
    Ok(entries)
}
