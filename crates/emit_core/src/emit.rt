//! The layouts of a policy that a caller has in parts: its hosts and services, and two sets of
//! flows.

ghost use Rattle.std.specs.Prelude.{◌≡◌, ◌≤◌, List, [], length, IfOk, IfErr, OnOk};
ghost use Rattle.host_net.specs.Site.{site_with};
ghost use Rattle.flow_set.specs.declared.flow.Flow.{Flow};
ghost use Rattle.flow_set.specs.FlowSet.{IsSubset};
ghost use Rattle.pkt_core.specs.Filter.{Enforces, ForwardsAsExpected};
ghost use Rattle.pkt_core.specs.FlowPolicy.{policy_with};
ghost use Rattle.ipt_rules.specs.ChainTable.{rule_count};
ghost use Rattle.ipt_rules.specs.Semantics.{PassesChains};
ghost use Rattle.ofp_rules.specs.Ambiguity.{most_entries};
ghost use Rattle.ofp_rules.specs.Semantics.{PassesEntries};
ghost use Rattle.emit_core.specs.EmitRefusals.{rule_limit};
ghost use Rattle.emit_core.specs.FlowTable.{flow_entries};
ghost use Rattle.emit_core.specs.FlowTableEvents.{AnswersAreCovered};
ghost use Rattle.emit_core.specs.FlowTableForwarding.{ForwardsArpAlone};
ghost use Rattle.emit_core.specs.Layout.{layout};
ghost use Rattle.emit_core.specs.PortRanges.{HasNoRange};
ghost use Rattle.emit_core.specs.inner.EmitRefusals.{IsIptablesRefusal, IsOpenflowRefusal};

use crate::iptables::iptables_layout;
use crate::openflow::flow_table_layout;
use crate::refusal::{EmitRefusal, NoChains, NoTable};
use flow_set::FlowSet;
use host_net::{Hosts, Services};
use ipt_rules::Ruleset;
use ofp_rules::Table;
use pkt_core::FlowPolicy;
use std::alloc::Global;

/// Emits the iptables rules of the permitted flows `p` and the stateful flows `s`: packets of `p` pass,
/// and answers to `s` pass on established connections. Both sets have the size of the hosts.
pub fn emit_iptables(
    alloc: Global,
    hosts: &Hosts,
    services: &Services,
    p: &FlowSet,
    s: &FlowSet,
) -> Result<Ruleset, EmitRefusal>
    requires permitted { p.now.size ≡ length hosts.now }
    requires stateful { s.now.size ≡ length hosts.now }
    requires within { IsSubset s.now.flows p.now.flows }
    ensures layout { IfOk result (λ rules. rules ≡ layout (policy_with (site_with hosts.now services.now) p.now.flows s.now.flows)) }
    ensures few { OnOk result (rule_count (layout (policy_with (site_with hosts.now services.now) p.now.flows s.now.flows)) ≤ rule_limit) }
    ensures refused { IfErr result (IsIptablesRefusal (policy_with (site_with hosts.now services.now) p.now.flows s.now.flows)) }

    // Each packet has a verdict, and it is forwarded if and only if the policy allows it.
    ensures enforces { IfOk result (λ rules. Enforces (PassesChains rules) (policy_with (site_with hosts.now services.now) p.now.flows s.now.flows)) }

    // For every list of events, a packet is forwarded if and only if it is expected to pass.
    ensures expected { IfOk result (λ rules. ForwardsAsExpected (PassesChains rules) (policy_with (site_with hosts.now services.now) p.now.flows s.now.flows)) }
{
    match iptables_layout(alloc, &FlowPolicy::new(hosts, services, p, s)) {
        Ok(rules) => Ok(rules),
        Err(NoChains::TooManyRules { count }) => Err(EmitRefusal::TooManyRules { count }),
        Err(NoChains::Memory) => Err(EmitRefusal::Memory),
    }
}

/// Emits the flow table of the permitted flows `p`, a set of the size of the hosts. A table is
/// stateless: an answer passes only if it is a packet of a permitted flow itself.
pub fn emit_openflow(
    alloc: Global,
    hosts: &Hosts,
    services: &Services,
    p: &FlowSet,
) -> Result<Table, EmitRefusal>
    requires permitted { p.now.size ≡ length hosts.now }
    ensures layout { IfOk result (λ table. table ≡ flow_entries (site_with hosts.now services.now) p.now.flows) }
    ensures ports { OnOk result (HasNoRange services.now p.now.flows) }
    ensures few { OnOk result (length (flow_entries (site_with hosts.now services.now) p.now.flows) ≤ most_entries) }
    ensures refused { IfErr result (IsOpenflowRefusal (site_with hosts.now services.now) p.now.flows) }

    // An IPv4 frame is forwarded if and only if its packet belongs to a permitted flow, in each
    // connection state. Of all other frames only ARP is forwarded.
    ensures enforces { IfOk result (λ table. Enforces (PassesEntries table) (policy_with (site_with hosts.now services.now) p.now.flows [])) }
    ensures others { IfOk result (λ table. ForwardsArpAlone table) }

    // If the answers of each flow of `s` are covered, a packet is forwarded if and only if it is
    // expected to pass, for every list of events.
    ensures expected { IfOk result (λ table. (s : List Flow) → AnswersAreCovered (policy_with (site_with hosts.now services.now) p.now.flows s)
        → ForwardsAsExpected (PassesEntries table) (policy_with (site_with hosts.now services.now) p.now.flows s)) }
{
    // The call establishes that the set is sorted, and so a subset of itself.
    let _size = p.size();
    match flow_table_layout(alloc, &FlowPolicy::new(hosts, services, p, p)) {
        Ok(table) => Ok(table),
        Err(NoTable::RangeOfPorts { flow }) => Err(EmitRefusal::RangeOfPorts { flow }),
        Err(NoTable::TooManyEntries { count }) => Err(EmitRefusal::TooManyRules { count }),
        Err(NoTable::Memory) => Err(EmitRefusal::Memory),
    }
}
