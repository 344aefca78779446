//! The meaning and the layout of a policy without services, over the definitions only.

ghost use Rattle.std.specs.Prelude.{◌≡◌, ◌↔◌, ℕ, false, List, IsTrue};
ghost use Rattle.std.specs.Option.{option_map_or};
ghost use Rattle.host_net.specs.declared.packet.Packet.{Packet};
ghost use Rattle.host_net.specs.Host.{Host};
ghost use Rattle.host_net.specs.inner.Site.{unnarrowed};
ghost use Rattle.flow_set.specs.declared.flow.Flow.{Flow};
ghost use Rattle.flow_set.specs.Flow.{reverse_of};
ghost use Rattle.flow_set.specs.FlowSet.{has};
ghost use Rattle.pkt_core.specs.FlowPolicy.{FlowPolicy, flow_of, is_of};
ghost use Rattle.emit_core.specs.declared.direction.Direction.{Direction as HostSide};
ghost use Rattle.emit_core.specs.FlowTable.{flow_entries};
ghost use Rattle.emit_core.specs.FlowTableEvents.{AnswersAreCovered};
ghost use Rattle.emit_core.specs.Layout.{host_rules};
ghost use Rattle.emit_core.specs.inner.UnnarrowedFlowTable.{whole_entries};
ghost use Rattle.emit_core.specs.inner.UnnarrowedLayout.{whole_host_rules, without_services};

/// If all flows are unrestricted, the flow of a packet depends only on the owners of its addresses,
/// each rule and each entry matches all packets of a flow, and an answer is covered if its flow is
/// permitted.
pub fn unnarrowed_flows_are_whole()
    ensures meaning { (hosts : List Host) (flows : List Flow) (packet : Packet) →
        is_of (unnarrowed hosts) flows packet ≡ option_map_or (λ f. has flows f) (flow_of hosts packet) false }
    ensures chains { (side : HostSide) (policy : FlowPolicy) (i : ℕ) →
        host_rules side (without_services policy) i ≡ whole_host_rules side policy i }
    ensures entries { (hosts : List Host) (p : List Flow) → flow_entries (unnarrowed hosts) p ≡ whole_entries hosts p }
    ensures answers { (policy : FlowPolicy) → AnswersAreCovered (without_services policy) ↔
        ((f : Flow) → IsTrue (has policy.stateful f) → IsTrue (has policy.permitted (reverse_of f))) }
{}
