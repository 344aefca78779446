//! Host firewalls compared with one firewall between all hosts, over the definitions only.

ghost use Rattle.std.specs.Prelude.{◌≡◌, Bool, List, Option};
ghost use Rattle.host_net.specs.inner.Hosts.{IsHosts};
ghost use Rattle.flow_set.specs.FlowSet.{IsSubset};
ghost use Rattle.ipt_rules.specs.Semantics.{PassesChains};
ghost use Rattle.pkt_core.specs.declared.event.Event.{Event};
ghost use Rattle.pkt_core.specs.Filter.{RunsFromNoConnections};
ghost use Rattle.pkt_core.specs.FlowPolicy.{FlowPolicy};
ghost use Rattle.emit_core.specs.Layout.{layout};
ghost use Rattle.host_emit.specs.HostEnforcement.{PassesOn};
ghost use Rattle.host_emit.specs.LocalEvents.{AreExternal, LocalRuns};
ghost use Rattle.host_emit.specs.LocalLayout.{local_layout};

/// If each specific host has the rules of its layout, the same packets pass between the hosts as
/// through one firewall with the layout of the whole network, for every list of events with external packets.
pub fn firewalls_pass_as_one()
    ensures { (policy : FlowPolicy) → IsHosts policy.site.hosts → IsSubset policy.stateful policy.permitted → (events : List Event) → AreExternal events →
        (passes forwards : List (Option Bool)) → LocalRuns (λ h. PassesOn (local_layout policy h)) policy.site.hosts events passes →
        RunsFromNoConnections (PassesChains (layout policy)) events forwards → passes ≡ forwards }
{}
