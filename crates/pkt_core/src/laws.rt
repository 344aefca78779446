//! The connection table compared with any connection tracking, over the definitions only.

ghost use Rattle.std.specs.Prelude.{◌≡◌, Bool, List, Option, ⊤};
ghost use Rattle.host_net.specs.declared.packet.Packet.{Packet};
ghost use Rattle.pkt_core.specs.declared.event.Event.{Event};
ghost use Rattle.pkt_core.specs.AnyTracking.{IsSoundFor};
ghost use Rattle.pkt_core.specs.inner.ConnectionTable.{kept_after};
ghost use Rattle.pkt_core.specs.Firewall.{may_pass};
ghost use Rattle.pkt_core.specs.inner.FewerStates.{PassOnlyExpected, RunsWithFewer};
ghost use Rattle.pkt_core.specs.inner.FirewallFor.{StatefulArePermitted};
ghost use Rattle.pkt_core.specs.inner.PolicyRuns.{RunsBy};
ghost use Rattle.pkt_core.specs.Tracking.{no_connections, state_of};

/// After every run of a policy, the state of each packet by the connection table is sound. If fewer
/// packets are ESTABLISHED than by the table, only expected packets pass.
pub fn tracked_states_are_sound()
    ensures sound { (permitted stateful : Packet → Bool) → StatefulArePermitted (λ p. ⊤) permitted stateful →
        (events : List Event) (results : List (Option Bool)) → RunsBy permitted stateful no_connections events results →
        (p : Packet) → IsSoundFor permitted events p (state_of (kept_after no_connections events results) p) }
    ensures fewer { (permitted stateful : Packet → Bool) → StatefulArePermitted (λ p. ⊤) permitted stateful →
        (events : List Event) (results : List (Option Bool)) →
        RunsWithFewer (λ state p passes. passes ≡ may_pass permitted stateful state p) no_connections events results →
        PassOnlyExpected permitted stateful events results }
{}
