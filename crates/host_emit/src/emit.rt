//! The rules for the machines of one host, for a policy that a caller has in parts: its hosts and
//! services, and two sets of flows.

ghost use Rattle.std.specs.Prelude.{◌≡◌, ◌<◌, length, IfOk, OnOk, IsTrue};
ghost use Rattle.host_net.specs.Site.{site_with};
ghost use Rattle.flow_set.specs.FlowSet.{IsSubset};
ghost use Rattle.pkt_core.specs.FlowPolicy.{policy_with};
ghost use Rattle.host_emit.specs.HostEnforcement.{EnforcesAtHost, PassesOn};
ghost use Rattle.host_emit.specs.LocalEvents.{DeliversAsExpected};
ghost use Rattle.host_emit.specs.LocalLayout.{is_specific, local_layout};

use crate::local::local_rules;
use flow_set::FlowSet;
use host_net::{Hosts, Services};
use ipt_rules::Ruleset;
use pkt_core::FlowPolicy;
use std::alloc::{AllocError, Global};

/// Emits the iptables rules for the machines of one specific host, by the permitted flows `p` and the
/// stateful flows `s`: packets of `p` pass, and answers to `s` pass on established connections. Both sets
/// have the size of the hosts.
pub fn emit_local(
    alloc: Global,
    hosts: &Hosts,
    services: &Services,
    p: &FlowSet,
    s: &FlowSet,
    host: u16,
) -> Result<Ruleset, AllocError>
    requires permitted { p.now.size ≡ length hosts.now }
    requires stateful { s.now.size ≡ length hosts.now }
    requires within { IsSubset s.now.flows p.now.flows }
    requires there { host < length hosts.now }
    requires specific { IsTrue (is_specific hosts.now host) }
    ensures layout { IfOk result (λ rules. rules ≡ local_layout (policy_with (site_with hosts.now services.now) p.now.flows s.now.flows) host) }

    // In each direction a packet of the host passes if and only if the policy allows it. No other
    // packet passes, except loopback packets.
    ensures enforces_at_host { IfOk result (λ rules. EnforcesAtHost (PassesOn rules) (policy_with (site_with hosts.now services.now) p.now.flows s.now.flows) host) }

    // If the machines of every specific host have its rules, a packet passes if and only if it is
    // expected to, for every list of events with external packets.
    ensures passes { OnOk result (DeliversAsExpected
        (λ h. PassesOn (local_layout (policy_with (site_with hosts.now services.now) p.now.flows s.now.flows) h))
        (policy_with (site_with hosts.now services.now) p.now.flows s.now.flows)) }
{
    local_rules(alloc, &FlowPolicy::new(hosts, services, p, s), host)
}
