//! A policy between hosts: the input for rule generation and for audits.

ghost use Rattle.std.specs.Prelude.{◌≡◌, ◌<◌, Some, length, option_map, slice_get};
ghost use Rattle.host_net.specs.Host.{rest_of};
ghost use Rattle.host_net.specs.Site.{site_with};
ghost use Rattle.flow_set.specs.FlowSet.{IsSubset};
ghost use Rattle.pkt_core.specs.FlowPolicy.{policy_with};
ghost use Rattle.pkt_core.specs.inner.FlowPolicy.{IsFlowPolicy};

use flow_set::FlowSet;
use host_net::{Hosts, Prefix, Services};
use std::marker::Model;

/// The hosts and the services of flows between them; the permitted flows, each restricted to its
/// services if it has any; and the stateful flows, the permitted flows whose answers may pass.
#[derive(Drop)]
pub struct FlowPolicy<'a> {
    hosts: &'a Hosts,
    services: &'a Services,
    permitted: &'a FlowSet,
    stateful: &'a FlowSet,
}

impl<'a> Model for FlowPolicy<'a> {
    ghost use Rattle.std.specs.Prelude.{◌≡◌, length};
    ghost use Rattle.host_net.specs.Site.{site_with};
    ghost use Rattle.pkt_core.specs.FlowPolicy.{FlowPolicy, policy_with};
    ghost use Rattle.pkt_core.specs.inner.FlowPolicy.{IsFlowPolicy};

    ghost Value = { FlowPolicy };

    ghost view = { λ p. policy_with (site_with p.hosts.now p.services.now) p.permitted.now.flows p.stateful.now.flows };

    ghost invariant = { λ p. (p.permitted.now.size ≡ length p.hosts.now) × (p.stateful.now.size ≡ length p.hosts.now)
        × IsFlowPolicy (policy_with (site_with p.hosts.now p.services.now) p.permitted.now.flows p.stateful.now.flows) };
}

impl<'a> FlowPolicy<'a> {
    /// Returns the policy of these hosts, services, permitted flows and stateful flows. Both sets
    /// of flows have the size of the hosts, and each stateful flow is permitted.
    pub fn new(
        hosts: &'a Hosts,
        services: &'a Services,
        permitted: &'a FlowSet,
        stateful: &'a FlowSet,
    ) -> FlowPolicy<'a>
        requires permitted { permitted.now.size ≡ length hosts.now }
        requires stateful { stateful.now.size ≡ length hosts.now }
        requires within { IsSubset stateful.now.flows permitted.now.flows }
        ensures { result ≡ policy_with (site_with hosts.now services.now) permitted.now.flows stateful.now.flows }
    {
        // The calls establish the invariants of hosts and services.
        let (_count, _services) = (hosts.count(), services.of(0, 0));
        FlowPolicy {
            hosts,
            services,
            permitted,
            stateful,
        }
    }

    /// Returns the hosts of the policy. The number of a host is its index.
    pub fn hosts(&self) -> &'a Hosts
        ensures value { result.now ≡ self.now.site.hosts }
        ensures policy { IsFlowPolicy self.now }
    {
        self.hosts
    }

    /// Returns the services of flows. A permitted flow with services permits the packets that one
    /// of them matches. A permitted flow without services permits all its packets.
    pub fn services(&self) -> &'a Services
        ensures value { result.now ≡ self.now.site.services }
    {
        self.services
    }

    /// Returns the permitted flows.
    pub fn permitted(&self) -> &'a FlowSet
        ensures flows { result.now.flows ≡ self.now.permitted }
        ensures size { result.now.size ≡ length self.now.site.hosts }
    {
        self.permitted
    }

    /// Returns the stateful flows: the permitted flows whose answers may pass as well, on
    /// established connections.
    pub fn stateful(&self) -> &'a FlowSet
        ensures flows { result.now.flows ≡ self.now.stateful }
        ensures size { result.now.size ≡ length self.now.site.hosts }
    {
        self.stateful
    }

    /// Returns the number of hosts.
    pub fn count(&self) -> u16
        ensures value { result ≡ length self.now.site.hosts }
        ensures policy { IsFlowPolicy self.now }
    {
        self.hosts.count()
    }

    /// Returns the prefixes of a host.
    pub fn prefixes(&self, host: u16) -> &'a [Prefix]
        requires { host < length self.now.site.hosts }
        ensures { option_map (λ h. h.prefixes) (slice_get self.now.site.hosts host) ≡ Some result.now }
    {
        self.hosts.prefixes(host)
    }

    /// Returns the rest host, or `None` if there is none.
    pub fn rest(&self) -> Option<u16>
        ensures { result ≡ rest_of self.now.site.hosts }
    {
        self.hosts.rest()
    }
}
