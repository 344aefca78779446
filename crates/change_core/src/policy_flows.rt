//! The flows of a policy, with their services.

ghost use Rattle.std.specs.Prelude.{◌≡◌};
ghost use Rattle.host_net.specs.declared.packet.Packet.{Packet};
ghost use Rattle.header_space.specs.Boxes.{IsBox, IsIn, Narrows};
ghost use Rattle.host_net.specs.Services.{services_of};
ghost use Rattle.flow_set.specs.FlowSet.{has};
ghost use Rattle.change_core.specs.inner.Candidates.{pair_covers, pair_gains};
ghost use Rattle.change_core.specs.inner.Gaining.{are_of, flows_with};

use crate::covering::services_cover;
use crate::owner_pair::OwnerPair;
use crate::sharing::has_flow;
use flow_set::{Flow, FlowSet};
use header_space::PacketBox;
use host_net::Service;
use pkt_core::FlowPolicy;
use policy_space::is_of_within;
use std::marker::Model;

/// The permitted or the stateful flows of a policy.
#[derive(Drop)]
pub(crate) struct PolicyFlows<'a> {
    policy: &'a FlowPolicy<'a>,
    flows: &'a FlowSet,
}

impl<'a> Model for PolicyFlows<'a> {
    ghost use Rattle.std.specs.Prelude.{◌≡◌, length};
    ghost use Rattle.change_core.specs.inner.Gaining.{PolicyFlows, flows_with};

    ghost Value = { PolicyFlows };

    ghost view = { λ f. flows_with f.policy.now.site f.flows.now.flows };

    ghost invariant = { λ f. f.flows.now.size ≡ length f.policy.now.site.hosts };
}

impl<'a> PolicyFlows<'a> {
    pub(crate) fn permitted(policy: &'a FlowPolicy<'a>) -> PolicyFlows<'a>
        ensures { result ≡ flows_with policy.now.site policy.now.permitted }
    {
        PolicyFlows {
            policy,
            flows: policy.permitted(),
        }
    }

    pub(crate) fn stateful(policy: &'a FlowPolicy<'a>) -> PolicyFlows<'a>
        ensures { result ≡ flows_with policy.now.site policy.now.stateful }
    {
        PolicyFlows {
            policy,
            flows: policy.stateful(),
        }
    }

    /// Whether the packets of a box belong to these flows. Narrows the box until this is the result for all
    /// packets that it then has.
    pub(crate) fn have_within(&self, within: &mut PacketBox) -> bool
        requires { IsBox within.old }
        ensures part { Narrows within.old within.new }
        ensures alike { (p : Packet) → IsIn within.new p → are_of self.now p ≡ result }
    {
        is_of_within(self.policy, self.flows, within)
    }

    /// Whether a packet between owners may belong to these flows, and not to `lost`, under whose description
    /// its addresses have the owners `lost_pair`.
    pub(crate) fn gain(&self, pair: OwnerPair, lost: &PolicyFlows<'_>, lost_pair: OwnerPair) -> bool
        ensures { result ≡ pair_gains self.now lost.now pair lost_pair }
    {
        match pair.flow() {
            None => false,
            Some(flow) => self.has(flow) && !lost.cover(lost_pair, self.services_of(flow)),
        }
    }

    /// Whether the flow between owners is one of these flows, and covers the services.
    fn cover(&self, pair: OwnerPair, services: &[Service]) -> bool
        ensures { result ≡ pair_covers self.now pair services.now }
    {
        match pair.flow() {
            None => false,
            Some(flow) => self.has(flow) && services_cover(self.services_of(flow), services),
        }
    }

    fn has(&self, flow: Flow) -> bool
        ensures { result ≡ has self.now.flows flow }
    {
        has_flow(self.flows, flow)
    }

    /// Returns the services of a flow. The list is empty if the flow is unrestricted.
    fn services_of(&self, flow: Flow) -> &[Service]
        ensures { result.now ≡ services_of self.now.site.services flow.from flow.to }
    {
        self.policy.services().of(flow.from, flow.to)
    }
}
