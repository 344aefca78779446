//! One flow of the policy of a flow table.

ghost use Rattle.std.specs.Prelude.{◌≡◌, ◌<◌, length};
ghost use Rattle.host_net.specs.Services.{services_of};
ghost use Rattle.emit_core.specs.Directions.{connects, permits, services_on};

use crate::direction::Direction;
use crate::permitted::permits;
use host_net::Service;
use pkt_core::FlowPolicy;

/// The flow from one host to another: whether it is permitted, and its services.
#[derive(Drop)]
pub(crate) struct PolicyFlow<'a> {
    pub(crate) permitted: bool,
    pub(crate) services: &'a [Service],
}

impl<'a> PolicyFlow<'a> {
    /// Returns the flow from one host to another.
    pub(crate) fn of(policy: &FlowPolicy<'a>, from: u16, to: u16) -> PolicyFlow<'a>
        requires from { from < length policy.now.site.hosts }
        requires to { to < length policy.now.site.hosts }
        ensures permitted { result.permitted ≡ permits policy.now.permitted from to }
        ensures services { result.services.now ≡ services_of policy.now.site.services from to }
    {
        PolicyFlow {
            permitted: permits(policy.permitted(), from, to),
            services: policy.services().of(from, to),
        }
    }

    /// Returns the flow that a host has with another in a direction.
    pub(crate) fn on(
        policy: &FlowPolicy<'a>,
        side: Direction,
        host: u16,
        other: u16,
    ) -> PolicyFlow<'a>
        requires host { host < length policy.now.site.hosts }
        requires other { other < length policy.now.site.hosts }
        ensures permitted { result.permitted ≡ connects side policy.now.permitted host other }
        ensures services { result.services.now ≡ services_on side policy.now.site.services host other }
    {
        let flow = side.flow(host, other);
        PolicyFlow::of(policy, flow.from, flow.to)
    }
}
