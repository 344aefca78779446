//! The flows whose answers only a stateful firewall can let pass.

ghost use Rattle.std.specs.Prelude.{◌≡◌, ◌<◌, ◌&&◌, ◌||◌, not, length, List, IfSome, MatchOption};
ghost use Rattle.std.specs.List.{list_all};
ghost use Rattle.host_net.specs.Host.{Host};
ghost use Rattle.host_net.specs.Service.{is_whole};
ghost use Rattle.host_net.specs.Site.{site_with};
ghost use Rattle.flow_set.specs.Flow.{IsFlow};
ghost use Rattle.pkt_core.specs.FlowPolicy.{policy_with};
ghost use Rattle.emit_core.specs.FlowTableEvents.{AnswersAreCovered, IsFirstUncovered, has_all_of, is_covered};

use crate::narrowing::{has_all_ports, is_whole};
use flow_set::{Flow, FlowSet};
use host_net::{Service, Services};
use pkt_core::FlowPolicy;

/// Returns the first stateful flow whose answers do not all belong to a permitted flow, or `None`
/// if there is none.
pub fn needs_state(policy: &FlowPolicy<'_>) -> Option<Flow>
    ensures barred { MatchOption result (AnswersAreCovered policy.now) (IsFirstUncovered policy.now) }
    ensures within { IfSome result (λ flow. (flow.from < length policy.now.site.hosts) × (flow.to < length policy.now.site.hosts)) }
{
    first_uncovered(policy.services(), policy.permitted(), policy.stateful())
}

fn first_uncovered(services: &Services, permitted: &FlowSet, stateful: &FlowSet) -> Option<Flow>
    requires { stateful.now.size ≡ permitted.now.size }
    ensures barred { (hosts : List Host) →
        MatchOption result (AnswersAreCovered (policy_with (site_with hosts services.now) permitted.now.flows stateful.now.flows))
        (IsFirstUncovered (policy_with (site_with hosts services.now) permitted.now.flows stateful.now.flows)) }
    ensures within { IfSome result (λ flow. (flow.from < stateful.now.size) × (flow.to < stateful.now.size)) }
{
    for flow in stateful.iter() {
        if !is_covered(services, permitted, flow) {
            return Some(flow);
        }
    }
    None
}

/// Whether all answers to the flow belong to its reverse.
fn is_covered(services: &Services, permitted: &FlowSet, flow: Flow) -> bool
    requires { IsFlow permitted.now.size flow }
    ensures { result ≡ is_covered services.now permitted.now.flows flow }
{
    permitted.has(flow.back())
        && are_all_of(
            services.of(flow.to, flow.from),
            services.of(flow.from, flow.to),
        )
}

/// Whether `services` are unrestricted, or have all ports of each protocol of `others`.
fn are_all_of(services: &[Service], others: &[Service]) -> bool
    ensures { result ≡ (is_whole services.now || (not (is_whole others.now) && list_all (has_all_of services.now) others.now)) }
{
    is_whole(services) || !is_whole(others) && are_all_of_each(services, others)
}

fn are_all_of_each(services: &[Service], others: &[Service]) -> bool
    ensures { result ≡ list_all (has_all_of services.now) others.now }
{
    others.iter().all(|other| has_all_of(services, *other))
}

/// Whether one of the services has all ports of the protocol of `other`.
fn has_all_of(services: &[Service], other: Service) -> bool
    ensures { result ≡ has_all_of services.now other }
{
    services.iter().any(|service| other.proto == service.proto && has_all_ports(*service))
}
