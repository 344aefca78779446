//! The decision of a policy on the packets of a box. The box is narrowed to packets with the same decision.

ghost use Rattle.std.specs.Prelude.{◌≡◌, length};
ghost use Rattle.std.specs.List.{list_any};
ghost use Rattle.std.specs.Option.{option_map};
ghost use Rattle.flow_set.specs.Flow.{reverse_of};
ghost use Rattle.host_net.specs.declared.packet.Packet.{Packet};
ghost use Rattle.host_net.specs.Host.{owner_of};
ghost use Rattle.host_net.specs.Packet.{swap_of};
ghost use Rattle.host_net.specs.Service.{is_served, serves};
ghost use Rattle.header_space.specs.Boxes.{IsBox, IsIn, Narrows};
ghost use Rattle.header_space.specs.Matching.{fits};
ghost use Rattle.pkt_core.specs.FlowPolicy.{is_of};
ghost use Rattle.policy_space.specs.inner.Flows.{HaveFlow};

use flow_set::{Flow, FlowSet};
use header_space::{FieldMatch, HeaderMatch, PacketBox};
use host_net::{Hosts, Service};
use pkt_core::FlowPolicy;

/// Whether the packets of a box belong to one of the flows. The box is narrowed to packets with the same
/// result; it still contains its least packet.
pub fn is_of_within(policy: &FlowPolicy<'_>, flows: &FlowSet, within: &mut PacketBox) -> bool
    requires size { flows.now.size ≡ length policy.now.site.hosts }
    requires is_box { IsBox within.old }
    ensures part { Narrows within.old within.new }
    ensures alike { (p : Packet) → IsIn within.new p → is_of policy.now.site flows.now.flows p ≡ result }
{
    let flow = flow_within(policy.hosts(), within);
    is_of_within_flow(policy, flows, flow, within)
}

/// Returns the flow of the packets of a box. A box whose sources no host owns is not narrowed to the owner of
/// its destinations.
pub fn flow_within(hosts: &Hosts, within: &mut PacketBox) -> Option<Flow>
    requires { IsBox within.old }
    ensures part { Narrows within.old within.new }
    ensures flow { HaveFlow hosts.now within.new result }
{
    let from = source_owner(hosts, within)?;
    let to = destination_owner(hosts, within)?;
    if from == to {
        None
    } else {
        Some(Flow { from, to })
    }
}

/// Whether the packets of a box with a known flow belong to one of the flows.
pub fn is_of_within_flow(
    policy: &FlowPolicy<'_>,
    flows: &FlowSet,
    flow: Option<Flow>,
    within: &mut PacketBox,
) -> bool
    requires size { flows.now.size ≡ length policy.now.site.hosts }
    requires is_box { IsBox within.old }
    requires flow { HaveFlow policy.now.site.hosts within.old flow }
    ensures part { Narrows within.old within.new }
    ensures alike { (p : Packet) → IsIn within.new p → is_of policy.now.site flows.now.flows p ≡ result }
{
    match flow {
        None => false,
        Some(flow) => {
            flows.has(flow) && is_served_within(policy.services().of(flow.from, flow.to), within)
        }
    }
}

/// Whether the answers to the packets of a box with a known flow belong to one of the flows.
pub fn answers_are_of_within_flow(
    policy: &FlowPolicy<'_>,
    flows: &FlowSet,
    flow: Option<Flow>,
    within: &mut PacketBox,
) -> bool
    requires size { flows.now.size ≡ length policy.now.site.hosts }
    requires is_box { IsBox within.old }
    requires flow { HaveFlow policy.now.site.hosts within.old flow }
    ensures part { Narrows within.old within.new }
    ensures alike { (p : Packet) → IsIn within.new p → is_of policy.now.site flows.now.flows (swap_of p) ≡ result }
{
    let mut answers = within.swap();
    let are = is_of_within_flow(policy, flows, flow_of_answers(flow), &mut answers);
    *within = answers.swap();
    are
}

/// Returns the flow of the answers.
fn flow_of_answers(flow: Option<Flow>) -> Option<Flow>
    ensures { result ≡ option_map reverse_of flow }
{
    match flow {
        None => None,
        Some(flow) => Some(flow.back()),
    }
}

/// Returns the owner of the sources of a box.
fn source_owner(hosts: &Hosts, within: &mut PacketBox) -> Option<u16>
    requires { IsBox within.old }
    ensures part { Narrows within.old within.new }
    ensures alike { (p : Packet) → IsIn within.new p → owner_of hosts.now p.src ≡ result }
{
    let held = hosts.owner_until(within.least.src, within.greatest.src);
    within.greatest.src = held.last;
    held.host
}

/// Returns the owner of the destinations of a box.
fn destination_owner(hosts: &Hosts, within: &mut PacketBox) -> Option<u16>
    requires { IsBox within.old }
    ensures part { Narrows within.old within.new }
    ensures alike { (p : Packet) → IsIn within.new p → owner_of hosts.now p.dst ≡ result }
{
    let held = hosts.owner_until(within.least.dst, within.greatest.dst);
    within.greatest.dst = held.last;
    held.host
}

/// Whether one of the services matches the packets of a box, or there are no services.
fn is_served_within(services: &[Service], within: &mut PacketBox) -> bool
    requires { IsBox within.old }
    ensures part { Narrows within.old within.new }
    ensures alike { (p : Packet) → IsIn within.new p → is_served services.now p ≡ result }
{
    services.is_empty() || one_serves_within(services, within)
}

fn one_serves_within(services: &[Service], within: &mut PacketBox) -> bool
    requires { IsBox within.old }
    ensures part { Narrows within.old within.new }
    ensures alike { (p : Packet) → IsIn within.new p → list_any (λ s. serves s p) services.now ≡ result }
{
    for service in services {
        if within.narrow_by(&header_of(*service)) {
            return true;
        }
    }
    false
}

/// Returns the match of a service on the fields of a header.
fn header_of(service: Service) -> HeaderMatch
    ensures { (p : Packet) → serves service p ≡ fits result p }
{
    HeaderMatch {
        src: None,
        dst: None,
        proto: Some(FieldMatch {
            low: service.proto as u32,
            high: service.proto as u32,
            negated: false,
        }),
        sport: None,
        dport: Some(FieldMatch {
            low: service.low as u32,
            high: service.high as u32,
            negated: false,
        }),
    }
}
