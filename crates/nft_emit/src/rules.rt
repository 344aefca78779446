//! The rules that accept the packets of a flow, or the answers to it.

ghost use Rattle.std.specs.Prelude.{◌≡◌, ◌++◌, map, option_map, OnOk};
ghost use Rattle.host_net.specs.Service.{has_all_ports, is_whole, service_matches};
ghost use Rattle.nft_emit.specs.inner.Links.{accept, accepts, port_match, service_match};

use host_net::Service;
use nft_rules::{End, MatchRule, PortMatch, ServiceMatch, Verdict};
use std::alloc::AllocError;

/// Adds the rules that accept the packets of a flow, or the answers to it, if there is a flow.
pub(crate) fn push_accepts(
    rules: &mut Vec<MatchRule>,
    established: bool,
    end: End,
    services: Option<&[Service]>,
) -> Result<(), AllocError>
    ensures { OnOk result (rules.new.items ≡ rules.old.items ++ accepts established end (option_map (λ ss. ss.now) services.entry)) }
{
    if let Some(services) = services {
        push_services(rules, established, end, services)?;
    }
    Ok(())
}

/// Adds a rule for each service, or a rule for every packet if the flow is unrestricted.
#[tactic(auto, using(crate::proofs::LinkLaws::matches_some, crate::proofs::LinkLaws::matches_none))]
fn push_services(
    rules: &mut Vec<MatchRule>,
    established: bool,
    end: End,
    services: &[Service],
) -> Result<(), AllocError>
    ensures { OnOk result (rules.new.items ≡ rules.old.items ++ map (accept established end) (service_matches services.now)) }
{
    if is_whole(services) {
        rules.push(accept(established, end, None))?;
        return Ok(());
    }
    for service in services {
        rules.push(accept(established, end, Some(*service)))?;
    }
    Ok(())
}

pub(crate) fn is_whole(services: &[Service]) -> bool
    ensures { result ≡ is_whole services.now }
{
    services.is_empty()
}

fn accept(established: bool, end: End, service: Option<Service>) -> MatchRule
    ensures { result ≡ accept established end service }
{
    MatchRule {
        established,
        service: service_match(end, service),
        verdict: Verdict::Accept,
    }
}

fn service_match(end: End, service: Option<Service>) -> Option<ServiceMatch>
    ensures { result ≡ option_map (service_match end) service }
{
    match service {
        Some(service) => Some(ServiceMatch {
            proto: service.proto,
            ports: port_match(end, service),
        }),
        None => None,
    }
}

/// Returns the match on the ports of a service, or `None` if it has all ports.
fn port_match(end: End, service: Service) -> Option<PortMatch>
    ensures { result ≡ port_match end service }
{
    if has_all_ports(service) {
        return None;
    }
    Some(PortMatch {
        end,
        low: service.low,
        high: service.high,
    })
}

fn has_all_ports(service: Service) -> bool
    ensures { result ≡ has_all_ports service }
{
    service.low == 0 && service.high == u16::MAX
}
