//! The packets that pass between a host and another in one direction: the packets of their flow,
//! then answers.

ghost use Rattle.std.specs.Prelude.{◌≡◌, ◌<◌, ◌++◌, length, map, option_map, OnOk};
ghost use Rattle.host_net.specs.Service.{service_matches};
ghost use Rattle.emit_core.specs.Directions.{connects, services_on};
ghost use Rattle.emit_core.specs.inner.Link.{accept_rules, accepting, answer_rules, drop_rules, flow_rules, is_open_link, is_whole_link, link_of, prefix_rules, served};

use crate::direction::Direction;
use crate::narrowing::is_whole;
use crate::parts::{Accepted, accepting, match_peer};
use crate::permitted::permits;
use flow_set::FlowSet;
use host_net::{Prefix, Service, Services};
use ipt_rules::{Rule, Target};
use pkt_core::FlowPolicy;
use std::alloc::AllocError;
use std::marker::Model;

/// The packets that pass between a host and another in one direction.
#[derive(Drop)]
pub(super) struct Link<'a> {
    side: Direction,
    /// The services of their flow, if it is permitted.
    flow: Option<&'a [Service]>,
    /// The services of the answered flow, if answers pass.
    answers: Option<&'a [Service]>,
}

impl<'a> Model for Link<'a> {
    ghost use Rattle.std.specs.Prelude.{option_map};
    ghost use Rattle.emit_core.specs.inner.Link.{Link};

    ghost Value = { Link };

    ghost view = { λ l. record {
      side = l.side;
      flow = option_map (λ ss. ss.now) l.flow;
      answers = option_map (λ ss. ss.now) l.answers;
    } };
}

impl<'a> Link<'a> {
    pub(super) fn of(policy: &FlowPolicy<'a>, side: Direction, host: u16, other: u16) -> Link<'a>
        requires host { host < length policy.now.site.hosts }
        requires other { other < length policy.now.site.hosts }
        ensures { result ≡ link_of side policy.now host other }
    {
        let services = policy.services();
        Link {
            side,
            flow: services_in(policy.permitted(), services, side, host, other),
            answers: services_in(policy.stateful(), services, side.other(), host, other),
        }
    }

    /// Whether some packet passes.
    pub(super) fn is_open(&self) -> bool
        ensures { result ≡ is_open_link self.now }
    {
        self.flow.is_some() || self.answers.is_some()
    }

    /// Whether every packet passes.
    fn is_whole(&self) -> bool
        ensures { result ≡ is_whole_link self.now }
    {
        match self.flow {
            None => false,
            Some(services) => is_whole(services),
        }
    }

    /// Adds the rules for a prefix of the other host.
    pub(super) fn push_to_prefix(
        &self,
        rules: &mut Vec<Rule>,
        opened: bool,
        at: Prefix,
    ) -> Result<(), AllocError>
        ensures { OnOk result (rules.new.items ≡ rules.old.items ++ prefix_rules self.now opened at) }
    {
        self.push_accepts(rules, Some(at))?;
        self.push_drops(rules, opened, at)?;
        Ok(())
    }

    /// Adds the rules that accept packets at a prefix of the other host, or at every address if
    /// there is none.
    pub(super) fn push_accepts(
        &self,
        rules: &mut Vec<Rule>,
        at: Option<Prefix>,
    ) -> Result<(), AllocError>
        ensures { OnOk result (rules.new.items ≡ rules.old.items ++ accept_rules self.now at) }
    {
        self.push_flow(rules, at)?;
        self.push_answers(rules, at)?;
        Ok(())
    }

    fn push_flow(&self, rules: &mut Vec<Rule>, at: Option<Prefix>) -> Result<(), AllocError>
        ensures { OnOk result (rules.new.items ≡ rules.old.items ++ flow_rules self.now at) }
    {
        if let Some(services) = self.flow {
            push_accepted(rules, Accepted::Flow, self.side, at, services)?;
        }
        Ok(())
    }

    // If all packets pass, so do answers.
    fn push_answers(&self, rules: &mut Vec<Rule>, at: Option<Prefix>) -> Result<(), AllocError>
        ensures { OnOk result (rules.new.items ≡ rules.old.items ++ answer_rules self.now at) }
    {
        if self.is_whole() {
            return Ok(());
        }
        if let Some(services) = self.answers {
            push_accepted(rules, Accepted::Answers, self.side, at, services)?;
        }
        Ok(())
    }

    // Adds, before the rules of the rest host, the rules that drop packets which would otherwise be
    // accepted as packets of the rest host.
    fn push_drops(&self, rules: &mut Vec<Rule>, opened: bool, at: Prefix) -> Result<(), AllocError>
        ensures { OnOk result (rules.new.items ≡ rules.old.items ++ drop_rules self.now opened at) }
    {
        if opened && !self.is_whole() {
            rules.push(match_peer(self.side, Some(at), Target::Drop))?;
        }
        Ok(())
    }
}

/// Returns the services of the flow that a host has with another in that direction, if it is in the
/// set.
fn services_in<'a>(
    flows: &FlowSet,
    services: &'a Services,
    side: Direction,
    host: u16,
    other: u16,
) -> Option<&'a [Service]>
    requires host { host < flows.now.size }
    requires other { other < flows.now.size }
    ensures { option_map (λ ss. ss.now) result
        ≡ served (connects side flows.now.flows host other) (services_on side services.now host other) }
{
    let flow = side.flow(host, other);
    if !permits(flows, flow.from, flow.to) {
        return None;
    }
    Some(services.of(flow.from, flow.to))
}

/// Adds a rule for each service, or one for every packet if the flow is unrestricted.
#[tactic(auto, using(crate::proofs::NarrowedSteps::narrowings_some, crate::proofs::NarrowedSteps::narrowings_none))]
fn push_accepted(
    rules: &mut Vec<Rule>,
    accepted: Accepted,
    side: Direction,
    at: Option<Prefix>,
    services: &[Service],
) -> Result<(), AllocError>
    ensures { OnOk result (rules.new.items ≡ rules.old.items
        ++ map (accepting accepted side at) (service_matches services.now)) }
{
    if is_whole(services) {
        rules.push(accepting(accepted, side, at, None))?;
        return Ok(());
    }
    for service in services {
        rules.push(accepting(accepted, side, at, Some(*service)))?;
    }
    Ok(())
}
