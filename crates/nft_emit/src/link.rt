//! The verdict on the packets from one host to another.

ghost use Rattle.std.specs.Prelude.{◌≡◌, ◌<◌, ◌≤◌, ◌+◌, ◌++◌, false, true, length, option_map, IfOk, OnOk};
ghost use Rattle.host_net.specs.inner.Services.{AreServices};
ghost use Rattle.nft_emit.specs.inner.Building.{AreBuilt, Extends};
ghost use Rattle.nft_emit.specs.inner.Links.{Fits, accepts, is_all};

use crate::classes::{Chains, class_of};
use crate::rules::{is_whole, push_accepts};
use crate::served::services_in;
use host_net::Service;
use nft_rules::{End, MatchRule, Verdict};
use pkt_core::FlowPolicy;
use std::alloc::{AllocError, Global};

/// Returns the verdict on the packets from one host to another, and adds a chain if it needs one.
pub(crate) fn link_verdict(
    alloc: Global,
    chains: &mut Chains,
    policy: &FlowPolicy<'_>,
    from: u16,
    to: u16,
) -> Result<Option<Verdict>, AllocError>
    requires from { from < length policy.now.site.hosts }
    requires to { to < length policy.now.site.hosts }
    requires services { AreServices policy.now.site.services }
    requires room { length chains.old.list.items < 99999 }
    requires built { AreBuilt policy.now.site.hosts from chains.old.list.items }
    ensures kept { OnOk result (Extends chains.old.list.items chains.new.list.items) }
    ensures few { OnOk result (length chains.new.list.items ≤ length chains.old.list.items + 1) }
    ensures built { OnOk result (AreBuilt policy.now.site.hosts from chains.new.list.items) }
    ensures fits { IfOk result (λ v. Fits chains.new.list.items policy.now from to v) }
{
    let services = policy.services();
    let flow = services_in(policy.permitted(), services, from, to);
    let answers = services_in(policy.stateful(), services, to, from);
    if flow.is_none() && answers.is_none() {
        return Ok(None);
    }
    if is_all(flow) {
        return Ok(Some(Verdict::Accept));
    }
    let rules = class_rules(alloc, flow, answers)?;
    let number = class_of(alloc, chains, &rules)?;
    Ok(Some(Verdict::Goto(number)))
}

/// Whether there is a flow, and it is unrestricted.
fn is_all(flow: Option<&[Service]>) -> bool
    ensures { result ≡ is_all (option_map (λ ss. ss.now) flow.entry) }
{
    match flow {
        Some(services) => is_whole(services),
        None => false,
    }
}

/// Returns the rules that accept the packets of a flow by their destination ports, and the answers
/// of another by their source ports.
fn class_rules(
    alloc: Global,
    flow: Option<&[Service]>,
    answers: Option<&[Service]>,
) -> Result<Vec<MatchRule>, AllocError>
    ensures { IfOk result (λ rules. rules.items ≡ accepts false End.Destination (option_map (λ ss. ss.now) flow.entry)
        ++ accepts true End.Source (option_map (λ ss. ss.now) answers.entry)) }
{
    let mut rules = Vec::new(alloc);
    push_accepts(&mut rules, false, End::Destination, flow)?;
    push_accepts(&mut rules, true, End::Source, answers)?;
    Ok(rules)
}
