//! The audit: whether rules implement a policy, for every list of events.

ghost use Rattle.std.specs.Prelude.{◌≡◌, ◌↔◌, ◌≤◌, IfOk, IfErr, OnOk, length};
ghost use Rattle.host_net.specs.Site.{site_with};
ghost use Rattle.flow_set.specs.FlowSet.{IsSubset};
ghost use Rattle.pkt_core.specs.FlowPolicy.{policy_with};
ghost use Rattle.audit_core.specs.Findings.{DifferSomewhere};
ghost use Rattle.audit_core.specs.inner.Findings.{IsFinding, IsRefused};
ghost use Rattle.audit_core.specs.inner.Faults.{IsSought};
ghost use Rattle.audit_core.specs.Places.{class_count, most_classes};
ghost use Rattle.rules_space.specs.RulesView.{rules_of};
ghost use Rattle.audit_core.specs.Sides.{sides_of};

use crate::fault::{are_right, fault_of};
use crate::finding::{AuditRefusal, Finding};
use crate::kind::Kind;
use crate::named::named_between;
use crate::part::Part;
use flow_set::FlowSet;
use host_net::{Hosts, Services};
use pkt_core::FlowPolicy;
use rules_space::RulesRef;
use std::alloc::{AllocError, Global};

const MOST_CLASSES: u128 = 4_000_000;

/// Compares rules with the policy of the permitted flows `p` and the stateful flows `s` between hosts, like
/// `audit_policy`.
pub fn audit(
    alloc: Global,
    hosts: &Hosts,
    services: &Services,
    p: &FlowSet,
    s: &FlowSet,
    text: &RulesRef<'_>,
) -> Result<Finding, AuditRefusal>
    requires permitted { p.now.size ≡ length hosts.now }
    requires stateful { s.now.size ≡ length hosts.now }
    requires within { IsSubset s.now.flows p.now.flows }
    // The two sides agree on every list of events, or this is the first short list on which they differ.
    ensures found { IfOk result (IsFinding (sides_of (policy_with (site_with hosts.now services.now) p.now.flows s.now.flows) (rules_of text.now))) }
    ensures exact { IfOk result (λ finding. (finding ≡ Finding.Equal) ↔
        (DifferSomewhere (sides_of (policy_with (site_with hosts.now services.now) p.now.flows s.now.flows) (rules_of text.now)) → ⊥)) }
    ensures few { OnOk result
        (class_count (sides_of (policy_with (site_with hosts.now services.now) p.now.flows s.now.flows) (rules_of text.now)) ≤ most_classes) }
    ensures refused { IfErr result
        (IsRefused (class_count (sides_of (policy_with (site_with hosts.now services.now) p.now.flows s.now.flows) (rules_of text.now)))) }
{
    let policy = FlowPolicy::new(hosts, services, p, s);
    audit_policy(alloc, &policy, text)
}

/// Compares rules with a policy, if there are at most 4,000,000 classes of packets.
pub fn audit_policy(
    alloc: Global,
    policy: &FlowPolicy<'_>,
    text: &RulesRef<'_>,
) -> Result<Finding, AuditRefusal>
    // The two sides agree on every list of events, or this is the first short list on which they differ.
    ensures found { IfOk result (IsFinding (sides_of policy.now (rules_of text.now))) }
    ensures exact { IfOk result (λ finding. (finding ≡ Finding.Equal) ↔
        (DifferSomewhere (sides_of policy.now (rules_of text.now)) → ⊥)) }
    ensures few { OnOk result (class_count (sides_of policy.now (rules_of text.now)) ≤ most_classes) }
    ensures refused { IfErr result (IsRefused (class_count (sides_of policy.now (rules_of text.now)))) }
{
    let count = count_classes(alloc, policy, text)?;
    if count > MOST_CLASSES {
        return Err(AuditRefusal::TooManyClasses { count });
    }
    Ok(compare_policy(alloc, policy, text)?)
}

/// Compares rules with a policy. The number of classes of packets has no limit.
pub fn compare_policy(
    alloc: Global,
    policy: &FlowPolicy<'_>,
    text: &RulesRef<'_>,
) -> Result<Finding, AllocError>
    // The two sides agree on every list of events, or this is the first short list on which they differ.
    ensures found { IfOk result (IsFinding (sides_of policy.now (rules_of text.now))) }
    ensures exact { IfOk result (λ finding. (finding ≡ Finding.Equal) ↔
        (DifferSomewhere (sides_of policy.now (rules_of text.now)) → ⊥)) }
{
    let finding = find(alloc, &Part::whole(policy, *text))?;
    Ok(finding)
}

/// Returns the number of classes of packets.
fn count_classes(
    alloc: Global,
    policy: &FlowPolicy<'_>,
    text: &RulesRef<'_>,
) -> Result<u128, AllocError>
    ensures { IfOk result (λ count. count ≡ class_count (sides_of policy.now (rules_of text.now))) }
{
    let found = named_between(alloc, policy, text)?;
    Ok(found.classes())
}

/// Returns the least fault of the first kind of list that has a fault.
fn find(alloc: Global, sides: &Part<'_>) -> Result<Finding, AllocError>
    ensures { IfOk result (IsSought sides.now) }
{
    if are_right(alloc, sides)? {
        return Ok(Finding::Equal);
    }
    if let Some(trace) = fault_of(alloc, sides, Kind::Alone)? {
        return Ok(Finding::Differ(trace));
    }
    if let Some(trace) = fault_of(alloc, sides, Kind::AfterSwap)? {
        return Ok(Finding::Differ(trace));
    }
    match fault_of(alloc, sides, Kind::AfterBoth)? {
        Some(trace) => Ok(Finding::Differ(trace)),
        None => Ok(Finding::Equal),
    }
}
