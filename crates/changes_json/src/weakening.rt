//! What a change of a network weakens: flows that no invariant denies any more, and new gaps.

ghost use Rattle.std.specs.Prelude.{◌≡◌, All, IfOk, length, if◌then◌else◌};
ghost use Rattle.change_core.specs.Weaker.{AreWeaker};
ghost use Rattle.flow_set.specs.Flow.{IsFlow};
ghost use Rattle.flow_set.specs.FlowSet.{has, with_flow};
ghost use Rattle.flow_set.specs.declared.flow.Flow.{Flow};
ghost use Rattle.net_core.specs.Network.{site_of};
ghost use Rattle.net_core.specs.Policies.{IsPolicyOf};
ghost use Rattle.changes_json.specs.Weakening.{IsWeakening, flows_where, is_denied, is_free};
ghost use Rattle.changes_json.specs.inner.Wanting.{IsJudgedBy, is_wanted};

use crate::weakened::{Weakened, with_denials};
use change_core::{Weaker, new_gaps, weaker_flows};
use explain_core::Finding;
use flow_set::{Flow, FlowSet};
use host_net::Hosts;
use net_core::{Description, Policy};
use std::alloc::{AllocError, Global};
use why_json::{denials_of, is_gap, standing_of};

/// What a change weakens.
#[derive(Drop)]
pub struct Weakening {
    /// The flows that no invariant denies any more, with the invariants that denied them.
    pub weaker: Vec<Weakened>,
    /// The new gaps, as flows of the new network.
    pub gaps: FlowSet,
}

/// Returns what the change from the old network with its policy `before` to the new one with its policy
/// `after` weakens.
pub fn weakening_of(
    alloc: Global,
    old: &Description,
    before: &Policy,
    new: &Description,
    after: &Policy,
) -> Result<Weakening, AllocError>
    requires before { IsPolicyOf old.now before.now }
    requires after { IsPolicyOf new.now after.now }
    ensures { IfOk result (IsWeakening old.now before.now new.now after.now) }
{
    let old_denials = denials_of(alloc, old, before)?;
    let denials = denials_of(alloc, new, after)?;
    let weaker = weaker_between(alloc, old, &old_denials, new, &denials)?;
    let weaker = with_denials(alloc, &weaker, old.hosts().count(), &old_denials)?;
    let old_gaps = flows_where(alloc, old.hosts(), &old_denials, Wanted::Gap(old, before))?;
    let gaps = flows_where(alloc, new.hosts(), &denials, Wanted::Gap(new, after))?;
    let gaps = new_gaps(alloc, old.hosts(), &old_gaps, new.hosts(), &gaps)?;
    let _ = gaps.size();
    Ok(Weakening { weaker, gaps })
}

fn weaker_between(
    alloc: Global,
    old: &Description,
    old_denials: &[Finding],
    new: &Description,
    denials: &[Finding],
) -> Result<Vec<Weaker>, AllocError>
    requires old { All (λ x. IsFlow (length old.now.hosts) x.flow) old_denials.now }
    requires new { All (λ x. IsFlow (length new.now.hosts) x.flow) denials.now }
    ensures { IfOk result (λ list. AreWeaker (site_of old.now) (flows_where is_denied old_denials.now)
        (site_of new.now) (flows_where is_free denials.now) list.items) }
{
    let denied = flows_where(alloc, old.hosts(), old_denials, Wanted::Denied)?;
    let free = flows_where(alloc, new.hosts(), denials, Wanted::Free)?;
    weaker_flows(
        alloc,
        old.hosts(),
        old.services(),
        &denied,
        new.hosts(),
        new.services(),
        &free,
    )
}

// A condition on findings.
#[derive(Clone, Copy)]
enum Wanted<'a> {
    Denied,
    Free,
    Gap(&'a Description, &'a Policy),
}

impl<'a> Wanted<'a> {
    // Whether the finding satisfies the condition.
    fn has(&self, finding: &Finding) -> bool
        requires { IsJudgedBy self.now finding.now }
        ensures { result ≡ is_wanted self.now finding.now }
    {
        match self {
            Wanted::Denied => !finding.by.is_empty(),
            Wanted::Free => finding.by.is_empty(),
            Wanted::Gap(description, policy) => {
                is_gap(standing_of(description, policy, finding.flow), &finding.by)
            }
        }
    }
}

// Returns the flows of the findings that satisfy the condition.
fn flows_where(
    alloc: Global,
    hosts: &Hosts,
    found: &[Finding],
    wanted: Wanted<'_>,
) -> Result<FlowSet, AllocError>
    requires flows { All (λ x. IsFlow (length hosts.now) x.flow) found.now }
    requires judged { All (IsJudgedBy wanted) found.now }
    ensures size { IfOk result (λ set. set.size ≡ length hosts.now) }
    ensures flows { IfOk result (λ set. (f : Flow) → has set.flows f
        ≡ has (flows_where (is_wanted wanted.entry) found.now) f) }
{
    let mut set = FlowSet::empty(alloc, hosts.count())?;
    for finding in found {
        insert_if(&mut set, finding.flow, wanted.has(finding));
    }
    Ok(set)
}

fn insert_if(set: &mut FlowSet, flow: Flow, wanted: bool)
    requires { IsFlow set.old.size flow }
    ensures { set.new ≡ (if wanted then record set.old { flows = with_flow set.old.flows flow } else set.old) }
{
    if wanted {
        set.insert(flow);
    }
}
