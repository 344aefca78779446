//! The flows of a description with resolved hosts: their refusals, and the set of requested flows.
ghost use Rattle.std.specs.Prelude.{◌≡◌, ◌≤◌, Some, find, All, IsTrue, if◌then◌else◌};
ghost use Rattle.desc_core.specs.Description.{ok_unless_refused};
ghost use Rattle.desc_core.specs.inner.Parts.{self_found, twice_found};
ghost use Rattle.desc_core.specs.inner.Reads.{Reads};
ghost use Rattle.desc_core.specs.declared.fault.DescFault.TheVariants.{Refused};
ghost use Rattle.desc_form.specs.Refusals.{refused_by};
ghost use Rattle.desc_form.specs.declared.refusal.Place.TheVariants.{FlowAt};
ghost use Rattle.desc_form.specs.declared.refusal.Why.TheVariants.{DuplicateFlow};
ghost use Rattle.flow_set.specs.EveryFlow.{every_flow};
ghost use Rattle.flow_set.specs.Flow.{IsFlow, same_flow};
ghost use Rattle.flow_set.specs.FlowSet.{has, set_of};
ghost use Rattle.text_core.specs.FirstMatch.{numbered};

use crate::fault::DescFault;
use desc_form::{Place, Refusal, Why};
use flow_set::{Flow, FlowSet};
use std::alloc::Global;

/// Returns the refusal of a flow whose two ends are equal.
pub(crate) fn self_flow(flows: &[Flow]) -> Option<Refusal>
    ensures { result ≡ self_found flows.now }
{
    for (index, flow) in flows.iter().enumerate() {
        if flow.from == flow.to {
            return Some(Refusal::at(Why::SelfFlow, Place::FlowAt(index as u64 + 1)));
        }
    }
    None
}

/// Returns the requested flows between `count` hosts: the listed ones, or every flow if none are
/// given; or the refusal of a flow that is listed twice.
pub(crate) fn asked_flows(
    alloc: Global,
    count: u16,
    given: bool,
    flows: &[Flow],
) -> Result<FlowSet, DescFault>
    requires small { count ≤ 256 }
    requires flows { All (IsFlow count) flows.now }
    ensures { Reads result (ok_unless_refused (twice_found flows.now)
        (record { size = count; flows = if given then set_of flows.now else every_flow count })) }
{
    let listed = listed_flows(alloc, count, flows)?;
    if given {
        return Ok(listed);
    }
    Ok(FlowSet::full(alloc, count)?)
}

/// Returns the flows as a set. The search for an earlier flow runs only if one is in the set
/// already.
#[tactic(auto, unfolding(flow_set::specs::FlowSet::set_of))]
fn listed_flows(alloc: Global, count: u16, flows: &[Flow]) -> Result<FlowSet, DescFault>
    requires small { count ≤ 256 }
    requires flows { All (IsFlow count) flows.now }
    ensures { Reads result (ok_unless_refused (twice_found flows.now) (record { size = count; flows = set_of flows.now })) }
{
    let mut listed = FlowSet::empty(alloc, count)?;
    for (index, flow) in flows.iter().enumerate() {
        if !listed.insert(*flow) {
            let earlier = number_of(*flow, &flows[..index]);
            return Err(listed_before(index as u64 + 1, earlier));
        }
    }
    Ok(listed)
}

/// Returns the number, from 1, of the first flow that is equal to `flow`.
fn number_of(flow: Flow, flows: &[Flow]) -> u64
    requires { IsTrue (has flows.now flow) }
    ensures { find (λ f. same_flow flow f.what) (numbered flows.now) ≡ Some (record { number = result; what = flow }) }
{
    let mut index = 0;
    while flow != flows[index] {
        index += 1;
    }
    index as u64 + 1
}

/// Returns the refusal of a flow that is listed twice.
fn listed_before(later: u64, earlier: u64) -> DescFault
    ensures { result ≡ Refused (refused_by DuplicateFlow (FlowAt later) earlier) }
{
    let refusal = Refusal::at(Why::DuplicateFlow, Place::FlowAt(later));
    DescFault::Refused(refusal.with_other(earlier))
}
