//! The flows on which single invariants fail, maintained while flows are added and removed.

ghost use Rattle.std.specs.Prelude.{◌≡◌, IfOk, IsFalse, IsTrue};
ghost use Rattle.flow_set.specs.Flow.{IsFlow};
ghost use Rattle.flow_set.specs.FlowSet.{has};
ghost use Rattle.inv_any.specs.Templates.{meaning_of};
ghost use Rattle.net_core.specs.inner.Asking.{asking_where, flows_where};
ghost use Rattle.net_core.specs.Policies.{IsEdgeWiseNetwork, edge_mark};
ghost use Rattle.net_core.specs.inner.FailingFlows.{AreFailingFlows, FailsIn};

use crate::description::Description;
use crate::one_flow::set_flow;
use flow_set::{Flow, FlowSet};
use inv_any::AnyInv;
use inv_law::Invariant;
use permit_core::offending_by_steps;
use std::alloc::{AllocError, Global};

/// Returns, for each invariant, the requested flows on which it fails.
pub(crate) fn failing_flows(
    alloc: Global,
    description: &Description,
) -> Result<Vec<FlowSet>, AllocError>
    requires { IsEdgeWiseNetwork description.now }
    ensures { IfOk result (λ failing. AreFailingFlows description.now failing.items) }
{
    let asked = description.asked();
    let mut failing = Vec::new(alloc);
    for invariant in description.invariants() {
        failing.push(failing_on(alloc, invariant, asked)?)?;
    }
    Ok(failing)
}

/// Returns the flows on which the invariant fails.
fn failing_on(alloc: Global, invariant: &AnyInv, asked: &FlowSet) -> Result<FlowSet, AllocError>
    requires size { asked.now.size ≡ (meaning_of invariant.now).size }
    requires alone { IsTrue (edge_mark invariant.now) }
    ensures { IfOk result (FailsIn asked.now.size asked.now.flows invariant.now) }
{
    let size = asked.size();
    match offending_by_steps(alloc, invariant, asked)? {
        Some(failing) => Ok(failing),
        None => FlowSet::empty(alloc, size),
    }
}

/// Updates the flows on which invariants fail by a flow that is added to the requested flows, or
/// removed.
pub(crate) fn change_failing(
    description: &Description,
    failing: &mut Vec<FlowSet>,
    flow: Flow,
    asked: bool,
)
    requires flow { IsFlow description.now.asked.size flow }
    requires fresh { IsTrue asked → IsFalse (has description.now.asked.flows flow) }
    requires failing { AreFailingFlows description.now failing.old.items }
    ensures { AreFailingFlows (asking_where asked description.now flow) failing.new.items }
{
    let _asked = description.asked();
    let invariants = description.invariants();
    for place in 0..invariants.len() {
        change_where_failing(
            description,
            &invariants[place],
            &mut failing[place],
            flow,
            asked,
        );
    }
}

/// The same for one invariant. An added flow is not inserted if the invariant admits it. The
/// description is not read: it is a parameter only for the contract.
fn change_where_failing(
    _description: &Description,
    invariant: &AnyInv,
    failing: &mut FlowSet,
    flow: Flow,
    asked: bool,
)
    requires size { (meaning_of invariant.now).size ≡ _description.now.asked.size }
    requires flow { IsFlow _description.now.asked.size flow }
    requires fresh { IsTrue asked → IsFalse (has _description.now.asked.flows flow) }
    requires failing { FailsIn _description.now.asked.size _description.now.asked.flows invariant.now failing.old }
    ensures { FailsIn _description.now.asked.size (flows_where asked _description.now.asked.flows flow) invariant.now failing.new }
{
    if asked && invariant.admits(flow) {
        return;
    }
    set_flow(failing, flow, asked);
}
