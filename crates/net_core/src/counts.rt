//! The number of invariants that fail on the requested flows.

ghost use Rattle.std.specs.Prelude.{◌↔◌, ℕ, List, IfOk, IsFalse};
ghost use Rattle.flow_set.specs.inner.Downward.{IsEdgeWise};
ghost use Rattle.flow_set.specs.inner.FlowSetView.{IsFlowSet};
ghost use Rattle.flow_set.specs.declared.flow.Flow.{Flow as Meant};
ghost use Rattle.net_core.specs.inner.Fitting.{IsNetwork};
ghost use Rattle.net_core.specs.Policies.{IsEdgeWiseNetwork, holds_on};
ghost use Rattle.net_core.specs.FailingFlows.{AreFailing};
ghost use Rattle.net_core.specs.inner.FailingFlows.{AreFailingFlows, FailsOn};

use crate::description::Description;
use flow_set::FlowSet;
use inv_any::AnyInv;
use inv_law::Invariant;
use std::alloc::{AllocError, Global};

/// Returns the number of invariants that fail on the requested flows.
pub(crate) fn count_failed(alloc: Global, description: &Description) -> Result<u16, AllocError>
    ensures { IfOk result (AreFailing description.now.invariants description.now.asked.flows) }
{
    let asked = description.asked();
    let mut count = 0;
    for invariant in description.invariants() {
        if !invariant.holds(alloc, asked)? {
            count += 1;
        }
    }
    Ok(count)
}

/// Returns the number of invariants that fail on the requested flows, given the flows on which each
/// fails.
pub(crate) fn count_failing(description: &Description, failing: &[FlowSet]) -> u16
    requires network { IsNetwork description.now }
    requires alone { IsEdgeWiseNetwork description.now }
    requires failing { AreFailingFlows description.now failing.now }
    ensures { AreFailing description.now.invariants description.now.asked.flows result }
{
    let invariants = description.invariants();
    let mut count = 0;
    for place in 0..invariants.len() {
        if fails(&invariants[place], &failing[place]) {
            count += 1;
        }
    }
    count
}

/// Whether there are flows on which the invariant fails. The invariant is not read: it is a
/// parameter only for the contract.
fn fails(_invariant: &AnyInv, failing: &FlowSet) -> bool
    ensures { (n : ℕ) (all : List Meant) → IsFlowSet n all → IsEdgeWise n (holds_on _invariant.now)
        → FailsOn _invariant.now all failing.now.flows → (IsFalse result ↔ holds_on _invariant.now all) }
{
    !failing.is_empty()
}
