//! The pass over a condition that is tested in steps. It tests one more flow at a time, and
//! allocates only its result.

ghost use Rattle.std.specs.Prelude.{◌≡◌, ◌↔◌, ℕ, List, [], IsTrue, IfOk, if◌then◌else◌};
ghost use Rattle.flow_set.specs.declared.flow.Flow.{Flow};
ghost use Rattle.flow_set.specs.FlowSet.{with_flow};
ghost use Rattle.flow_set.specs.inner.FlowSetView.{IsFlowSet};
ghost use Rattle.flow_set.specs.Conditions.{IsFirst};
ghost use Rattle.flow_set.specs.inner.Downward.{IsDownwardClosed};
ghost use Rattle.permit_core.specs.inner.Grown.{IsNew};

use flow_set::{Flow, FlowSet};
use std::alloc::{AllocError, Global};

/// A condition on sets of flows that is tested in steps. Its state is a separate value.
pub trait SteppedCondition {
    type State;

    // The number of hosts.
    ghost size_of: { Self → ℕ };

    // The sets for which the condition holds.
    ghost meets_on: { Self → List Flow → Type 0 };

    // The relation between a state and the flows that it has processed.
    ghost has_come_to: { Self → Self.State → List Flow → Type 0 };

    /// Whether the condition holds with one more flow. If it does, the state advances by this flow.
    fn goes_on(&self, state: &mut Self::State, kept: &FlowSet, f: Flow) -> bool
        requires come { has_come_to self.now state.old kept.now.flows }
        requires new { IsNew (size_of self.now) kept.now.flows f }
        requires held { meets_on self.now kept.now.flows }
        ensures answer { IsTrue result ↔ meets_on self.now (with_flow kept.now.flows f) }
        ensures come { has_come_to self.now state.new (if result then with_flow kept.now.flows f else kept.now.flows) };
}

/// Returns the first subset of `all` that satisfies the condition, like `first_subset`. The state,
/// initially without flows, advances to this subset.
pub fn first_subset_by_steps<C: SteppedCondition>(
    alloc: Global,
    condition: &C,
    state: &mut C::State,
    all: &FlowSet,
) -> Result<FlowSet, AllocError>
    requires begin { C.has_come_to condition.now state.old [] }
    requires size { all.now.size ≡ C.size_of condition.now }
    requires downward { IsDownwardClosed all.now.size (C.meets_on condition.now) }
    requires nothing { C.meets_on condition.now [] }
    ensures size { IfOk result (λ first. first.size ≡ all.now.size) }
    ensures set { IfOk result (λ first. IsFlowSet first.size first.flows) }
    ensures first { IfOk result (λ first. IsFirst (C.meets_on condition.now) all.now.flows first.flows) }
    ensures come { IfOk result (λ first. C.has_come_to condition.now state.new first.flows) }
{
    let mut kept = FlowSet::empty(alloc, all.size())?;
    for f in all.iter() {
        if condition.goes_on(state, &kept, f) {
            kept.insert(f);
        }
    }
    Ok(kept)
}
