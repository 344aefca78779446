//! A minimal failing set of an invariant.

ghost use Rattle.std.specs.Prelude.{◌≡◌, [], ◌∷◌, IfOk, IsTrue};
ghost use Rattle.flow_set.specs.Flow.{IsFlow};
ghost use Rattle.flow_set.specs.FlowSet.{has, with_flow};
ghost use Rattle.flow_set.specs.inner.FlowSetView.{IsFlowSet};
ghost use Rattle.explain_core.specs.Failing.{IsLeastFailing, IsMinimalFailing};

use crate::transitions::next_transition;
use flow_set::{Flow, FlowSet};
use inv_law::Stepwise;
use std::alloc::{AllocError, Global};

/// Returns a minimal failing set of `e` with the flow `f`, for an invariant that holds on `e` and fails with
/// `f`.
///
/// Each pass adds the remaining flows one by one until the invariant fails. The last of them, the transition
/// flow, is in the result, and the flows after it are dropped. So the number of passes is the number of flows
/// of the result, and the result is the least failing set in the colexicographic order of the flows.
pub fn minimal_failing_set<I: Stepwise>(
    alloc: Global,
    inv: &I,
    e: &FlowSet,
    f: Flow,
) -> Result<FlowSet, AllocError>
    requires size { e.now.size ≡ I.size_of inv.now }
    requires flow { IsFlow e.now.size f }
    requires held { I.holds_on inv.now e.now.flows }
    requires fails { I.holds_on inv.now (with_flow e.now.flows f) → ⊥ }
    ensures size { IfOk result (λ found. found.size ≡ e.now.size) }
    ensures set { IfOk result (λ found. IsFlowSet found.size found.flows) }
    ensures minimal { IfOk result (λ found. IsMinimalFailing (I.holds_on inv.now) (with_flow e.now.flows f) found.flows) }
    ensures least { IfOk result (λ found. IsLeastFailing (I.holds_on inv.now) (with_flow e.now.flows f) found.flows) }
    ensures with { IfOk result (λ found. IsTrue (has found.flows f)) }
    ensures alone { IsTrue (I.edge_mark inv.now) → IfOk result (λ found. found.flows ≡ f ∷ []) }
{
    let mut needed = FlowSet::empty(alloc, e.size())?;
    needed.insert(f);
    let mut rest = e.copy(alloc)?;
    while let Some(found) = next_transition(alloc, inv, &needed, &rest)? {
        needed.insert(found.flow);
        rest = found.before;
    }
    Ok(needed)
}
