//! The transition flow of an invariant: the first flow with which it fails, if flows are added one by one.

ghost use Rattle.std.specs.Prelude.{◌≡◌, IfNone, IfOk, IfSome};
ghost use Rattle.std.specs.List.{fold};
ghost use Rattle.flow_set.specs.FlowSet.{with_flow};
ghost use Rattle.flow_set.specs.inner.FlowSetView.{IsFlowSet};
ghost use Rattle.explain_core.specs.inner.Transitions.{IsTransition};

use flow_set::{Flow, FlowSet};
use inv_law::Stepwise;
use std::alloc::{AllocError, Global};

/// A transition flow, and the flows before it.
#[derive(Drop)]
pub(crate) struct Transition {
    pub(crate) flow: Flow,
    pub(crate) before: FlowSet,
}

/// Returns the first flow of `rest` with which the invariant fails, if they are added to `needed` one by one.
/// Returns `None` if it fails on `needed`.
pub(crate) fn next_transition<I: Stepwise>(
    alloc: Global,
    inv: &I,
    needed: &FlowSet,
    rest: &FlowSet,
) -> Result<Option<Transition>, AllocError>
    requires needed_size { needed.now.size ≡ I.size_of inv.now }
    requires rest_size { rest.now.size ≡ I.size_of inv.now }
    requires fails { I.holds_on inv.now (fold with_flow needed.now.flows rest.now.flows) → ⊥ }
    ensures none { IfOk result (λ found. IfNone found (I.holds_on inv.now needed.now.flows → ⊥)) }
    ensures size { IfOk result (λ found. IfSome found (λ transition. transition.before.size ≡ rest.now.size)) }
    ensures transition { IfOk result (λ found. IfSome found (λ transition.
        IsTransition (I.holds_on inv.now) needed.now.flows rest.now.flows transition.flow transition.before.flows)) }
{
    if !inv.holds(alloc, needed)? {
        return Ok(None);
    }
    let mut trial = inv.trial(alloc, needed)?;
    let mut before = FlowSet::empty(alloc, rest.size())?;
    for flow in rest.iter() {
        if !inv.holds_with(&mut trial, flow) {
            return Ok(Some(Transition { flow, before }));
        }
        inv.step(&mut trial, flow);
        before.insert(flow);
    }
    Ok(None)
}
