//! Every invariant that fails with one more flow.

ghost use Rattle.std.specs.Prelude.{◌≡◌, ◌≤◌, All, IfOk, IsFalse, IsTrue, length};
ghost use Rattle.flow_set.specs.Flow.{IsFlow};
ghost use Rattle.flow_set.specs.FlowSet.{with_flow};
ghost use Rattle.permit_core.specs.inner.Trials.{AreTried, ChosenHold};
ghost use Rattle.explain_core.specs.Failing.{AreFailing};

use flow_set::{Flow, FlowSet};
use inv_law::{Invariant, Stepwise};
use permit_core::Choice;
use std::alloc::{AllocError, Global};

/// Returns the numbers, from 0 and ascending, of the chosen invariants that fail on the set with the flow.
///
/// The trials have the flows of the set, before and after the call. The set is not read: only the contract
/// refers to it.
pub fn failing_with<I: Stepwise, C: Choice<I>>(
    alloc: Global,
    choice: &C,
    invs: &[I],
    trials: &mut Vec<I::Tried>,
    _set: &FlowSet,
    f: Flow,
) -> Result<Vec<u16>, AllocError>
    requires sizes { All (λ inv. I.size_of inv ≡ _set.now.size) invs.now }
    requires flow { IsFlow _set.now.size f }
    requires numbers { length invs.now ≤ 65536 }
    requires held { ChosenHold (C.chosen choice.now) I.holds_on invs.now _set.now.flows }
    requires tried { AreTried I.fits I.Tried.tried invs.now trials.old.items _set.now.flows }
    ensures failing { IfOk result (λ numbers.
        AreFailing (C.chosen choice.now) I.holds_on invs.now (with_flow _set.now.flows f) numbers.items) }
    ensures tried { IfOk result (λ _. AreTried I.fits I.Tried.tried invs.now trials.new.items _set.now.flows) }
{
    let mut numbers = Vec::new(alloc);
    for number in 0..invs.len() {
        if fails_with(choice, &invs[number], &mut trials[number], f) {
            numbers.push(number as u16)?;
        }
    }
    Ok(numbers)
}

// Whether the invariant is chosen and fails with one more flow. The trial has the same flows before and after
// the call.
fn fails_with<I: Stepwise, C: Choice<I>>(choice: &C, inv: &I, trial: &mut I::Tried, f: Flow) -> bool
    requires flow { IsFlow (I.size_of inv.now) f }
    requires fits { I.fits inv.now trial.old }
    requires held { IsTrue (C.chosen choice.now inv.now) → I.holds_on inv.now (I.Tried.tried trial.old).flows }
    ensures chosen { IsTrue result → IsTrue (C.chosen choice.now inv.now) }
    ensures fails { IsTrue result → I.holds_on inv.now (with_flow (I.Tried.tried trial.old).flows f) → ⊥ }
    ensures holds { IsFalse result → IsTrue (C.chosen choice.now inv.now)
        → I.holds_on inv.now (with_flow (I.Tried.tried trial.old).flows f) }
    ensures fits { I.fits inv.now trial.new }
    ensures again { (I.Tried.tried trial.new).flows ≡ (I.Tried.tried trial.old).flows }
{
    if !choice.chooses(inv) {
        return false;
    }
    !inv.holds_with(trial, f)
}
