//! Chosen invariants on a set that grows by one flow at a time. An edge-wise invariant is evaluated
//! on the new flow and has no state; every other invariant has a trial.

ghost use Rattle.std.specs.Prelude.{◌≡◌, ◌↔◌, ◌&&◌, ◌∷◌, [], All, not, IsTrue, IfOk, if◌then◌else◌};
ghost use Rattle.flow_set.specs.Flow.{IsFlow};
ghost use Rattle.flow_set.specs.FlowSet.{with_flow};
ghost use Rattle.permit_core.specs.inner.Tried.{AllStep, CanTake, ChosenTried};
ghost use Rattle.permit_core.specs.inner.Trials.{ChosenHold};

use crate::choice::{Choice, is_chosen_edge_wise, is_chosen_path_based};
use crate::tried::TriedInvariant;
use flow_set::{Flow, FlowSet};
use inv_law::{Invariant, Stepwise};
use std::alloc::{AllocError, Global};

/// Returns a trial, with the flows of `e`, of each chosen invariant that is not edge-wise.
pub fn trials_together<'a, I: Stepwise, C: Choice<I>>(
    alloc: Global,
    choice: &C,
    invs: &'a [I],
    e: &FlowSet,
) -> Result<Vec<TriedInvariant<'a, I, I::Tried>>, AllocError>
    requires { All (λ inv. I.size_of inv ≡ e.now.size) invs.now }
    ensures { IfOk result (λ trials. ChosenTried I.fits I.Tried.tried
        (λ inv. C.chosen choice.now inv && not (I.edge_mark inv)) invs.now trials.items e.now.flows) }
{
    let mut trials = Vec::with_capacity(alloc, invs.len())?;
    for inv in invs {
        if is_chosen_path_based(choice, inv) {
            trials.push(TriedInvariant::new(alloc, inv, e)?)?;
        }
    }
    Ok(trials)
}

/// Whether the chosen invariants hold with the flow. If they do, the flow is added to the trials;
/// otherwise the trials have the same flows as before.
pub fn step_chosen<'a, I: Stepwise, C: Choice<I>>(
    choice: &C,
    invs: &[I],
    trials: &mut Vec<TriedInvariant<'a, I, I::Tried>>,
    f: Flow,
) -> bool
    requires flow { All (λ inv. IsFlow (I.size_of inv) f) invs.now }
    requires can { All (CanTake I.size_of I.holds_on I.fits I.Tried.tried f) trials.old.items }
    ensures answer { IsTrue result
        ↔ (ChosenHold (λ inv. C.chosen choice.now inv && I.edge_mark inv) I.holds_on invs.now (f ∷ [])
        × All (λ t. I.holds_on t.invariant (with_flow (I.Tried.tried t.trial).flows f)) trials.old.items) }
    ensures flows { AllStep I.fits I.Tried.tried (λ fs. if result then with_flow fs f else fs) trials.old.items trials.new.items }
{
    // Edge-wise invariants are evaluated first, because they are cheapest.
    if !chosen_admit(choice, invs, f) {
        return false;
    }
    if !all_hold_with(trials, f) {
        return false;
    }
    step_all(trials, f);
    true
}

// Whether the chosen edge-wise invariants admit the flow.
fn chosen_admit<I: Invariant, C: Choice<I>>(choice: &C, invs: &[I], f: Flow) -> bool
    requires { All (λ inv. IsFlow (I.size_of inv) f) invs.now }
    ensures { IsTrue result
        ↔ ChosenHold (λ inv. C.chosen choice.now inv && I.edge_mark inv) I.holds_on invs.now (f ∷ []) }
{
    for inv in invs {
        if is_chosen_edge_wise(choice, inv) {
            if !inv.admits(f) {
                return false;
            }
        }
    }
    true
}

// Whether each invariant holds with one more flow. The flows of the trials are unchanged.
fn all_hold_with<'a, I: Stepwise>(
    trials: &mut Vec<TriedInvariant<'a, I, I::Tried>>,
    f: Flow,
) -> bool
    requires { All (CanTake I.size_of I.holds_on I.fits I.Tried.tried f) trials.old.items }
    ensures answer { IsTrue result
        ↔ All (λ t. I.holds_on t.invariant (with_flow (I.Tried.tried t.trial).flows f)) trials.old.items }
    ensures flows { AllStep I.fits I.Tried.tried (λ fs. fs) trials.old.items trials.new.items }
{
    for i in 0..trials.len() {
        if !trials[i].holds_with(f) {
            return false;
        }
    }
    true
}

// Adds the flow to each trial.
fn step_all<'a, I: Stepwise>(trials: &mut Vec<TriedInvariant<'a, I, I::Tried>>, f: Flow)
    requires { All (CanTake I.size_of I.holds_on I.fits I.Tried.tried f) trials.old.items }
    ensures { AllStep I.fits I.Tried.tried (λ fs. with_flow fs f) trials.old.items trials.new.items }
{
    for i in 0..trials.len() {
        trials[i].step(f);
    }
}
