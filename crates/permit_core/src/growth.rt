//! Invariants on a set that grew by one flow. An edge-wise invariant is evaluated on the new flow
//! only, so a pass does not iterate over the whole set for each flow.

ghost use Rattle.std.specs.Prelude.{◌≡◌, ◌↔◌, All, IsTrue, IfOk};
ghost use Rattle.permit_core.specs.inner.Grown.{IsExtended};
ghost use Rattle.permit_core.specs.inner.Trials.{ChosenHold};

use crate::choice::Choice;
use flow_set::{Flow, FlowSet};
use inv_law::Invariant;
use std::alloc::{AllocError, Global};

/// Whether the chosen invariants hold for `set`. All of them held without the flow `added`.
pub fn chosen_still_hold<I: Invariant, C: Choice<I>>(
    alloc: Global,
    choice: &C,
    invs: &[I],
    set: &FlowSet,
    added: Flow,
) -> Result<bool, AllocError>
    requires sizes { All (λ inv. I.size_of inv ≡ set.now.size) invs.now }
    requires grown { IsExtended set.now.size (ChosenHold (C.chosen choice.now) I.holds_on invs.now) set.now.flows added }
    ensures { IfOk result (λ answer. IsTrue answer ↔ ChosenHold (C.chosen choice.now) I.holds_on invs.now set.now.flows) }
{
    for inv in invs {
        if choice.chooses(inv) {
            if !still_holds(alloc, inv, set, added)? {
                return Ok(false);
            }
        }
    }
    Ok(true)
}

/// Whether the invariant holds for `set`. It held without the flow `added`.
pub fn still_holds<I: Invariant>(
    alloc: Global,
    inv: &I,
    set: &FlowSet,
    added: Flow,
) -> Result<bool, AllocError>
    requires size { set.now.size ≡ I.size_of inv.now }
    requires grown { IsExtended (I.size_of inv.now) (I.holds_on inv.now) set.now.flows added }
    ensures { IfOk result (λ answer. IsTrue answer ↔ I.holds_on inv.now set.now.flows) }
{
    if inv.edge_wise() {
        Ok(inv.admits(added))
    } else {
        inv.holds(alloc, set)
    }
}
