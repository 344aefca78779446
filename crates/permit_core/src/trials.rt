//! One trial of each invariant, in the order of the invariants.

ghost use Rattle.std.specs.Prelude.{◌≡◌, All, IfOk};
ghost use Rattle.flow_set.specs.inner.Steps.{untried};
ghost use Rattle.permit_core.specs.inner.Trials.{AreTried, EachPair};

use flow_set::FlowSet;
use inv_law::Stepwise;
use std::alloc::{AllocError, Global};

/// Returns a trial of each invariant, with the flows of `e`.
pub fn trials_of<I: Stepwise>(
    alloc: Global,
    invs: &[I],
    e: &FlowSet,
) -> Result<Vec<I::Tried>, AllocError>
    requires { All (λ inv. I.size_of inv ≡ e.now.size) invs.now }
    ensures tried { IfOk result (λ trials. AreTried I.fits I.Tried.tried invs.now trials.items e.now.flows) }
    ensures begun { IfOk result (λ trials. EachPair (λ inv t. I.Tried.tried t ≡ untried e.now) invs.now trials.items) }
{
    let mut trials = Vec::with_capacity(alloc, invs.len())?;
    for inv in invs {
        trials.push(inv.trial(alloc, e)?)?;
    }
    Ok(trials)
}
