//! The invariant that denies a flow, found with trials of the policy.

ghost use Rattle.std.specs.Prelude.{◌≡◌, ◌≤◌, All, length, IsSome, MatchOption};
ghost use Rattle.flow_set.specs.Flow.{IsFlow};
ghost use Rattle.flow_set.specs.FlowSet.{with_flow};
ghost use Rattle.permit_core.specs.Policy.{AllHold, IsFirstFailing};
ghost use Rattle.permit_core.specs.inner.Denied.{IsDenied};
ghost use Rattle.permit_core.specs.inner.Trials.{AreTried};

use flow_set::{Flow, FlowSet};
use inv_law::Stepwise;

/// Returns the result of `blame` for a permitted set, using trials with its flows. The call
/// restores the flows of the trials, so they can be used for every flow of a report. The set is not
/// read: it is a parameter only for the contract.
pub fn blame_by_steps<I: Stepwise>(
    invs: &[I],
    trials: &mut Vec<I::Tried>,
    _permitted: &FlowSet,
    f: Flow,
) -> Option<u16>
    requires sizes { All (λ inv. I.size_of inv ≡ _permitted.now.size) invs.now }
    requires flow { IsFlow _permitted.now.size f }
    requires numbers { length invs.now ≤ 65536 }
    requires held { AllHold I.holds_on invs.now _permitted.now.flows }
    requires tried { AreTried I.fits I.Tried.tried invs.now trials.old.items _permitted.now.flows }
    ensures least { let with = with_flow _permitted.now.flows f in
        MatchOption result
        (AllHold I.holds_on invs.now with)
        (λ number. IsFirstFailing I.holds_on invs.now with number) }
    ensures denied { IsDenied (AllHold I.holds_on invs.now) _permitted.now.flows f → IsSome result }
    ensures tried { AreTried I.fits I.Tried.tried invs.now trials.new.items _permitted.now.flows }
{
    for number in 0..invs.len() {
        if !invs[number].holds_with(&mut trials[number], f) {
            return Some(number as u16);
        }
    }
    None
}
