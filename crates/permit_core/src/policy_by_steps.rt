//! The permitted policy, found with trials: no invariant is evaluated on the whole set again.

ghost use Rattle.std.specs.Prelude.{◌≡◌, All, not, IsTrue, IfOk};
ghost use Rattle.flow_set.specs.inner.FlowSetView.{IsFlowSet};
ghost use Rattle.flow_set.specs.Conditions.{IsFirst, IsGreatest};
ghost use Rattle.permit_core.specs.Policy.{AllHold};
ghost use Rattle.permit_core.specs.inner.Tried.{ChosenTried};

use crate::choice::Every;
use crate::chosen::{step_chosen, trials_together};
use crate::policy::Together;
use crate::steps::{SteppedCondition, first_subset_by_steps};
use crate::tried::TriedInvariant;
use flow_set::{Flow, FlowSet};
use inv_law::Stepwise;
use std::alloc::{AllocError, Global};

/// Returns the result of `permit`, using one trial of each invariant that is not edge-wise. The
/// trials are allocated first; after that only the result allocates memory.
pub fn permit_by_steps<I: Stepwise>(
    alloc: Global,
    invs: &[I],
    asked: &FlowSet,
) -> Result<FlowSet, AllocError>
    requires { All (λ inv. I.size_of inv ≡ asked.now.size) invs.now }
    ensures size { IfOk result (λ p. p.size ≡ asked.now.size) }
    ensures set { IfOk result (λ p. IsFlowSet p.size p.flows) }
    ensures first { IfOk result (λ p. IsFirst (AllHold I.holds_on invs.now) asked.now.flows p.flows) }
    ensures greatest { All (λ inv. IsTrue (I.edge_mark inv)) invs.now
        → IfOk result (λ p. IsGreatest (AllHold I.holds_on invs.now) asked.now.flows p.flows) }
{
    let size = asked.size();
    let none = FlowSet::empty(alloc, size)?;
    let mut trials = trials_together(alloc, &Every, invs, &none)?;
    first_subset_by_steps(alloc, &Together { invs, size }, &mut trials, asked)
}

impl<'a, I: Stepwise> SteppedCondition for Together<'a, I> {
    type State = Vec<TriedInvariant<'a, I, I::Tried>>;

    ghost size_of = { λ c. c.size };

    ghost meets_on = { λ c. AllHold I.holds_on c.invs.now };

    ghost has_come_to = { λ c trials e. All (λ inv. I.size_of inv ≡ c.size) c.invs.now
        × ChosenTried I.fits I.Tried.tried (λ inv. not (I.edge_mark inv)) c.invs.now trials.items e };

    fn goes_on(
        &self,
        trials: &mut Vec<TriedInvariant<'a, I, I::Tried>>,
        _kept: &FlowSet,
        f: Flow,
    ) -> bool {
        step_chosen(&Every, self.invs, trials, f)
    }
}
