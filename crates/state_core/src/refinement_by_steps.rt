//! The stateful flows, found with trials. Each trial begins with the permitted flows and adds the
//! answers as steps.

ghost use Rattle.std.specs.Prelude.{◌≡◌, ◌&&◌, All, not, IfOk};
ghost use Rattle.flow_set.specs.FlowSet.{with_back};
ghost use Rattle.flow_set.specs.inner.FlowSetView.{IsFlowSet};
ghost use Rattle.flow_set.specs.Conditions.{IsFirst};
ghost use Rattle.state_core.specs.Stateful.{is_strict, StrictHold, CompliesWithEach};
ghost use Rattle.permit_core.specs.inner.Tried.{ChosenTried};

use crate::refinement::{Answered, Strict};
use flow_set::{Flow, FlowSet};
use inv_law::Stepwise;
use permit_core::{
    SteppedCondition, TriedInvariant, first_subset_by_steps, step_chosen, trials_together,
};
use std::alloc::{AllocError, Global};

/// Returns the result of `refine`, using one trial of each strict invariant that is not edge-wise.
/// The trials are allocated first; after that only the result allocates memory.
pub fn refine_by_steps<I: Stepwise>(
    alloc: Global,
    invs: &[I],
    p: &FlowSet,
) -> Result<FlowSet, AllocError>
    requires sizes { All (λ inv. I.size_of inv ≡ p.now.size) invs.now }
    requires permitted { All (λ inv. I.holds_on inv p.now.flows) invs.now }
    ensures size { IfOk result (λ s. s.size ≡ p.now.size) }
    ensures set { IfOk result (λ s. IsFlowSet s.size s.flows) }
    ensures first { IfOk result (λ s. IsFirst
        (λ answered. StrictHold I.strategy_of I.edge_mark I.holds_on invs.now (with_back p.now.flows answered))
        p.now.flows s.flows) }
    ensures complies { IfOk result (λ s. CompliesWithEach I.strategy_of I.holds_on invs.now p.now.flows s.flows) }
{
    let mut trials = trials_together(alloc, &Strict, invs, p)?;
    let answered = Answered {
        invs,
        permitted: p,
        size: p.size(),
    };
    first_subset_by_steps(alloc, &answered, &mut trials, p)
}

impl<'a, I: Stepwise> SteppedCondition for Answered<'a, I> {
    type State = Vec<TriedInvariant<'a, I, I::Tried>>;

    ghost size_of = { λ c. c.size };

    ghost meets_on = { λ c s. StrictHold I.strategy_of I.edge_mark I.holds_on c.invs.now (with_back c.permitted.now.flows s) };

    ghost has_come_to = { λ c trials s. (c.permitted.now.size ≡ c.size) × IsFlowSet c.size c.permitted.now.flows
        × All (λ inv. I.size_of inv ≡ c.size) c.invs.now
        × ChosenTried I.fits I.Tried.tried (λ inv. is_strict (I.strategy_of inv) (I.edge_mark inv) && not (I.edge_mark inv)) c.invs.now trials.items (with_back c.permitted.now.flows s) };

    fn goes_on(
        &self,
        trials: &mut Vec<TriedInvariant<'a, I, I::Tried>>,
        _kept: &FlowSet,
        f: Flow,
    ) -> bool {
        let answer = f.back();
        // An answer that is itself a permitted flow adds nothing.
        if self.permitted.has(answer) {
            return true;
        }
        step_chosen(&Strict, self.invs, trials, answer)
    }
}
