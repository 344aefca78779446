//! The stateful flows of a permitted policy.

ghost use Rattle.std.specs.Prelude.{◌≡◌, All, IfOk};
ghost use Rattle.flow_set.specs.FlowSet.{with_back};
ghost use Rattle.flow_set.specs.inner.FlowSetView.{IsFlowSet};
ghost use Rattle.flow_set.specs.Conditions.{IsFirst};
ghost use Rattle.state_core.specs.Stateful.{is_strict, StrictHold, CompliesWithEach};

use crate::answers::with_answers;
use flow_set::{Flow, FlowSet};
use inv_law::{Invariant, Strategy};
use permit_core::{Choice, Condition, chosen_still_hold, first_subset};
use std::alloc::{AllocError, Global};

/// Returns the first subset of `p` whose answers violate no strict invariant. Every invariant has
/// to hold for `p`; then `p` with these answers complies with all of them.
pub fn refine<I: Invariant>(alloc: Global, invs: &[I], p: &FlowSet) -> Result<FlowSet, AllocError>
    requires sizes { All (λ inv. I.size_of inv ≡ p.now.size) invs.now }
    requires permitted { All (λ inv. I.holds_on inv p.now.flows) invs.now }
    ensures size { IfOk result (λ s. s.size ≡ p.now.size) }
    ensures set { IfOk result (λ s. IsFlowSet s.size s.flows) }
    ensures first { IfOk result (λ s. IsFirst
        (λ answered. StrictHold I.strategy_of I.edge_mark I.holds_on invs.now (with_back p.now.flows answered))
        p.now.flows s.flows) }
    ensures complies { IfOk result (λ s. CompliesWithEach I.strategy_of I.holds_on invs.now p.now.flows s.flows) }
{
    let answered = Answered {
        invs,
        permitted: p,
        size: p.size(),
    };
    first_subset(alloc, &answered, p)
}

// The condition that the strict invariants hold for the permitted flows with answers.
#[derive(Drop)]
pub(crate) struct Answered<'a, I> {
    pub(crate) invs: &'a [I],
    pub(crate) permitted: &'a FlowSet,
    pub(crate) size: u16,
}

impl<'a, I: Invariant> Condition for Answered<'a, I> {
    ghost size_of = { λ c. c.size };

    ghost can_meet = { λ c. (c.permitted.now.size ≡ c.size) × IsFlowSet c.size c.permitted.now.flows
        × All (λ inv. I.size_of inv ≡ c.size) c.invs.now };

    ghost meets_on = { λ c s. StrictHold I.strategy_of I.edge_mark I.holds_on c.invs.now (with_back c.permitted.now.flows s) };

    fn meets(&self, alloc: Global, set: &FlowSet, added: Flow) -> Result<bool, AllocError> {
        let answer = added.back();
        // An answer that is itself a permitted flow adds nothing.
        if self.permitted.has(answer) {
            return Ok(true);
        }
        let all = with_answers(alloc, self.permitted, set)?;
        chosen_still_hold(alloc, &Strict, self.invs, &all, answer)
    }
}

// The invariants that have to hold for answers too.
#[derive(Drop)]
pub(crate) struct Strict;

impl<I: Invariant> Choice<I> for Strict {
    ghost chosen = { λ _ inv. is_strict (I.strategy_of inv) (I.edge_mark inv) };

    fn chooses(&self, inv: &I) -> bool {
        is_strict(inv)
    }
}

/// Whether the invariant has to hold for answers as for any flow.
pub fn is_strict<I: Invariant>(inv: &I) -> bool
    ensures { result ≡ is_strict (I.strategy_of inv.now) (I.edge_mark inv.now) }
{
    matches!(inv.strategy(), Strategy::Information) || !inv.edge_wise()
}
