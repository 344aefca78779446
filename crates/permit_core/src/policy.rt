//! The permitted policy.

ghost use Rattle.std.specs.Prelude.{◌≡◌, All, IsTrue, IfOk};
ghost use Rattle.flow_set.specs.inner.FlowSetView.{IsFlowSet};
ghost use Rattle.flow_set.specs.Conditions.{IsFirst, IsGreatest};
ghost use Rattle.permit_core.specs.Policy.{AllHold};

use crate::choice::Every;
use crate::condition::Condition;
use crate::growth::chosen_still_hold;
use crate::pass::first_subset;
use flow_set::{Flow, FlowSet};
use inv_law::Invariant;
use std::alloc::{AllocError, Global};

/// Returns the first subset of the requested flows on which every invariant holds. If each
/// invariant is edge-wise, it contains every other such subset.
pub fn permit<I: Invariant>(
    alloc: Global,
    invs: &[I],
    asked: &FlowSet,
) -> Result<FlowSet, AllocError>
    requires { All (λ inv. I.size_of inv ≡ asked.now.size) invs.now }
    ensures size { IfOk result (λ p. p.size ≡ asked.now.size) }
    ensures set { IfOk result (λ p. IsFlowSet p.size p.flows) }
    ensures first { IfOk result (λ p. IsFirst (AllHold I.holds_on invs.now) asked.now.flows p.flows) }
    ensures greatest { All (λ inv. IsTrue (I.edge_mark inv)) invs.now
        → IfOk result (λ p. IsGreatest (AllHold I.holds_on invs.now) asked.now.flows p.flows) }
{
    let together = Together {
        invs,
        size: asked.size(),
    };
    first_subset(alloc, &together, asked)
}

// The condition that all of the invariants hold.
#[derive(Drop)]
pub(crate) struct Together<'a, I> {
    pub(crate) invs: &'a [I],
    pub(crate) size: u16,
}

impl<'a, I: Invariant> Condition for Together<'a, I> {
    ghost size_of = { λ c. c.size };

    ghost can_meet = { λ c. All (λ inv. I.size_of inv ≡ c.size) c.invs.now };

    ghost meets_on = { λ c. AllHold I.holds_on c.invs.now };

    fn meets(&self, alloc: Global, set: &FlowSet, added: Flow) -> Result<bool, AllocError> {
        chosen_still_hold(alloc, &Every, self.invs, set, added)
    }
}
