//! The reasons why a flow or its answers are denied: all invariants that fail with it, each with a minimal
//! failing set.

ghost use Rattle.std.specs.Prelude.{◌≡◌, ◌≤◌, All, IfOk, length};
ghost use Rattle.flow_set.specs.Flow.{IsFlow};
ghost use Rattle.flow_set.specs.FlowSet.{with_back, with_flow};
ghost use Rattle.permit_core.specs.Policy.{AllHold};
ghost use Rattle.permit_core.specs.inner.Trials.{ChosenHold};
ghost use Rattle.state_core.specs.Stateful.{StrictHold};
ghost use Rattle.explain_core.specs.Failing.{AreFailing};
ghost use Rattle.explain_core.specs.Reasons.{AreReasons, DenyAnswers, DenyFlow};

use crate::denial::{invariants_denying, invariants_denying_answers};
use crate::minimal::minimal_failing_set;
use crate::reason::Reason;
use crate::strict::Strict;
use flow_set::{Flow, FlowSet};
use inv_law::Stepwise;
use permit_core::{Choice, Every};
use state_core::with_answers;
use std::alloc::{AllocError, Global};

/// Returns the reasons why the flow is denied given the permitted flows.
pub fn why_denied<I: Stepwise>(
    alloc: Global,
    invs: &[I],
    permitted: &FlowSet,
    f: Flow,
) -> Result<Vec<Reason>, AllocError>
    requires sizes { All (λ inv. I.size_of inv ≡ permitted.now.size) invs.now }
    requires flow { IsFlow permitted.now.size f }
    requires numbers { length invs.now ≤ 65536 }
    requires held { AllHold I.holds_on invs.now permitted.now.flows }
    ensures { IfOk result (λ reasons. DenyFlow I.holds_on invs.now permitted.now.flows f reasons.items) }
{
    let numbers = invariants_denying(alloc, invs, permitted, f)?;
    reasons_of(alloc, &Every, invs, permitted, f, &numbers)
}

/// Returns the reasons why the answers of the flow are denied given the permitted flows and the
/// answers of the stateful flows.
pub fn why_answers_denied<I: Stepwise>(
    alloc: Global,
    invs: &[I],
    permitted: &FlowSet,
    stateful: &FlowSet,
    f: Flow,
) -> Result<Vec<Reason>, AllocError>
    requires sizes { All (λ inv. I.size_of inv ≡ permitted.now.size) invs.now }
    requires size { stateful.now.size ≡ permitted.now.size }
    requires flow { IsFlow permitted.now.size f }
    requires numbers { length invs.now ≤ 65536 }
    requires held { StrictHold I.strategy_of I.edge_mark I.holds_on invs.now
        (with_back permitted.now.flows stateful.now.flows) }
    ensures { IfOk result (λ reasons. DenyAnswers I.strategy_of I.edge_mark I.holds_on invs.now
        permitted.now.flows stateful.now.flows f reasons.items) }
{
    let numbers = invariants_denying_answers(alloc, invs, permitted, stateful, f)?;
    let all = with_answers(alloc, permitted, stateful)?;
    reasons_of(alloc, &Strict, invs, &all, f.back(), &numbers)
}

// Returns the reasons for the invariants with these numbers. The choice is not read: only the contract refers
// to it.
fn reasons_of<I: Stepwise, C: Choice<I>>(
    alloc: Global,
    _choice: &C,
    invs: &[I],
    set: &FlowSet,
    f: Flow,
    numbers: &[u16],
) -> Result<Vec<Reason>, AllocError>
    requires sizes { All (λ inv. I.size_of inv ≡ set.now.size) invs.now }
    requires flow { IsFlow set.now.size f }
    requires held { ChosenHold (C.chosen _choice.now) I.holds_on invs.now set.now.flows }
    requires failing { AreFailing (C.chosen _choice.now) I.holds_on invs.now (with_flow set.now.flows f) numbers.now }
    ensures { IfOk result (λ reasons.
        AreReasons (C.chosen _choice.now) I.holds_on invs.now (with_flow set.now.flows f) reasons.items) }
{
    let mut reasons = Vec::new(alloc);
    for number in numbers {
        let number = *number;
        let by = minimal_failing_set(alloc, &invs[number as usize], set, f)?;
        reasons.push(Reason { number, by })?;
    }
    Ok(reasons)
}
