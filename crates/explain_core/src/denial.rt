//! The invariants that deny a flow or its answers.

ghost use Rattle.std.specs.Prelude.{◌≡◌, ◌≤◌, All, IfOk, length};
ghost use Rattle.flow_set.specs.Flow.{IsFlow};
ghost use Rattle.flow_set.specs.FlowSet.{with_back};
ghost use Rattle.permit_core.specs.Policy.{AllHold};
ghost use Rattle.state_core.specs.Stateful.{StrictHold};
ghost use Rattle.explain_core.specs.Failing.{AreDenyingAnswers, AreDenying};

use crate::failing::failing_with;
use crate::strict::Strict;
use flow_set::{Flow, FlowSet};
use inv_law::Stepwise;
use permit_core::{Every, trials_of};
use state_core::with_answers;
use std::alloc::{AllocError, Global};

/// Returns the numbers, from 0 and ascending, of all invariants that fail on the permitted flows with the
/// flow.
pub fn invariants_denying<I: Stepwise>(
    alloc: Global,
    invs: &[I],
    permitted: &FlowSet,
    f: Flow,
) -> Result<Vec<u16>, AllocError>
    requires sizes { All (λ inv. I.size_of inv ≡ permitted.now.size) invs.now }
    requires flow { IsFlow permitted.now.size f }
    requires numbers { length invs.now ≤ 65536 }
    requires held { AllHold I.holds_on invs.now permitted.now.flows }
    ensures { IfOk result (λ numbers. AreDenying I.holds_on invs.now permitted.now.flows f numbers.items) }
{
    let mut trials = trials_of(alloc, invs, permitted)?;
    failing_with(alloc, &Every, invs, &mut trials, permitted, f)
}

/// Returns the numbers, from 0 and ascending, of all strict invariants that fail on the permitted flows and
/// the answers of the stateful flows, with the answer of the flow.
pub fn invariants_denying_answers<I: Stepwise>(
    alloc: Global,
    invs: &[I],
    permitted: &FlowSet,
    stateful: &FlowSet,
    f: Flow,
) -> Result<Vec<u16>, AllocError>
    requires sizes { All (λ inv. I.size_of inv ≡ permitted.now.size) invs.now }
    requires size { stateful.now.size ≡ permitted.now.size }
    requires flow { IsFlow permitted.now.size f }
    requires numbers { length invs.now ≤ 65536 }
    requires held { StrictHold I.strategy_of I.edge_mark I.holds_on invs.now
        (with_back permitted.now.flows stateful.now.flows) }
    ensures { IfOk result (λ numbers. AreDenyingAnswers I.strategy_of I.edge_mark I.holds_on invs.now
        permitted.now.flows stateful.now.flows f numbers.items) }
{
    let all = with_answers(alloc, permitted, stateful)?;
    let mut trials = trials_of(alloc, invs, &all)?;
    failing_with(alloc, &Strict, invs, &mut trials, &all, f.back())
}
