//! The invariants that deny each of many flows or their answers.
//!
//! All flows share one trial of each invariant, so the cost is one step of a trial for each flow and
//! invariant.

ghost use Rattle.std.specs.Prelude.{◌≡◌, ◌≤◌, All, IfOk, length};
ghost use Rattle.flow_set.specs.Flow.{IsFlow};
ghost use Rattle.flow_set.specs.FlowSet.{with_back, with_flow, without};
ghost use Rattle.permit_core.specs.Policy.{AllHold};
ghost use Rattle.permit_core.specs.inner.Trials.{AreTried, ChosenHold};
ghost use Rattle.state_core.specs.Stateful.{StrictHold};
ghost use Rattle.explain_core.specs.Failing.{AreFailing};
ghost use Rattle.explain_core.specs.Findings.{AreAnswerDenials, AreDenials, AreFindings};
ghost use Rattle.explain_core.specs.inner.Directions.{directed};

use crate::direction::Direction;
use crate::failing::failing_with;
use crate::finding::Finding;
use crate::strict::Strict;
use flow_set::{Flow, FlowSet};
use inv_law::Stepwise;
use permit_core::{Choice, Every, trials_of};
use state_core::with_answers;
use std::alloc::{AllocError, Global};

/// Returns the wanted flows in order, each with all invariants that deny it given the permitted flows.
///
/// No invariant denies a permitted flow.
pub fn denials<I: Stepwise>(
    alloc: Global,
    invs: &[I],
    wanted: &FlowSet,
    permitted: &FlowSet,
) -> Result<Vec<Finding>, AllocError>
    requires sizes { All (λ inv. I.size_of inv ≡ permitted.now.size) invs.now }
    requires size { wanted.now.size ≡ permitted.now.size }
    requires numbers { length invs.now ≤ 65536 }
    requires held { AllHold I.holds_on invs.now permitted.now.flows }
    ensures { IfOk result (λ found. AreDenials I.holds_on invs.now wanted.now.flows permitted.now.flows found.items) }
{
    let none = FlowSet::empty(alloc, wanted.size())?;
    let mut trials = trials_of(alloc, invs, permitted)?;
    findings(
        alloc,
        &Every,
        invs,
        &mut trials,
        permitted,
        wanted,
        &none,
        Direction::Original,
    )
}

/// Returns the permitted flows that are not stateful, in order, each with all strict invariants that deny its
/// answers.
pub fn answer_denials<I: Stepwise>(
    alloc: Global,
    invs: &[I],
    permitted: &FlowSet,
    stateful: &FlowSet,
) -> Result<Vec<Finding>, AllocError>
    requires sizes { All (λ inv. I.size_of inv ≡ permitted.now.size) invs.now }
    requires size { stateful.now.size ≡ permitted.now.size }
    requires numbers { length invs.now ≤ 65536 }
    requires held { StrictHold I.strategy_of I.edge_mark I.holds_on invs.now
        (with_back permitted.now.flows stateful.now.flows) }
    ensures { IfOk result (λ found. AreAnswerDenials I.strategy_of I.edge_mark I.holds_on invs.now
        permitted.now.flows stateful.now.flows found.items) }
{
    let all = with_answers(alloc, permitted, stateful)?;
    let mut trials = trials_of(alloc, invs, &all)?;
    findings(
        alloc,
        &Strict,
        invs,
        &mut trials,
        &all,
        permitted,
        stateful,
        Direction::Reply,
    )
}

// Returns the flows of `all` that are not in `others`, each with the chosen invariants that fail on the set
// with the flow of its packets in this direction.
fn findings<I: Stepwise, C: Choice<I>>(
    alloc: Global,
    choice: &C,
    invs: &[I],
    trials: &mut Vec<I::Tried>,
    set: &FlowSet,
    all: &FlowSet,
    others: &FlowSet,
    direction: Direction,
) -> Result<Vec<Finding>, AllocError>
    requires sizes { All (λ inv. I.size_of inv ≡ set.now.size) invs.now }
    requires all_size { all.now.size ≡ set.now.size }
    requires others_size { others.now.size ≡ set.now.size }
    requires numbers { length invs.now ≤ 65536 }
    requires held { ChosenHold (C.chosen choice.now) I.holds_on invs.now set.now.flows }
    requires tried { AreTried I.fits I.Tried.tried invs.now trials.old.items set.now.flows }
    ensures { IfOk result (λ found. AreFindings
        (λ f. AreFailing (C.chosen choice.now) I.holds_on invs.now (with_flow set.now.flows (directed direction f)))
        (without all.now.flows others.now.flows) found.items) }
{
    let mut found = Vec::new(alloc);
    for flow in all.iter() {
        if !others.has(flow) {
            let finding = find(alloc, choice, invs, trials, set, flow, direction)?;
            found.push(finding)?;
        }
    }
    Ok(found)
}

// Returns the flow with the chosen invariants that fail on the set with the flow of its packets in this
// direction.
fn find<I: Stepwise, C: Choice<I>>(
    alloc: Global,
    choice: &C,
    invs: &[I],
    trials: &mut Vec<I::Tried>,
    set: &FlowSet,
    flow: Flow,
    direction: Direction,
) -> Result<Finding, AllocError>
    requires sizes { All (λ inv. I.size_of inv ≡ set.now.size) invs.now }
    requires flow { IsFlow set.now.size flow }
    requires numbers { length invs.now ≤ 65536 }
    requires held { ChosenHold (C.chosen choice.now) I.holds_on invs.now set.now.flows }
    requires tried { AreTried I.fits I.Tried.tried invs.now trials.old.items set.now.flows }
    ensures flow { IfOk result (λ finding. finding.flow ≡ flow) }
    ensures failing { IfOk result (λ finding. AreFailing (C.chosen choice.now) I.holds_on invs.now
        (with_flow set.now.flows (directed direction flow)) finding.by.items) }
    ensures tried { IfOk result (λ _. AreTried I.fits I.Tried.tried invs.now trials.new.items set.now.flows) }
{
    let tested = direction.of(flow);
    let by = failing_with(alloc, choice, invs, trials, set, tested)?;
    Ok(Finding { flow, by })
}
