//! Adding and removing a flow without allocation.

ghost use Rattle.std.specs.Prelude.{◌≡◌, ◌↔◌, [], ◌∷◌, IsFalse, IsTrue};
ghost use Rattle.flow_set.specs.Flow.{IsFlow};
ghost use Rattle.flow_set.specs.FlowSet.{has};
ghost use Rattle.net_core.specs.inner.Asking.{asking_for, asking_where, not_asking_for};
ghost use Rattle.net_core.specs.inner.Fitting.{IsNetwork};
ghost use Rattle.inv_any.specs.Templates.{meaning_of};
ghost use Rattle.net_core.specs.Policies.{IsPolicyOf, IsEdgeWiseNetwork, edge_mark, holds_on, strategy_of};
ghost use Rattle.net_core.specs.inner.EdgePolicies.{IsAdmitted, IsAnswered};
ghost use Rattle.state_core.specs.Stateful.{is_strict};

use crate::description::Description;
use flow_set::{Flow, FlowSet};
use inv_any::AnyInv;
use inv_law::Invariant;
use state_core::is_strict;

/// Updates the policy by a flow that is added to the requested flows, or removed.
pub(crate) fn change_flow(
    description: &Description,
    permitted: &mut FlowSet,
    stateful: &mut FlowSet,
    flow: Flow,
    asked: bool,
)
    requires network { IsNetwork description.now }
    requires alone { IsEdgeWiseNetwork description.now }
    requires flow { IsFlow description.now.asked.size flow }
    requires fresh { IsTrue asked → IsFalse (has description.now.asked.flows flow) }
    requires policy { IsPolicyOf description.now (record { permitted = permitted.old; stateful = stateful.old }) }
    ensures { IsPolicyOf (asking_where asked description.now flow) (record { permitted = permitted.new; stateful = stateful.new }) }
{
    if asked {
        add_flow(description, permitted, stateful, flow);
    } else {
        remove_flow(description, permitted, stateful, flow);
    }
}

/// Adds a requested flow: it is permitted if every invariant admits it, and its answers may pass if
/// they are admitted as well.
fn add_flow(description: &Description, permitted: &mut FlowSet, stateful: &mut FlowSet, flow: Flow)
    requires network { IsNetwork description.now }
    requires alone { IsEdgeWiseNetwork description.now }
    requires flow { IsFlow description.now.asked.size flow }
    requires fresh { IsFalse (has description.now.asked.flows flow) }
    requires policy { IsPolicyOf description.now (record { permitted = permitted.old; stateful = stateful.old }) }
    ensures { IsPolicyOf (asking_for description.now flow) (record { permitted = permitted.new; stateful = stateful.new }) }
{
    if !is_admitted(description, flow) {
        return;
    }
    permitted.insert(flow);
    if !has_answers(description, flow) {
        return;
    }
    stateful.insert(flow);
}

/// Removes a flow that is no longer requested.
fn remove_flow(
    description: &Description,
    permitted: &mut FlowSet,
    stateful: &mut FlowSet,
    flow: Flow,
)
    requires network { IsNetwork description.now }
    requires alone { IsEdgeWiseNetwork description.now }
    requires flow { IsFlow description.now.asked.size flow }
    requires policy { IsPolicyOf description.now (record { permitted = permitted.old; stateful = stateful.old }) }
    ensures { IsPolicyOf (not_asking_for description.now flow) (record { permitted = permitted.new; stateful = stateful.new }) }
{
    let _asked = description.asked();
    permitted.remove(flow);
    stateful.remove(flow);
}

/// Whether every invariant is edge-wise.
pub(crate) fn is_edge_wise_network(description: &Description) -> bool
    ensures { IsTrue result ↔ IsEdgeWiseNetwork description.now }
{
    for invariant in description.invariants() {
        if !invariant.edge_wise() {
            return false;
        }
    }
    true
}

/// Whether every invariant admits the flow.
pub(crate) fn is_admitted(description: &Description, flow: Flow) -> bool
    requires flow { IsFlow description.now.asked.size flow }
    ensures { IsTrue result ↔ IsAdmitted description.now flow }
{
    let _asked = description.asked();
    for invariant in description.invariants() {
        if !invariant.admits(flow) {
            return false;
        }
    }
    true
}

/// Whether flows may have answers, and every strict invariant admits those of the flow.
fn has_answers(description: &Description, flow: Flow) -> bool
    requires flow { IsFlow description.now.asked.size flow }
    ensures { IsTrue result ↔ (IsTrue description.now.answers × IsAnswered description.now flow) }
{
    description.answers() && is_answered(description, flow)
}

/// Whether every strict invariant admits the answers of the flow.
fn is_answered(description: &Description, flow: Flow) -> bool
    requires flow { IsFlow description.now.asked.size flow }
    ensures { IsTrue result ↔ IsAnswered description.now flow }
{
    let _asked = description.asked();
    let answer = flow.back();
    for invariant in description.invariants() {
        if !admits_answer(invariant, answer) {
            return false;
        }
    }
    true
}

/// Whether the invariant admits an answer, if it is strict.
fn admits_answer(invariant: &AnyInv, answer: Flow) -> bool
    requires flow { IsFlow (meaning_of invariant.now).size answer }
    ensures { IsTrue result ↔ (IsTrue (is_strict (strategy_of invariant.now) (edge_mark invariant.now)) → holds_on invariant.now (answer ∷ [])) }
{
    if is_strict(invariant) {
        invariant.admits(answer)
    } else {
        true
    }
}
