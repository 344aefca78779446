//! Computes the policy of a network from scratch.

ghost use Rattle.std.specs.Prelude.{◌≡◌, IfOk, IsTrue, OnErr, OnOk};
ghost use Rattle.net_core.specs.inner.Fitting.{IsNetwork};
ghost use Rattle.net_core.specs.Policies.{IsPolicyOf, IsEdgeWiseNetwork};
ghost use Rattle.net_core.specs.inner.FailingFlows.{AreFailingFlows};
ghost use Rattle.net_core.specs.inner.Policed.{IsEvaluation, policy_in};

use crate::counts::count_failed;
use crate::description::Description;
use crate::failing::failing_flows;
use crate::policy::policy_of;
use crate::steps::is_edge_wise_network;
use flow_set::FlowSet;
use std::alloc::{AllocError, Global};

/// The policy of a network, and what its invariants reject.
#[derive(Drop)]
pub(crate) struct Evaluation {
    pub(crate) permitted: FlowSet,
    pub(crate) stateful: FlowSet,
    /// For each invariant, the requested flows on which it fails. Maintained only if every
    /// invariant is edge-wise.
    pub(crate) failing: Vec<FlowSet>,
    /// The number of invariants that fail on the set of requested flows.
    pub(crate) failed: u16,
}

/// Evaluates a network: its policy, and which invariants fail.
pub(crate) fn evaluate(alloc: Global, description: &Description) -> Result<Evaluation, AllocError>
    requires { IsNetwork description.now }
    ensures { IfOk result (λ evaluation. IsEvaluation description.now evaluation) }
{
    let (permitted, stateful) = policy_of(alloc, description)?.into_sets();
    let failing = failing_edge_wise(alloc, description)?;
    let failed = count_failed(alloc, description)?;
    Ok(Evaluation {
        permitted,
        stateful,
        failing,
        failed,
    })
}

/// Reevaluates a network with an invariant that is not edge-wise, after its requested flows
/// changed. If `stays` is true, the policy is unchanged, and only the failing invariants are
/// counted again.
pub(crate) fn reevaluate(
    alloc: Global,
    description: &Description,
    evaluation: &mut Evaluation,
    stays: bool,
) -> Result<(), AllocError>
    requires network { IsNetwork description.now }
    requires walks { IsEdgeWiseNetwork description.now → ⊥ }
    requires stays { IsTrue stays → IsPolicyOf description.now (policy_in evaluation.old) }
    ensures evaluation { OnOk result (IsEvaluation description.now evaluation.new) }
    ensures unchanged { OnErr result (evaluation.new ≡ evaluation.old) }
{
    if stays {
        evaluation.failed = count_failed(alloc, description)?;
        return Ok(());
    }
    *evaluation = evaluate(alloc, description)?;
    Ok(())
}

/// If every invariant is edge-wise, the requested flows on which each of them fails; else an empty
/// list.
fn failing_edge_wise(alloc: Global, description: &Description) -> Result<Vec<FlowSet>, AllocError>
    ensures { IsEdgeWiseNetwork description.now → IfOk result (λ failing. AreFailingFlows description.now failing.items) }
{
    if is_edge_wise_network(description) {
        failing_flows(alloc, description)
    } else {
        Ok(Vec::new(alloc))
    }
}
