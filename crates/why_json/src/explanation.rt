//! The explanation of one flow of a network.

ghost use Rattle.std.specs.Prelude.{IfOk, length};
ghost use Rattle.flow_set.specs.Flow.{IsFlow};
ghost use Rattle.net_core.specs.Policies.{IsPolicyOf};
ghost use Rattle.why_json.specs.Explanations.{HasReasons, IsExplanation, ReasonsHaveFlow};
ghost use Rattle.why_json.specs.WhyJson.{why_json};
ghost use Rattle.why_json.specs.OneAnswer.{IsOnlyWhyText};
ghost use Rattle.why_json.specs.inner.Fitting.{FitsExplanation};

use crate::standing::{Standing, standing_of};
use explain_core::{Reason, why_answers_denied, why_denied};
use flow_set::Flow;
use net_core::{Description, Policy};
use std::alloc::{AllocError, Global};

/// A flow with its standing, and the reasons for it.
#[derive(Drop)]
pub struct Explanation {
    pub standing: Standing,
    /// The invariants that fail on the permitted flows with the flow.
    pub denied_by: Vec<Reason>,
    /// The strict invariants that fail on the permitted flows and the answers of the stateful flows, with the answer
    /// of the flow.
    pub answers_denied_by: Vec<Reason>,
}

/// Returns the explanation of the flow.
pub fn explain(
    alloc: Global,
    description: &Description,
    policy: &Policy,
    flow: Flow,
) -> Result<Explanation, AllocError>
    requires policy { IsPolicyOf description.now policy.now }
    requires flow { IsFlow (length description.now.hosts) flow }
    ensures explained { IfOk result (IsExplanation description.now policy.now flow) }
    ensures fits { IfOk result (FitsExplanation description.now) }
    // No denial lacks a reason.
    ensures reasons { IfOk result (HasReasons description.now) }
    // Each reason is about the flow.
    ensures flow { IfOk result ReasonsHaveFlow }
    // Every explanation of the flow is written as the same text.
    ensures one { IfOk result (λ x. IsOnlyWhyText description.now policy.now flow (why_json description.now x)) }
{
    let _ = description.asked();
    let _ = description.invariants();
    explanation_of(alloc, description, policy, flow)
}

// Returns the standing of the flow with the reasons of `why_denied` and `why_answers_denied`.
fn explanation_of(
    alloc: Global,
    description: &Description,
    policy: &Policy,
    flow: Flow,
) -> Result<Explanation, AllocError>
    requires policy { IsPolicyOf description.now policy.now }
    requires flow { IsFlow (length description.now.hosts) flow }
    ensures { IfOk result (IsExplanation description.now policy.now flow) }
{
    let asked = description.asked();
    let invariants = description.invariants();
    let permitted = policy.permitted();
    let stateful = policy.stateful();
    let _ = asked.size();
    let denied_by = why_denied(alloc, invariants, permitted, flow)?;
    let answers_denied_by = why_answers_denied(alloc, invariants, permitted, stateful, flow)?;
    Ok(Explanation {
        standing: standing_of(description, policy, flow),
        denied_by,
        answers_denied_by,
    })
}
