//! The policy of a description.

ghost use Rattle.std.specs.Prelude.{◌≡◌, length, IfOk};
ghost use Rattle.flow_set.specs.FlowSet.{IsSubset};
ghost use Rattle.net_core.specs.Policies.{CompliesWithAll, IsGreatestPolicy, IsPolicyOf, IsStateful, IsEdgeWiseNetwork, MeetsAll};

use crate::description::Description;
use flow_set::FlowSet;
use permit_core::permit_by_steps;
use state_core::refine_by_steps;
use std::alloc::{AllocError, Global};
use std::marker::Model;

/// The permitted flows of a network, and the permitted flows whose answers may pass.
#[derive(Drop)]
pub struct Policy {
    permitted: FlowSet,
    stateful: FlowSet,
}

impl Model for Policy {
    ghost use Rattle.flow_set.specs.FlowSet.{IsSubset};
    ghost use Rattle.net_core.specs.Policies as meant;

    ghost Value = { meant.Policy };

    ghost view = { λ p. record { permitted = p.permitted; stateful = p.stateful } };

    ghost invariant = { λ p. IsSubset p.stateful.flows p.permitted.flows };
}

impl Policy {
    /// Returns the permitted flows.
    pub fn permitted(&self) -> &FlowSet
        ensures value { result.now ≡ self.now.permitted }
    {
        &self.permitted
    }

    /// Returns the permitted flows whose answers may pass.
    pub fn stateful(&self) -> &FlowSet
        ensures value { result.now ≡ self.now.stateful }
        ensures within { IsSubset self.now.stateful.flows self.now.permitted.flows }
    {
        &self.stateful
    }

    /// Returns both sets: the permitted flows, and the permitted flows whose answers may pass.
    pub fn into_sets(self) -> (FlowSet, FlowSet)
        ensures permitted { result.0 ≡ self.permitted }
        ensures stateful { result.1 ≡ self.stateful }
    {
        (self.permitted, self.stateful)
    }
}

/// Returns the policy of a description: the permitted flows, and the permitted flows whose answers
/// may pass.
pub fn policy_of(alloc: Global, description: &Description) -> Result<Policy, AllocError>
    ensures size { IfOk result (λ policy. (policy.permitted.size ≡ length description.now.hosts)
        × (policy.stateful.size ≡ length description.now.hosts)) }
    ensures policy { IfOk result (λ policy. IsPolicyOf description.now policy) }
    // If every invariant is edge-wise, no other policy permits more.
    ensures greatest { IsEdgeWiseNetwork description.now → IfOk result (λ policy. IsGreatestPolicy description.now policy) }
    // The policy with its answers complies with every invariant.
    ensures complies { IfOk result (λ policy. CompliesWithAll description.now policy) }
{
    let permitted = permit_by_steps(alloc, description.invariants(), description.asked())?;
    let stateful = stateful_of(alloc, description, &permitted)?;
    Ok(Policy {
        permitted,
        stateful,
    })
}

// Returns the stateful flows among the permitted ones: none if the description has no answers.
fn stateful_of(
    alloc: Global,
    description: &Description,
    permitted: &FlowSet,
) -> Result<FlowSet, AllocError>
    requires size { permitted.now.size ≡ length description.now.hosts }
    requires meets { MeetsAll description.now permitted.now.flows }
    ensures size { IfOk result (λ s. s.size ≡ permitted.now.size) }
    ensures stateful { IfOk result (λ s. IsStateful description.now permitted.now.flows s.flows) }
    ensures complies { IfOk result (λ s. CompliesWithAll description.now (record { permitted = permitted.now; stateful = s })) }
{
    if description.answers() {
        refine_by_steps(alloc, description.invariants(), permitted)
    } else {
        FlowSet::empty(alloc, permitted.size())
    }
}
