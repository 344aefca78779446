//! A network with its policy, maintained while flows are added and removed.

ghost use Rattle.std.specs.Prelude.{◌≡◌, ◌↔◌, not, IfOk, IsTrue, OnErr, OnOk};
ghost use Rattle.flow_set.specs.Flow.{IsFlow};
ghost use Rattle.flow_set.specs.FlowSet.{has};
ghost use Rattle.flow_set.specs.inner.FlowSetView.{IsFlowSet};
ghost use Rattle.net_core.specs.inner.Asking.{asking_for, asking_where, not_asking_for};
ghost use Rattle.net_core.specs.Policies.{IsPolicyOf, IsEdgeWiseNetwork};
ghost use Rattle.net_core.specs.FailingFlows.{AreFailing};
ghost use Rattle.net_core.specs.inner.Policed.{IsEvaluation, policy_in};

use crate::counts::count_failing;
use crate::description::Description;
use crate::evaluation::{Evaluation, evaluate, reevaluate};
use crate::failing::change_failing;
use crate::steps::{change_flow, is_admitted, is_edge_wise_network};
use flow_set::{Flow, FlowSet};
use std::alloc::{AllocError, Global};
use std::marker::Model;

/// A network with its policy. Its model has both.
#[derive(Drop)]
pub struct NetworkWithPolicy {
    description: Description,
    evaluation: Evaluation,
}

impl Model for NetworkWithPolicy {
    ghost use Rattle.std.specs.Coded.{codes};
    ghost use Rattle.inv_any.specs.contracts.any_inv.AnyInv as any;
    ghost use Rattle.net_core.specs.inner.Policed.{IsEvaluation, Policed, policy_in};

    ghost Value = { Policed };

    ghost coded = { Prim.hlevel (codes, any.the_row.coded) };

    ghost view = { λ p. record { network = p.description; policy = policy_in p.evaluation } };

    ghost invariant = { λ p. IsEvaluation p.description p.evaluation };
}

impl NetworkWithPolicy {
    /// Returns the network with its policy.
    pub fn new(alloc: Global, description: Description) -> Result<NetworkWithPolicy, AllocError>
        ensures { IfOk result (λ policed. policed.network ≡ description) }
    {
        let evaluation = evaluate(alloc, &description)?;
        Ok(NetworkWithPolicy {
            description,
            evaluation,
        })
    }

    /// Returns the network.
    pub fn description(&self) -> &Description
        ensures { result.now ≡ self.now.network }
    {
        &self.description
    }

    /// Returns the permitted flows.
    pub fn permitted(&self) -> &FlowSet
        ensures value { result.now ≡ self.now.policy.permitted }
        ensures policy { IsPolicyOf self.now.network self.now.policy }
    {
        &self.evaluation.permitted
    }

    /// Returns the permitted flows whose answers may pass.
    pub fn stateful(&self) -> &FlowSet
        ensures value { result.now ≡ self.now.policy.stateful }
        ensures policy { IsPolicyOf self.now.network self.now.policy }
    {
        &self.evaluation.stateful
    }

    /// Returns the number of invariants that fail on the requested flows.
    pub fn failed(&self) -> u16
        ensures { AreFailing self.now.network.invariants self.now.network.asked.flows result }
    {
        self.evaluation.failed
    }

    /// Adds a flow to the requested flows. If an invariant is not edge-wise, the policy may have to
    /// be recomputed, which may fail with an allocation error.
    pub fn request(&mut self, alloc: Global, flow: Flow) -> Result<(), AllocError>
        requires { IsFlow self.old.network.asked.size flow }
        ensures asked { OnOk result (self.new.network ≡ asking_for self.old.network flow) }
        ensures unchanged { OnErr result (self.new ≡ self.old) }
    {
        self.set_asked(alloc, flow, true)
    }

    /// Removes a flow from the requested flows, likewise.
    pub fn withdraw(&mut self, alloc: Global, flow: Flow) -> Result<(), AllocError>
        requires { IsFlow self.old.network.asked.size flow }
        ensures asked { OnOk result (self.new.network ≡ not_asking_for self.old.network flow) }
        ensures unchanged { OnErr result (self.new ≡ self.old) }
    {
        self.set_asked(alloc, flow, false)
    }

    /// Adds the flow to the requested flows, or removes it.
    fn set_asked(&mut self, alloc: Global, flow: Flow, asked: bool) -> Result<(), AllocError>
        requires { IsFlow self.old.network.asked.size flow }
        ensures asked { OnOk result (self.new.network ≡ asking_where asked self.old.network flow) }
        ensures unchanged { OnErr result (self.new ≡ self.old) }
    {
        if self.asks_for(flow) == asked {
            Ok(())
        } else if self.is_edge_wise_network() {
            self.update_edge_wise(flow, asked);
            Ok(())
        } else {
            self.recompute(alloc, flow, asked)
        }
    }

    fn asks_for(&self, flow: Flow) -> bool
        requires { IsFlow self.now.network.asked.size flow }
        ensures value { result ≡ has self.now.network.asked.flows flow }
        ensures set { IsFlowSet self.now.network.asked.size self.now.network.asked.flows }
    {
        self.description.asked().has(flow)
    }

    /// Whether every invariant is edge-wise, so that flows can be added and removed individually.
    fn is_edge_wise_network(&self) -> bool
        ensures { IsTrue result ↔ IsEdgeWiseNetwork self.now.network }
    {
        is_edge_wise_network(&self.description)
    }

    /// Adds or removes the flow, and updates the policy by this flow only.
    fn update_edge_wise(&mut self, flow: Flow, asked: bool)
        requires alone { IsEdgeWiseNetwork self.old.network }
        requires flow { IsFlow self.old.network.asked.size flow }
        requires other { has self.old.network.asked.flows flow ≡ not asked }
        ensures { self.new.network ≡ asking_where asked self.old.network flow }
    {
        change_flow(
            &self.description,
            &mut self.evaluation.permitted,
            &mut self.evaluation.stateful,
            flow,
            asked,
        );
        change_failing(&self.description, &mut self.evaluation.failing, flow, asked);
        self.description.set_asked(flow, asked);
        self.evaluation.failed = count_failing(&self.description, &self.evaluation.failing);
    }

    /// Adds or removes the flow, if an invariant is not edge-wise.
    fn recompute(&mut self, alloc: Global, flow: Flow, asked: bool) -> Result<(), AllocError>
        requires walks { IsEdgeWiseNetwork self.old.network → ⊥ }
        requires flow { IsFlow self.old.network.asked.size flow }
        requires other { has self.old.network.asked.flows flow ≡ not asked }
        ensures asked { OnOk result (self.new.network ≡ asking_where asked self.old.network flow) }
        ensures unchanged { OnErr result (self.new ≡ self.old) }
    {
        let stays = keeps_policy_unchanged(&self.description, &self.evaluation, flow, asked);
        self.description.set_asked(flow, asked);
        match reevaluate(alloc, &self.description, &mut self.evaluation, stays) {
            Ok(()) => Ok(()),
            Err(error) => {
                self.description.set_asked(flow, !asked);
                Err(error)
            }
        }
    }
}

/// Whether a flow leaves the policy unchanged: an invariant denies an added flow by itself, or a
/// removed flow was not permitted.
fn keeps_policy_unchanged(
    description: &Description,
    evaluation: &Evaluation,
    flow: Flow,
    asked: bool,
) -> bool
    requires evaluation { IsEvaluation description.now evaluation.now }
    requires flow { IsFlow description.now.asked.size flow }
    ensures { IsTrue result → IsPolicyOf (asking_where asked description.now flow) (policy_in evaluation.now) }
{
    if asked {
        !is_admitted(description, flow)
    } else {
        !evaluation.permitted.has(flow)
    }
}
