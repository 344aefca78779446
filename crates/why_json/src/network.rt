//! The answer of `network` as JSON.

ghost use Rattle.std.specs.Prelude.{◌≡◌, ◌++◌, All, IfOk, OnOk, length};
ghost use Rattle.flow_set.specs.EveryFlow.{every_flow};
ghost use Rattle.net_core.specs.Policies.{IsPolicyOf, edge_mark, holds_on, strategy_of};
ghost use Rattle.explain_core.specs.Findings.{AreAnswerDenials, AreDenials};
ghost use Rattle.why_json.specs.Gaps.{GapsArePermitted};
ghost use Rattle.why_json.specs.WhyJson.{answer_denial_json, is_gap, network_json, pair_json};
ghost use Rattle.why_json.specs.NetworkText.{IsNetworkText};
ghost use Rattle.why_json.specs.OneAnswer.{IsOnlyNetworkText};
ghost use Rattle.why_json.specs.inner.Fitting.{FitsFinding, FitsOffence, FitsPair};

use crate::offence::{Offence, OffenceWriter, offences_of};
use crate::standing::{Standing, push_standing, standing_of};
use explain_core::{Finding, answer_denials, denials};
use flow_set::FlowSet;
use json_core::{ItemWriter, push, push_array, push_bool, push_flow, push_hosts, push_numbers};
use net_core::{Description, Policy};
use std::alloc::{AllocError, Global};

/// Returns all that the description and the policy say of hosts, invariants and flows, as one object on one line.
pub fn network_json(
    alloc: Global,
    description: &Description,
    policy: &Policy,
) -> Result<Vec<u8>, AllocError>
    requires { IsPolicyOf description.now policy.now }
    ensures text { IfOk result (λ text. IsNetworkText description.now policy.now text.items) }
    ensures gaps { IfOk result (λ text. (is : IsNetworkText description.now policy.now text.items)
        → GapsArePermitted description.now policy.now is.denials) }
    ensures one { IfOk result (λ text. IsOnlyNetworkText description.now policy.now text.items) }
{
    let _ = description.asked();
    let _ = description.invariants();
    let offences = offences_of(alloc, description)?;
    let denied = denials_of(alloc, description, policy)?;
    let without_answers = answer_denials_of(alloc, description, policy)?;
    let mut text = Vec::new(alloc);
    push_network(
        &mut text,
        description,
        policy,
        &offences,
        &denied,
        &without_answers,
    )?;
    Ok(text)
}

// Appends the object of these offences and findings.
fn push_network(
    text: &mut Vec<u8>,
    description: &Description,
    policy: &Policy,
    offences: &[Offence],
    denied: &[Finding],
    without_answers: &[Finding],
) -> Result<(), AllocError>
    requires offences { All (FitsOffence description.now) offences.now }
    requires denied { All (FitsPair description.now policy.now) denied.now }
    requires without_answers { All (FitsFinding description.now) without_answers.now }
    ensures { OnOk result (text.new.items ≡ text.old.items
        ++ network_json description.now policy.now offences.now denied.now without_answers.now) }
{
    push(text, b"{\"version\":1,\"hosts\":")?;
    push_hosts(text, description.hosts())?;
    push(text, b",\"invariants\":")?;
    push_array(text, &OffenceWriter { description }, offences)?;
    push(text, b",\"flows\":")?;
    let pairs = PairWriter {
        description,
        policy,
    };
    push_array(text, &pairs, denied)?;
    push(text, b",\"without_answers\":")?;
    push_array(text, &AnswerDenialWriter { description }, without_answers)?;
    push(text, b"}\n")
}

/// Returns every flow between two hosts, each with all invariants that deny it.
pub fn denials_of(
    alloc: Global,
    description: &Description,
    policy: &Policy,
) -> Result<Vec<Finding>, AllocError>
    requires { IsPolicyOf description.now policy.now }
    ensures denials { IfOk result (λ found. AreDenials holds_on description.now.invariants
        (every_flow (length description.now.hosts)) policy.now.permitted.flows found.items) }
    ensures fit { IfOk result (λ found. All (FitsPair description.now policy.now) found.items) }
{
    let asked = description.asked();
    let invariants = description.invariants();
    let every = FlowSet::full(alloc, asked.size())?;
    denials(alloc, invariants, &every, policy.permitted())
}

// Returns every permitted flow whose answers may not pass, each with all strict invariants that deny them.
fn answer_denials_of(
    alloc: Global,
    description: &Description,
    policy: &Policy,
) -> Result<Vec<Finding>, AllocError>
    requires { IsPolicyOf description.now policy.now }
    ensures denials { IfOk result (λ found. AreAnswerDenials strategy_of edge_mark holds_on description.now.invariants
        policy.now.permitted.flows policy.now.stateful.flows found.items) }
    ensures fit { IfOk result (λ found. All (FitsFinding description.now) found.items) }
{
    let asked = description.asked();
    let invariants = description.invariants();
    let _ = asked.size();
    answer_denials(alloc, invariants, policy.permitted(), policy.stateful())
}

// The writer of flows between two hosts.
#[derive(Drop)]
struct PairWriter<'a> {
    description: &'a Description,
    policy: &'a Policy,
}

impl<'a> ItemWriter<Finding> for PairWriter<'a> {
    ghost use Rattle.why_json.specs.WhyJson.{pair_json};
    ghost use Rattle.why_json.specs.inner.Fitting.{FitsPair};

    ghost fits = { λ w finding. FitsPair w.description.now w.policy.now finding };

    ghost item_json = { λ w finding. pair_json w.description.now w.policy.now finding };

    fn push(&self, text: &mut Vec<u8>, item: &Finding) -> Result<(), AllocError> {
        push_pair(text, self.description, self.policy, item)
    }
}

fn push_pair(
    text: &mut Vec<u8>,
    description: &Description,
    policy: &Policy,
    finding: &Finding,
) -> Result<(), AllocError>
    requires { FitsPair description.now policy.now finding.now }
    ensures { OnOk result (text.new.items ≡ text.old.items ++ pair_json description.now policy.now finding.now) }
{
    let standing = standing_of(description, policy, finding.flow);
    push(text, b"{")?;
    push_standing(text, description, standing)?;
    push(text, b",\"denied_by\":")?;
    push_numbers(text, &finding.by)?;
    push(text, b",\"gap\":")?;
    push_bool(text, is_gap(standing, &finding.by))?;
    push(text, b"}")
}

/// Whether the flow is not requested, and no invariant denies it.
pub fn is_gap(standing: Standing, denied_by: &[u16]) -> bool
    ensures { result ≡ is_gap standing denied_by.now }
{
    !standing.asked && denied_by.is_empty()
}

// The writer of permitted flows whose answers may not pass.
#[derive(Drop)]
struct AnswerDenialWriter<'a> {
    description: &'a Description,
}

impl<'a> ItemWriter<Finding> for AnswerDenialWriter<'a> {
    ghost use Rattle.why_json.specs.WhyJson.{answer_denial_json};
    ghost use Rattle.why_json.specs.inner.Fitting.{FitsFinding};

    ghost fits = { λ w finding. FitsFinding w.description.now finding };

    ghost item_json = { λ w finding. answer_denial_json w.description.now finding };

    fn push(&self, text: &mut Vec<u8>, item: &Finding) -> Result<(), AllocError> {
        push_answer_denial(text, self.description, item)
    }
}

fn push_answer_denial(
    text: &mut Vec<u8>,
    description: &Description,
    finding: &Finding,
) -> Result<(), AllocError>
    requires { FitsFinding description.now finding.now }
    ensures { OnOk result (text.new.items ≡ text.old.items ++ answer_denial_json description.now finding.now) }
{
    push(text, b"{\"flow\":")?;
    push_flow(text, description.hosts(), finding.flow)?;
    push(text, b",\"denied_by\":")?;
    push_numbers(text, &finding.by)?;
    push(text, b"}")
}
