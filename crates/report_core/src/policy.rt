//! The report of the policy.
ghost use Rattle.std.specs.Prelude.{◌≡◌, ◌<◌, ◌++◌, length, IfOk, OnOk};
ghost use Rattle.std.specs.List.{flat_map, range_with_len};
ghost use Rattle.flow_set.specs.EveryFlow.{every_flow, flow_or_none};
ghost use Rattle.flow_set.specs.Flow.{IsFlow};
ghost use Rattle.net_core.specs.Policies.{IsPolicyOf};
ghost use Rattle.report_core.specs.inner.Growing.{Grows};
ghost use Rattle.report_core.specs.PolicyReport.{IsPolicyReport, ruling_line, ruling_text};
ghost use Rattle.report_core.specs.PolicyReport as meant;
ghost use Rattle.report_core.specs.inner.FlowStatusView.{IsWithin, ruling_view};
ghost use Rattle.report_core.specs.inner.Rulings.{IsFound, ReportsStatuses, policy_in};
ghost use Rattle.report_core.specs.inner.Trying.{AreTriedOn};

use crate::flow_status::FlowStatus;
use crate::names::{push_flow, push_invariant};
use crate::report::Report;
use flow_set::{Flow, FlowSet};
use inv_any::{AnyInv, AnyTrial};
use net_core::{Description, policy_of};
use permit_core::{blame_by_steps, trials_of};
use std::alloc::{AllocError, Global};

/// A description and the two sets of its policy.
#[derive(Drop)]
struct Rulings<'a> {
    description: &'a Description,
    permitted: &'a FlowSet,
    stateful: &'a FlowSet,
}

/// Returns, for each flow between two hosts, its status and the reason.
pub fn policy_report(alloc: Global, description: &Description) -> Result<Report, AllocError>
    ensures report { IfOk result (λ made. IsPolicyReport description.now made) }
{
    let policy = policy_of(alloc, description)?;
    report_of_policy(alloc, description, policy.permitted(), policy.stateful())
}

/// Returns the report of a policy that is already computed: its permitted flows, and those whose
/// answers may pass.
#[tactic(auto, using(crate::proofs::FlowStatusLemmas::is_report))]
pub fn report_of_policy(
    alloc: Global,
    description: &Description,
    permitted: &FlowSet,
    stateful: &FlowSet,
) -> Result<Report, AllocError>
    requires policy { IsPolicyOf description.now (record { permitted = permitted.now; stateful = stateful.now }) }
    ensures report { IfOk result (λ made. IsPolicyReport description.now made) }
{
    // The call establishes how large the sets are.
    let _asked = description.asked();
    let mut trials = trials_of(alloc, description.invariants(), permitted)?;
    let mut text = Vec::new(alloc);
    let rulings = Rulings {
        description,
        permitted,
        stateful,
    };
    push_rulings(&mut text, &rulings, &mut trials)?;
    Ok(Report::of(text))
}

// Appends the lines of all flows. The trials have the permitted flows before and after the call.
#[tactic(auto, unfolding(flow_set::specs::EveryFlow::every_flow))]
fn push_rulings(
    text: &mut Vec<u8>,
    rulings: &Rulings<'_>,
    trials: &mut Vec<AnyTrial>,
) -> Result<(), AllocError>
    requires policy { IsPolicyOf rulings.now.description.now (policy_in rulings.now) }
    requires tried { AreTriedOn rulings.now.description.now rulings.now.permitted.now.flows trials.old.items }
    ensures { OnOk result (Grows (ReportsStatuses rulings.now.description.now (policy_in rulings.now)
        (every_flow (length rulings.now.description.now.hosts))) text.old.items text.new.items) }
{
    for from in 0..rulings.description.hosts().count() {
        push_rulings_from(text, rulings, trials, from)?;
    }
    Ok(())
}

// Appends the lines of the flows that one host sends.
fn push_rulings_from(
    text: &mut Vec<u8>,
    rulings: &Rulings<'_>,
    trials: &mut Vec<AnyTrial>,
    from: u16,
) -> Result<(), AllocError>
    requires policy { IsPolicyOf rulings.now.description.now (policy_in rulings.now) }
    requires tried { AreTriedOn rulings.now.description.now rulings.now.permitted.now.flows trials.old.items }
    requires from { from < length rulings.now.description.now.hosts }
    ensures told { OnOk result (Grows (ReportsStatuses rulings.now.description.now (policy_in rulings.now)
        (flat_map (flow_or_none from) (range_with_len 0 (length rulings.now.description.now.hosts)))) text.old.items text.new.items) }
    ensures tried { AreTriedOn rulings.now.description.now rulings.now.permitted.now.flows trials.new.items }
{
    for to in 0..rulings.description.hosts().count() {
        push_ruling_between(text, rulings, trials, Flow { from, to })?;
    }
    Ok(())
}

// Appends the line of the flow; nothing if both ends are the same host.
fn push_ruling_between(
    text: &mut Vec<u8>,
    rulings: &Rulings<'_>,
    trials: &mut Vec<AnyTrial>,
    flow: Flow,
) -> Result<(), AllocError>
    requires policy { IsPolicyOf rulings.now.description.now (policy_in rulings.now) }
    requires tried { AreTriedOn rulings.now.description.now rulings.now.permitted.now.flows trials.old.items }
    requires from { flow.from < length rulings.now.description.now.hosts }
    requires to { flow.to < length rulings.now.description.now.hosts }
    ensures told { OnOk result (Grows (ReportsStatuses rulings.now.description.now (policy_in rulings.now)
        (flow_or_none flow.from flow.to)) text.old.items text.new.items) }
    ensures tried { AreTriedOn rulings.now.description.now rulings.now.permitted.now.flows trials.new.items }
{
    if flow.from == flow.to {
        return Ok(());
    }
    let flow_status = ruling_of(rulings, trials, flow);
    push_ruling_line(text, rulings.description, flow, flow_status)
}

fn ruling_of(rulings: &Rulings<'_>, trials: &mut Vec<AnyTrial>, flow: Flow) -> FlowStatus
    requires policy { IsPolicyOf rulings.now.description.now (policy_in rulings.now) }
    requires tried { AreTriedOn rulings.now.description.now rulings.now.permitted.now.flows trials.old.items }
    requires flow { IsFlow (length rulings.now.description.now.hosts) flow }
    ensures flow_status { IsFound rulings.now.description.now (policy_in rulings.now) flow (ruling_view result) }
    ensures tried { AreTriedOn rulings.now.description.now rulings.now.permitted.now.flows trials.new.items }
{
    let asked = rulings.description.asked();
    if rulings.stateful.has(flow) {
        return FlowStatus::Answered;
    }
    // This test only saves the trials of a permitted flow.
    if rulings.permitted.has(flow) {
        return FlowStatus::Allowed;
    }
    if !asked.has(flow) {
        return FlowStatus::NotAsked;
    }
    let invariants = rulings.description.invariants();
    match blame_by_steps(invariants, trials, rulings.permitted, flow) {
        Some(number) => FlowStatus::Denied(number),
        None => FlowStatus::Allowed,
    }
}

#[tactic(auto, unfolding(crate::specs::PolicyReport::ruling_line))]
fn push_ruling_line(
    text: &mut Vec<u8>,
    description: &Description,
    flow: Flow,
    flow_status: FlowStatus,
) -> Result<(), AllocError>
    requires flow { IsFlow (length description.now.hosts) flow }
    requires flow_status { IsWithin (length description.now.invariants) (ruling_view flow_status) }
    ensures { OnOk result (text.new.items ≡ text.old.items ++ ruling_line description.now flow (ruling_view flow_status)) }
{
    push_flow(text, description.hosts(), flow)?;
    text.extend_from_slice(b" ")?;
    push_ruling(text, description.invariants(), flow_status)?;
    text.extend_from_slice(b"\n")
}

fn push_ruling(
    text: &mut Vec<u8>,
    invariants: &[AnyInv],
    flow_status: FlowStatus,
) -> Result<(), AllocError>
    requires { IsWithin (length invariants.now) (ruling_view flow_status) }
    ensures { OnOk result (text.new.items ≡ text.old.items ++ ruling_text invariants.now (ruling_view flow_status)) }
{
    match flow_status {
        FlowStatus::Answered => text.extend_from_slice(b"allowed with answers"),
        FlowStatus::Allowed => text.extend_from_slice(b"allowed"),
        FlowStatus::NotAsked => text.extend_from_slice(b"not asked for"),
        FlowStatus::Denied(number) => push_denial(text, invariants, number),
    }
}

// Appends the invariant with a number, from 0, that denies a flow.
fn push_denial(text: &mut Vec<u8>, invariants: &[AnyInv], number: u16) -> Result<(), AllocError>
    requires { number < length invariants.now }
    ensures { OnOk result (text.new.items ≡ text.old.items ++ ruling_text invariants.now (meant.Denied number)) }
{
    text.extend_from_slice(b"denied by ")?;
    let place = number as usize;
    push_invariant(text, place + 1, &invariants[place])
}
