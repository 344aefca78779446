//! The report of the invariants on the requested flows.
ghost use Rattle.std.specs.Prelude.{◌≡◌, ◌<◌, ◌↔◌, ◌++◌, [], length, IfOk, IsTrue, OnOk};
ghost use Rattle.std.specs.List.{flat_map};
ghost use Rattle.std.specs.Option.{option_map, ForSome};
ghost use Rattle.net_core.specs.Policies.{MeetsAll};
ghost use Rattle.report_core.specs.CheckReport.{IsCheckReport, violation_text, offending_line};

use crate::names::{push_flow, push_invariant};
use crate::report::Report;
use flow_set::{Flow, FlowSet};
use host_net::Hosts;
use inv_any::AnyInv;
use net_core::Description;
use permit_core::offending_by_steps;
use std::alloc::{AllocError, Global};

/// Returns the report, and whether all invariants hold.
pub fn check_report(alloc: Global, description: &Description) -> Result<(Report, bool), AllocError>
    ensures report { IfOk result (λ made. IsCheckReport description.now made.0) }
    ensures holds { IfOk result (λ made. IsTrue made.1 ↔ MeetsAll description.now description.now.asked.flows) }
{
    let mut text = Vec::new(alloc);
    let holds = push_offences(alloc, &mut text, description)?;
    Ok((Report::of(text), holds))
}

// Appends the finding for each invariant to an empty text, and returns whether all of them hold.
fn push_offences(
    alloc: Global,
    text: &mut Vec<u8>,
    description: &Description,
) -> Result<bool, AllocError>
    requires { text.old.items ≡ [] }
    ensures report { OnOk result (IsCheckReport description.now text.new.items) }
    ensures holds { IfOk result (λ holds. IsTrue holds ↔ MeetsAll description.now description.now.asked.flows) }
{
    let (hosts, asked) = (description.hosts(), description.asked());
    let invariants = description.invariants();
    let mut holds = true;
    for (place, invariant) in invariants.iter().enumerate() {
        let offence = offending_by_steps(alloc, invariant, asked)?;
        push_offence(text, hosts, place + 1, invariant, &offence)?;
        holds &= offence.is_none();
    }
    Ok(holds)
}

// Appends whether the invariant holds, and its offending flows if not.
fn push_offence(
    text: &mut Vec<u8>,
    hosts: &Hosts,
    number: usize,
    invariant: &AnyInv,
    offence: &Option<FlowSet>,
) -> Result<(), AllocError>
    requires { ForSome offence.now (λ flows. flows.size ≡ length hosts.now) }
    ensures { OnOk result (text.new.items ≡ text.old.items
        ++ violation_text hosts.now number invariant.now (option_map (λ set. set.flows) offence.now)) }
{
    text.extend_from_slice(b"invariant ")?;
    push_invariant(text, number, invariant)?;
    match offence {
        None => text.extend_from_slice(b" ok\n"),
        Some(flows) => {
            text.extend_from_slice(b" fails\n")?;
            push_offending(text, hosts, flows)
        }
    }
}

fn push_offending(text: &mut Vec<u8>, hosts: &Hosts, flows: &FlowSet) -> Result<(), AllocError>
    requires { flows.now.size ≡ length hosts.now }
    ensures { OnOk result (text.new.items ≡ text.old.items ++ flat_map (offending_line hosts.now) flows.now.flows) }
{
    for flow in flows.iter() {
        push_offending_line(text, hosts, flow)?;
    }
    Ok(())
}

#[tactic(auto, unfolding(crate::specs::CheckReport::offending_line))]
fn push_offending_line(text: &mut Vec<u8>, hosts: &Hosts, flow: Flow) -> Result<(), AllocError>
    requires from { flow.from < length hosts.now }
    requires to { flow.to < length hosts.now }
    ensures { OnOk result (text.new.items ≡ text.old.items ++ offending_line hosts.now flow) }
{
    text.extend_from_slice(b"  ")?;
    push_flow(text, hosts, flow)?;
    text.extend_from_slice(b"\n")
}
