//! The invariants of a network on the requested flows.

ghost use Rattle.std.specs.Prelude.{◌≡◌, ◌++◌, [], All, IfOk, OnOk, length};
ghost use Rattle.std.specs.Option.{ForSome};
ghost use Rattle.flow_set.specs.inner.FlowSetView.{IsFlowSet};
ghost use Rattle.json_core.specs.Json.{array_json, flow_json};
ghost use Rattle.why_json.specs.WhyJson.{has_no_offence, offence_json, offending_flows};
ghost use Rattle.why_json.specs.Offences.{AreOffencesOf};
ghost use Rattle.why_json.specs.inner.Fitting.{FitsOffence};

use crate::invariants::push_invariant_at;
use flow_set::FlowSet;
use host_net::Hosts;
use json_core::{ItemWriter, push, push_bool, push_flows};
use net_core::Description;
use permit_core::offending_by_steps;
use std::alloc::{AllocError, Global};

/// An invariant, by its number from 0, and a minimal offending set of the requested flows, or
/// `None` if it holds on them.
#[derive(Drop)]
pub struct Offence {
    pub number: u16,
    pub flows: Option<FlowSet>,
}

/// Returns the offences of all invariants, in order.
pub(crate) fn offences_of(
    alloc: Global,
    description: &Description,
) -> Result<Vec<Offence>, AllocError>
    ensures offences { IfOk result (λ offences. AreOffencesOf description.now offences.items) }
    ensures fit { IfOk result (λ offences. All (FitsOffence description.now) offences.items) }
{
    let asked = description.asked();
    let invariants = description.invariants();
    let mut offences = Vec::new(alloc);
    for place in 0..invariants.len() {
        let flows = offending_by_steps(alloc, &invariants[place], asked)?;
        offences.push(Offence {
            number: place as u16,
            flows,
        })?;
    }
    Ok(offences)
}

/// The writer of offences.
#[derive(Drop)]
pub(crate) struct OffenceWriter<'a> {
    pub(crate) description: &'a Description,
}

impl<'a> ItemWriter<Offence> for OffenceWriter<'a> {
    ghost use Rattle.why_json.specs.WhyJson.{offence_json};
    ghost use Rattle.why_json.specs.inner.Fitting.{FitsOffence};

    ghost fits = { λ w offence. FitsOffence w.description.now offence };

    ghost item_json = { λ w offence. offence_json w.description.now offence };

    fn push(&self, text: &mut Vec<u8>, item: &Offence) -> Result<(), AllocError> {
        push_offence(text, self.description, item)
    }
}

fn push_offence(
    text: &mut Vec<u8>,
    description: &Description,
    offence: &Offence,
) -> Result<(), AllocError>
    requires { FitsOffence description.now offence.now }
    ensures { OnOk result (text.new.items ≡ text.old.items ++ offence_json description.now offence.now) }
{
    push_invariant_at(text, description, offence.number)?;
    push(text, b",\"holds\":")?;
    push_bool(text, has_no_offence(&offence.flows))?;
    push(text, b",\"offending\":")?;
    push_offending(text, description.hosts(), &offence.flows)?;
    push(text, b"}")
}

fn has_no_offence(flows: &Option<FlowSet>) -> bool
    ensures { result ≡ has_no_offence flows.now }
{
    flows.is_none()
}

fn push_offending(
    text: &mut Vec<u8>,
    hosts: &Hosts,
    flows: &Option<FlowSet>,
) -> Result<(), AllocError>
    requires { ForSome flows.now (λ set. IsFlowSet (length hosts.now) set.flows) }
    ensures { OnOk result (text.new.items ≡ text.old.items ++ array_json (flow_json hosts.now) (offending_flows flows.now)) }
{
    match flows {
        None => push_no_flows(text, hosts),
        Some(flows) => push_flows(text, hosts, flows),
    }
}

// Appends an empty array of flows. The hosts are not read: only the contract needs them.
fn push_no_flows(text: &mut Vec<u8>, _hosts: &Hosts) -> Result<(), AllocError>
    ensures { OnOk result (text.new.items ≡ text.old.items ++ array_json (flow_json _hosts.now) []) }
{
    push(text, b"[]")
}
