//! The standing of a flow in a network and its policy.

ghost use Rattle.std.specs.Prelude.{◌≡◌, ◌++◌, length, OnOk};
ghost use Rattle.flow_set.specs.Flow.{IsFlow};
ghost use Rattle.net_core.specs.Policies.{IsPolicyOf};
ghost use Rattle.why_json.specs.WhyJson.{standing_json};
ghost use Rattle.why_json.specs.Standings.{standing_of};

use flow_set::Flow;
use json_core::{ServiceWriter, push, push_array, push_bool, push_flow};
use net_core::{Description, Policy};
use std::alloc::AllocError;

/// A flow, and whether it is requested, whether it is permitted, and whether its answers may pass.
#[derive(Clone, Copy)]
pub struct Standing {
    pub flow: Flow,
    pub asked: bool,
    pub permitted: bool,
    pub answered: bool,
}

/// Returns the standing of the flow.
pub fn standing_of(description: &Description, policy: &Policy, flow: Flow) -> Standing
    requires policy { IsPolicyOf description.now policy.now }
    requires flow { IsFlow (length description.now.hosts) flow }
    ensures { result ≡ standing_of description.now policy.now flow }
{
    let asked = description.asked();
    Standing {
        flow,
        asked: asked.has(flow),
        permitted: policy.permitted().has(flow),
        answered: policy.stateful().has(flow),
    }
}

/// Appends the members of an object, for a flow with its standing and its services.
pub(crate) fn push_standing(
    text: &mut Vec<u8>,
    description: &Description,
    standing: Standing,
) -> Result<(), AllocError>
    requires { IsFlow (length description.now.hosts) standing.flow }
    ensures { OnOk result (text.new.items ≡ text.old.items ++ standing_json description.now standing) }
{
    let flow = standing.flow;
    push(text, b"\"flow\":")?;
    push_flow(text, description.hosts(), flow)?;
    push(text, b",\"asked\":")?;
    push_bool(text, standing.asked)?;
    push(text, b",\"permitted\":")?;
    push_bool(text, standing.permitted)?;
    push(text, b",\"answered\":")?;
    push_bool(text, standing.answered)?;
    push(text, b",\"services\":")?;
    push_array(
        text,
        &ServiceWriter,
        description.services().of(flow.from, flow.to),
    )
}
