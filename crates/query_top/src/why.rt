//! `why FILE FROM TO`: why a flow is permitted, denied or without answers.

ghost use Rattle.std.specs.Prelude.{◌≡◌, IfOk, length, true};
ghost use Rattle.flow_set.specs.Flow.{IsFlow};
ghost use Rattle.run_core.specs.Outcomes.{Answers};
ghost use Rattle.run_core.specs.Replies.{IsPossibleReply};
ghost use Rattle.run_core.specs.Shelf.{shelf_change};
ghost use Rattle.run_core.specs.inner.Views.{reply_in, reply_view};
ghost use Rattle.query_top.specs.Command.{Why};
ghost use Rattle.query_top.specs.Commands.{plan_of};
ghost use Rattle.query_top.specs.Why.{IsFlowNamed, IsWhyOf, no_flow_line, why_outcomes};

use desc_core::Description;
use edge_io::Shelf;
use flow_set::Flow;
use net_core::policy_of;
use run_core::{Answer, Text, no_host_line, read_description};
use std::alloc::{AllocError, Global};
use why_json::{explain, why_json};

/// Returns the answer for the flow between the hosts of these names, in the network that the file describes.
pub fn reply<'a, H: Shelf>(
    alloc: Global,
    file: &'a str,
    from: &str,
    to: &str,
    shelf: &mut H,
) -> Result<Answer<'a>, Answer<'a>>
    ensures { IsPossibleReply true (plan_of (Why file.now from.now to.now))
        (shelf_change H.Shelf shelf.old shelf.new) (reply_in result) }
{
    let description = read_description(alloc, file, shelf)?;
    Answer::of_outcomes(answer(alloc, &description, from, to))
}

// Returns the answer, or the line that there is no flow between hosts of these names.
fn answer<'a>(
    alloc: Global,
    description: &Description,
    from: &str,
    to: &str,
) -> Result<Answer<'a>, AllocError>
    ensures { IfOk result (λ answer. Answers true (why_outcomes description.now from.now to.now) (reply_view answer)) }
{
    let hosts = description.hosts();
    let Some(sender) = hosts.find(from.as_bytes()) else {
        return Ok(Answer::not_emittable(no_host_line(alloc, from)?));
    };
    let Some(receiver) = hosts.find(to.as_bytes()) else {
        return Ok(Answer::not_emittable(no_host_line(alloc, to)?));
    };
    if sender == receiver {
        return Ok(Answer::not_emittable(no_flow_line(alloc, from)?));
    }
    let flow = Flow {
        from: sender,
        to: receiver,
    };
    flow_answer(alloc, description, from, to, flow)
}

// Returns the answer for the flow between the hosts of these names.
fn flow_answer<'a>(
    alloc: Global,
    description: &Description,
    from: &str,
    to: &str,
    flow: Flow,
) -> Result<Answer<'a>, AllocError>
    requires { IsFlowNamed description.now.hosts from.now to.now flow }
    ensures { IfOk result (λ answer. Answers true (why_outcomes description.now from.now to.now) (reply_view answer)) }
{
    let text = flow_text(alloc, description, flow)?;
    Ok(Answer::done(Text::Bytes(text)))
}

fn flow_text(alloc: Global, description: &Description, flow: Flow) -> Result<Vec<u8>, AllocError>
    requires { IsFlow (length description.now.hosts) flow }
    ensures { IfOk result (λ text. IsWhyOf description.now flow text.items) }
{
    let policy = policy_of(alloc, description)?;
    let explanation = explain(alloc, description, &policy, flow)?;
    why_json(alloc, description, &explanation)
}

// Returns the line that there is no flow from a host to itself.
fn no_flow_line(alloc: Global, host: &str) -> Result<Vec<u8>, AllocError>
    ensures { IfOk result (λ line. line.items ≡ no_flow_line host.now) }
{
    let mut line = Vec::new(alloc);
    line.extend_from_slice(b"topos: not emittable: no flow from ")?;
    line.extend_from_slice(host.as_bytes())?;
    line.extend_from_slice(b" to itself\n")?;
    Ok(line)
}
