//! `network FILE`: all that the description and its policy say of hosts, invariants and flows.

ghost use Rattle.std.specs.Prelude.{IfOk, true};
ghost use Rattle.run_core.specs.Outcomes.{Answers};
ghost use Rattle.run_core.specs.Replies.{IsPossibleReply};
ghost use Rattle.run_core.specs.Shelf.{shelf_change};
ghost use Rattle.run_core.specs.inner.Views.{reply_in, reply_view};
ghost use Rattle.query_top.specs.Command.{Network};
ghost use Rattle.query_top.specs.Commands.{plan_of};
ghost use Rattle.query_top.specs.Network.{IsNetworkAnswer, network_outcomes};

use desc_core::Description;
use edge_io::Shelf;
use net_core::policy_of;
use run_core::{Answer, Text, read_description};
use std::alloc::{AllocError, Global};
use why_json::network_json;

/// Returns the answer for the network that the file describes.
pub fn reply<'a, H: Shelf>(
    alloc: Global,
    file: &'a str,
    shelf: &mut H,
) -> Result<Answer<'a>, Answer<'a>>
    ensures { IsPossibleReply true (plan_of (Network file.now))
        (shelf_change H.Shelf shelf.old shelf.new) (reply_in result) }
{
    let description = read_description(alloc, file, shelf)?;
    Answer::of_outcomes(answer(alloc, &description))
}

fn answer<'a>(alloc: Global, description: &Description) -> Result<Answer<'a>, AllocError>
    ensures { IfOk result (λ answer. Answers true (network_outcomes description.now) (reply_view answer)) }
{
    let text = network_text(alloc, description)?;
    Ok(Answer::done(Text::Bytes(text)))
}

fn network_text(alloc: Global, description: &Description) -> Result<Vec<u8>, AllocError>
    ensures { IfOk result (λ text. IsNetworkAnswer description.now text.items) }
{
    let policy = policy_of(alloc, description)?;
    network_json(alloc, description, &policy)
}
