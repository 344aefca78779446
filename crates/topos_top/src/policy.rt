//! `policy FILE`: the status of each flow, and the reason.

ghost use Rattle.std.specs.Prelude.{IfOk, false};
ghost use Rattle.topos_top.specs.Command.{Policy};
ghost use Rattle.topos_top.specs.Commands.{plan_of};
ghost use Rattle.run_core.specs.Outcomes.{Answers};
ghost use Rattle.topos_top.specs.Policy.{policy_outcomes};
ghost use Rattle.run_core.specs.Replies.{IsPossibleReply};
ghost use Rattle.run_core.specs.Shelf.{shelf_change};
ghost use Rattle.run_core.specs.inner.Views.{reply_view, reply_in};

use desc_core::Description;
use edge_io::Shelf;
use report_core::policy_report;
use run_core::{Answer, Text, read_description};
use std::alloc::{AllocError, Global};

/// Returns the reply for the file of that name.
pub fn reply<'a, H: Shelf>(
    alloc: Global,
    file: &'a str,
    shelf: &mut H,
) -> Result<Answer<'a>, Answer<'a>>
    ensures { IsPossibleReply false (plan_of (Policy file.now))
        (shelf_change H.Shelf shelf.old shelf.new) (reply_in result) }
{
    let description = read_description(alloc, file, shelf)?;
    Answer::of_outcomes(answer(alloc, &description))
}

/// Returns the report.
fn answer<'a>(alloc: Global, description: &Description) -> Result<Answer<'a>, AllocError>
    ensures { IfOk result (λ answer. Answers false (policy_outcomes description.now) (reply_view answer)) }
{
    let report = policy_report(alloc, description)?;
    Ok(Answer::done(Text::Report(report)))
}
