//! `edit FILE EDITS`: the development of a network while its description is edited, and its final
//! policy.

ghost use Rattle.std.specs.Prelude.{◌≡◌, ◌++◌, OnOk, IfOk, false, map};
ghost use Rattle.edit_core.specs.inner.Kept.{table_of};
ghost use Rattle.edit_core.specs.inner.EditView.{edit_view};
ghost use Rattle.report_core.specs.PolicyReport.{IsPolicyReport};
ghost use Rattle.topos_top.specs.FileFormats as format;
ghost use Rattle.topos_top.specs.Command.{Edit};
ghost use Rattle.topos_top.specs.Commands.{plan_of};
ghost use Rattle.run_core.specs.CommandPlan.{reads, ends};
ghost use Rattle.topos_top.specs.Edit.{ReportsTable, edit_outcomes, summary_line, summary_lines};
ghost use Rattle.run_core.specs.Outcomes.{Answers};
ghost use Rattle.run_core.specs.Replies.{IsPossibleReply};
ghost use Rattle.run_core.specs.Shelf.{shelf_change};
ghost use Rattle.run_core.specs.inner.Views.{reply_view, reply_in};

use crate::reading::{read_edits, read_session};
use crate::text_fault::refused_edit;
use edge_io::Shelf;
use edit_core::{EditRefusal, Session, Summary};
use report_core::{push_numbered, report_of_policy};
use run_core::{Answer, Status, Text};
use std::alloc::{AllocError, Global};

/// Returns the reply for the files of those names.
pub fn reply<'a, H: Shelf>(
    alloc: Global,
    file: &'a str,
    edits: &'a str,
    shelf: &mut H,
) -> Result<Answer<'a>, Answer<'a>>
    ensures { IsPossibleReply false (plan_of (Edit file.now edits.now))
        (shelf_change H.Shelf shelf.old shelf.new) (reply_in result) }
{
    let mut session = read_session(alloc, file, shelf)?;
    reply_for(alloc, &mut session, edits, shelf)
}

/// Returns the reply for a session over the description and the file of edits.
fn reply_for<'a, H: Shelf>(
    alloc: Global,
    session: &mut Session,
    edits: &'a str,
    shelf: &mut H,
) -> Result<Answer<'a>, Answer<'a>>
    ensures { IsPossibleReply false (reads format.edits edits.now (λ es. ends (edit_outcomes (table_of session.old) es)))
        (shelf_change H.Shelf shelf.old shelf.new) (reply_in result) }
{
    let edits = read_edits(alloc, edits, shelf)?;
    Answer::of_outcomes(answer(alloc, session, &edits))
}

/// Returns the summaries and the final policy, or the first edit that is refused.
fn answer<'a>(
    alloc: Global,
    session: &mut Session,
    edits: &[edit_core::Edit],
) -> Result<Answer<'a>, AllocError>
    ensures { IfOk result (λ answer. Answers false (edit_outcomes (table_of session.old) (map edit_view edits.now)) (reply_view answer)) }
{
    match session.apply_all(alloc, edits) {
        Ok(summaries) => {
            let text = text_of(alloc, session, &summaries)?;
            Ok(Answer::done(Text::Bytes(text)))
        }
        Err(EditRefusal::Refused { line, why }) => {
            Ok(Answer::error(Status::BadText, refused_edit(line, why)))
        }
        Err(EditRefusal::Memory) => Err(AllocError),
    }
}

/// Returns the lines of the summaries, followed by the status of each flow of the current
/// description.
fn text_of(alloc: Global, session: &Session, summaries: &[Summary]) -> Result<Vec<u8>, AllocError>
    ensures { IfOk result (λ text. ReportsTable IsPolicyReport (table_of session.now) summaries.now text.items) }
{
    let mut text = Vec::new(alloc);
    push_summaries(&mut text, summaries)?;
    let (permitted, stateful) = (session.permitted(), session.stateful());
    let report = report_of_policy(alloc, session.description(), permitted, stateful)?;
    text.extend_from_slice(report.bytes())?;
    Ok(text)
}

/// Appends a line for each summary, with the number of its edit.
fn push_summaries(text: &mut Vec<u8>, summaries: &[Summary]) -> Result<(), AllocError>
    ensures { OnOk result (text.new.items ≡ text.old.items ++ summary_lines 1 summaries.now) }
{
    for (place, summary) in summaries.iter().enumerate() {
        push_summary(text, place + 1, summary)?;
    }
    Ok(())
}

fn push_summary(text: &mut Vec<u8>, number: usize, summary: &Summary) -> Result<(), AllocError>
    ensures { OnOk result (text.new.items ≡ text.old.items ++ summary_line number summary.now) }
{
    push_numbered(text, number, b" asked ")?;
    push_numbered(text, summary.asked as usize, b" permitted ")?;
    push_numbered(text, summary.permitted as usize, b" stateful ")?;
    push_numbered(text, summary.stateful as usize, b" failing ")?;
    push_numbered(text, summary.failing as usize, b"\n")
}
