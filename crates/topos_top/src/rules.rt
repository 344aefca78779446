//! `rules DIALECT FILE`: the rules of the permitted policy, unless the policy was listed
//! and violates an invariant.

ghost use Rattle.std.specs.Prelude.{IfOk, false};
ghost use Rattle.topos_top.specs.Command.{Rules};
ghost use Rattle.topos_top.specs.Commands.{plan_of};
ghost use Rattle.run_core.specs.Outcomes.{Answers};
ghost use Rattle.topos_top.specs.Repair.{repair_outcomes};
ghost use Rattle.run_core.specs.Replies.{IsPossibleReply};
ghost use Rattle.topos_top.specs.Rules.{rules_outcomes};
ghost use Rattle.run_core.specs.Shelf.{shelf_change};
ghost use Rattle.run_core.specs.inner.Views.{reply_view, reply_in};

use crate::listed::listed_offences;
use desc_core::Description;
use edge_io::Shelf;
use net_core::policy_of;
use run_core::{Answer, Dialect, Status, Text, policy_between, read_description};
use std::alloc::{AllocError, Global};

/// Returns the reply for the file of that name.
pub fn reply<'a, H: Shelf>(
    alloc: Global,
    dialect: Dialect,
    file: &'a str,
    shelf: &mut H,
) -> Result<Answer<'a>, Answer<'a>>
    ensures { IsPossibleReply false (plan_of (Rules dialect file.now))
        (shelf_change H.Shelf shelf.old shelf.new) (reply_in result) }
{
    let description = read_description(alloc, file, shelf)?;
    Answer::of_outcomes(answer(alloc, dialect, &description))
}

/// Returns the rules, or the reason why there are none.
fn answer<'a>(
    alloc: Global,
    dialect: Dialect,
    description: &Description,
) -> Result<Answer<'a>, AllocError>
    ensures { IfOk result (λ answer. Answers false (rules_outcomes dialect description.now) (reply_view answer)) }
{
    match listed_offences(alloc, description)? {
        Some(report) => Ok(Answer::error(Status::Violated, Text::Report(report))),
        None => policy_rules(alloc, dialect, description),
    }
}

/// Returns the rules of the policy of a description, or the reason why they cannot be emitted.
pub fn policy_rules<'a>(
    alloc: Global,
    dialect: Dialect,
    description: &Description,
) -> Result<Answer<'a>, AllocError>
    ensures { IfOk result (λ answer. Answers false (repair_outcomes dialect description.now) (reply_view answer)) }
{
    let policy = policy_of(alloc, description)?;
    let layout = dialect.layout(alloc, &policy_between(description, &policy))?;
    match layout {
        Ok(text) => Ok(Answer::done(text)),
        Err(line) => Ok(Answer::not_emittable(line)),
    }
}
