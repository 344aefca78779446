//! `audit DIALECT FILE RULES`: whether rules forward what the policy of a network
//! expects.

ghost use Rattle.std.specs.Prelude.{◌≡◌, IfOk, true};
ghost use Rattle.rules_space.specs.Rules.{filter_of};
ghost use Rattle.topos_top.specs.FileFormats as format;
ghost use Rattle.topos_top.specs.Command.{Audit};
ghost use Rattle.topos_top.specs.Audit.{audit_outcomes};
ghost use Rattle.run_core.specs.Dialects.{rule_dialect_of};
ghost use Rattle.topos_top.specs.Commands.{plan_of};
ghost use Rattle.run_core.specs.CommandPlan.{reads, ends};
ghost use Rattle.run_core.specs.Outcomes.{Answers};
ghost use Rattle.run_core.specs.Replies.{IsPossibleReply};
ghost use Rattle.run_core.specs.Shelf.{shelf_change};
ghost use Rattle.topos_top.specs.inner.OutcomesReplies.{finding_reply};
ghost use Rattle.run_core.specs.inner.Views.{reply_view, reply_in, rules_view};

use crate::reading::read_rules;
use audit_core::{AuditRefusal, Finding, classes_line, finding_text};
use desc_core::Description;
use edge_io::Shelf;
use net_core::policy_of;
use run_core::{Answer, Dialect, Rules, Text, policy_between, read_description};
use std::alloc::{AllocError, Global};

/// Returns the reply for the files of those names.
pub fn reply<'a, H: Shelf>(
    alloc: Global,
    dialect: Dialect,
    file: &'a str,
    rules: &'a str,
    shelf: &mut H,
) -> Result<Answer<'a>, Answer<'a>>
    ensures { IsPossibleReply true (plan_of (Audit dialect file.now rules.now))
        (shelf_change H.Shelf shelf.old shelf.new) (reply_in result) }
{
    let description = read_description(alloc, file, shelf)?;
    reply_for(alloc, dialect, &description, rules, shelf)
}

/// Returns the reply for the network of a description and the file of rules.
fn reply_for<'a, H: Shelf>(
    alloc: Global,
    dialect: Dialect,
    description: &Description,
    rules: &'a str,
    shelf: &mut H,
) -> Result<Answer<'a>, Answer<'a>>
    ensures { IsPossibleReply true (reads (format.rules dialect) rules.now (λ said. ends (audit_outcomes description.now ((rule_dialect_of dialect).filter said) ((rule_dialect_of dialect).audited said))))
        (shelf_change H.Shelf shelf.old shelf.new) (reply_in result) }
{
    let rules = read_rules(alloc, dialect, rules, shelf)?;
    Answer::of_outcomes(answer(alloc, description, &rules))
}

/// Returns the finding of an audit, or that there are too many packet classes.
fn answer<'a>(
    alloc: Global,
    description: &Description,
    rules: &Rules,
) -> Result<Answer<'a>, AllocError>
    ensures { IfOk result (λ answer. Answers true (audit_outcomes description.now (filter_of (rules_view rules.now)) (rules_view rules.now)) (reply_view answer)) }
{
    let rules = rules.audited();
    // The call establishes that the rules have one verdict for each packet in each state.
    let _ = rules.rules();
    let policy = policy_of(alloc, description)?;
    match audit_core::audit_policy(alloc, &policy_between(description, &policy), &rules) {
        Ok(finding) => told(alloc, &finding),
        Err(AuditRefusal::TooManyClasses { count }) => {
            Ok(Answer::not_emittable(classes_line(alloc, count)?))
        }
        Err(AuditRefusal::Memory) => Err(AllocError),
    }
}

/// Returns the text of a finding, as a report of violations if the rules differ.
fn told<'a>(alloc: Global, finding: &Finding) -> Result<Answer<'a>, AllocError>
    ensures { IfOk result (λ answer. reply_view answer ≡ finding_reply finding.now) }
{
    let text = Text::Bytes(finding_text(alloc, finding)?);
    match finding {
        Finding::Equal => Ok(Answer::done(text)),
        Finding::Differ(_) => Ok(Answer::reported(text)),
    }
}
