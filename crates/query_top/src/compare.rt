//! `compare DIALECT FILE RULES`: whether rules do what the policy of a network says, for each pair of owners.

ghost use Rattle.std.specs.Prelude.{◌≡◌, All, IfOk, true};
ghost use Rattle.compare_json.specs.inner.Fitting.{FitsDifference};
ghost use Rattle.rules_space.specs.Rules.{filter_of};
ghost use Rattle.run_core.specs.Dialects.{rule_dialect_of};
ghost use Rattle.run_core.specs.CommandPlan.{reads, ends};
ghost use Rattle.run_core.specs.Outcomes.{Answers};
ghost use Rattle.run_core.specs.Replies.{IsPossibleReply};
ghost use Rattle.run_core.specs.Shelf.{shelf_change};
ghost use Rattle.run_core.specs.inner.Views.{reply_in, reply_view, rules_view};
ghost use Rattle.query_top.specs.PlainRules.{plain_rules};
ghost use Rattle.query_top.specs.Command.{Compare};
ghost use Rattle.query_top.specs.Commands.{plan_of};
ghost use Rattle.query_top.specs.Compare.{compare_outcomes};
ghost use Rattle.query_top.specs.inner.Replies.{differences_reply};

use crate::plain_rules::read_plain_rules;
use audit_core::{Difference, compare_pairs};
use compare_json::compare_json;
use desc_core::Description;
use edge_io::Shelf;
use host_net::Hosts;
use net_core::policy_of;
use run_core::{Answer, Dialect, Rules, Text, policy_between, read_description};
use std::alloc::{AllocError, Global};

/// Returns the answer for the network that the file describes and the rules of the other file.
pub fn reply<'a, H: Shelf>(
    alloc: Global,
    dialect: Dialect,
    file: &'a str,
    rules: &'a str,
    shelf: &mut H,
) -> Result<Answer<'a>, Answer<'a>>
    ensures { IsPossibleReply true (plan_of (Compare dialect file.now rules.now))
        (shelf_change H.Shelf shelf.old shelf.new) (reply_in result) }
{
    let description = read_description(alloc, file, shelf)?;
    reply_for(alloc, dialect, &description, rules, shelf)
}

// Returns the answer for the network of the description.
fn reply_for<'a, H: Shelf>(
    alloc: Global,
    dialect: Dialect,
    description: &Description,
    rules: &'a str,
    shelf: &mut H,
) -> Result<Answer<'a>, Answer<'a>>
    ensures { IsPossibleReply true (reads (plain_rules dialect) rules.now (λ said. ends (compare_outcomes description.now ((rule_dialect_of dialect).filter said) ((rule_dialect_of dialect).audited said))))
        (shelf_change H.Shelf shelf.old shelf.new) (reply_in result) }
{
    let rules = read_plain_rules(alloc, dialect, rules, shelf)?;
    Answer::of_outcomes(answer(alloc, description, &rules))
}

// Returns the answer for the rules.
fn answer<'a>(
    alloc: Global,
    description: &Description,
    rules: &Rules,
) -> Result<Answer<'a>, AllocError>
    ensures { IfOk result (λ answer. Answers true (compare_outcomes description.now (filter_of (rules_view rules.now)) (rules_view rules.now)) (reply_view answer)) }
{
    let rules = rules.audited();
    // The call establishes that the rules have one verdict for each packet in each state.
    let _ = rules.rules();
    let policy = policy_of(alloc, description)?;
    let differences = compare_pairs(alloc, &policy_between(description, &policy), &rules)?;
    differences_answer(alloc, description.hosts(), &differences)
}

// Returns the JSON of the differences, as a report if there is one.
fn differences_answer<'a>(
    alloc: Global,
    hosts: &Hosts,
    differences: &[Difference],
) -> Result<Answer<'a>, AllocError>
    requires { All (FitsDifference hosts.now) differences.now }
    ensures { IfOk result (λ answer. reply_view answer ≡ differences_reply hosts.now differences.now) }
{
    let text = Text::Bytes(compare_json(alloc, hosts, differences)?);
    match differences {
        [] => Ok(Answer::done(text)),
        [_, ..] => Ok(Answer::reported(text)),
    }
}
