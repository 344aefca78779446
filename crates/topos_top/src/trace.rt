//! `trace DIALECT RULES EVENTS`: the result of each event.

ghost use Rattle.std.specs.Prelude.{IfOk, false};
ghost use Rattle.rules_space.specs.Rules.{filter_of};
ghost use Rattle.topos_top.specs.FileFormats as format;
ghost use Rattle.topos_top.specs.Command.{Trace};
ghost use Rattle.topos_top.specs.Commands.{plan_of};
ghost use Rattle.run_core.specs.CommandPlan.{reads, ends};
ghost use Rattle.run_core.specs.Dialects.{rule_dialect_of};
ghost use Rattle.run_core.specs.Outcomes.{Answers};
ghost use Rattle.run_core.specs.Replies.{IsPossibleReply};
ghost use Rattle.run_core.specs.Shelf.{shelf_change};
ghost use Rattle.topos_top.specs.Trace.{trace_outcomes};
ghost use Rattle.topos_top.specs.inner.Reads.{ParsesTo};
ghost use Rattle.run_core.specs.inner.Views.{reply_in, reply_view, rules_view};

use crate::reading::{read_events, read_rules};
use edge_io::Shelf;
use pkt_core::Event;
use run_core::{Answer, Dialect, Rules, Text};
use std::alloc::{AllocError, Global};

/// Returns the reply for the files of those names.
pub fn reply<'a, H: Shelf>(
    alloc: Global,
    dialect: Dialect,
    rules: &'a str,
    events: &'a str,
    shelf: &mut H,
) -> Result<Answer<'a>, Answer<'a>>
    ensures { IsPossibleReply false (plan_of (Trace dialect rules.now events.now))
        (shelf_change H.Shelf shelf.old shelf.new) (reply_in result) }
{
    let rules = read_rules(alloc, dialect, rules, shelf)?;
    reply_for(alloc, dialect, &rules, events, shelf)
}

/// Returns the reply for parsed rules of the dialect and the file of events.
fn reply_for<'a, H: Shelf>(
    alloc: Global,
    dialect: Dialect,
    rules: &Rules,
    events: &'a str,
    shelf: &mut H,
) -> Result<Answer<'a>, Answer<'a>>
    ensures { (said : (rule_dialect_of dialect).Rules) → ParsesTo dialect (rules_view rules.now) said
        → IsPossibleReply false (reads format.events events.now (λ es. ends (trace_outcomes ((rule_dialect_of dialect).filter said) es)))
        (shelf_change H.Shelf shelf.old shelf.new) (reply_in result) }
{
    let events = read_events(alloc, events, shelf)?;
    Answer::of_outcomes(answer(alloc, rules, &events))
}

/// Returns the lines of the events.
fn answer<'a>(alloc: Global, rules: &Rules, events: &[Event]) -> Result<Answer<'a>, AllocError>
    ensures { IfOk result (λ answer. Answers false (trace_outcomes (filter_of (rules_view rules.now)) events.now) (reply_view answer)) }
{
    let text = rules.trace(alloc, events)?;
    Ok(Answer::done(Text::Bytes(text)))
}
