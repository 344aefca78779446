//! `changes OLD NEW`: the packets that only one of two policies permits, or permits answers to.

ghost use Rattle.std.specs.Prelude.{◌≡◌, Bool, IfOk, length, not, true, if◌then◌else◌};
ghost use Rattle.net_core.specs.Policies.{IsPolicyOf};
ghost use Rattle.json_core.specs.Json.{is_nothing};
ghost use Rattle.changes_json.specs.Weakening.{IsWeakening};
ghost use Rattle.run_core.specs.CommandPlan.{reads, ends};
ghost use Rattle.run_core.specs.Outcomes.{Answers};
ghost use Rattle.run_core.specs.Replies.{IsPossibleReply};
ghost use Rattle.run_core.specs.Shelf.{shelf_change};
ghost use Rattle.run_core.specs.inner.Views.{reply_in, reply_on, reply_view};
ghost use Rattle.run_core.specs.declared.status.Status.TheVariants.{Done, Violated};
ghost use Rattle.run_core.specs.declared.status.Stream.TheVariants.{Output};
ghost use Rattle.run_core.specs.FileFormats.{description};
ghost use Rattle.query_top.specs.Command.{Changes};
ghost use Rattle.query_top.specs.Changes.{IsChangesAnswer, changes_outcomes};
ghost use Rattle.query_top.specs.Commands.{plan_of};

use change_core::changes_between;
use changes_json::{Weakening, changes_json, weakening_of};
use desc_core::Description;
use edge_io::Shelf;
use net_core::{Policy, policy_of};
use run_core::{Answer, Text, policy_between, read_description};
use std::alloc::{AllocError, Global};

/// Returns the answer for the networks that the files describe.
pub fn reply<'a, H: Shelf>(
    alloc: Global,
    old: &'a str,
    new: &'a str,
    shelf: &mut H,
) -> Result<Answer<'a>, Answer<'a>>
    ensures { IsPossibleReply true (plan_of (Changes old.now new.now))
        (shelf_change H.Shelf shelf.old shelf.new) (reply_in result) }
{
    let description = read_description(alloc, old, shelf)?;
    reply_from(alloc, &description, new, shelf)
}

// Returns the answer for the old network, and the one that the file describes.
fn reply_from<'a, H: Shelf>(
    alloc: Global,
    old: &Description,
    new: &'a str,
    shelf: &mut H,
) -> Result<Answer<'a>, Answer<'a>>
    ensures { IsPossibleReply true (reads description new.now (λ d. ends (changes_outcomes old.now d)))
        (shelf_change H.Shelf shelf.old shelf.new) (reply_in result) }
{
    let description = read_description(alloc, new, shelf)?;
    Answer::of_outcomes(answer(alloc, old, &description))
}

fn answer<'a>(alloc: Global, old: &Description, new: &Description) -> Result<Answer<'a>, AllocError>
    ensures { IfOk result (λ answer. Answers true (changes_outcomes old.now new.now) (reply_view answer)) }
{
    let before = policy_of(alloc, old)?;
    let after = policy_of(alloc, new)?;
    let weakening = weakening_of(alloc, old, &before, new, &after)?;
    let text = changes_text(alloc, old, &before, new, &after, &weakening)?;
    Ok(changes_answer(text, weakening.weaker.is_empty()))
}

// The answer is a report of a violation if the change weakens some flow.
fn changes_answer<'a>(text: Vec<u8>, is_kept: bool) -> Answer<'a>
    ensures { reply_view result ≡ reply_on (if is_kept then Done else Violated) Output text.items }
{
    if is_kept {
        Answer::done(Text::Bytes(text))
    } else {
        Answer::reported(Text::Bytes(text))
    }
}

fn changes_text(
    alloc: Global,
    old: &Description,
    before: &Policy,
    new: &Description,
    after: &Policy,
    weakening: &Weakening,
) -> Result<Vec<u8>, AllocError>
    requires before { IsPolicyOf old.now before.now }
    requires after { IsPolicyOf new.now after.now }
    requires sizes_before { (before.now.permitted.size ≡ length old.now.hosts) × (before.now.stateful.size ≡ length old.now.hosts) }
    requires sizes_after { (after.now.permitted.size ≡ length new.now.hosts) × (after.now.stateful.size ≡ length new.now.hosts) }
    requires weakening { IsWeakening old.now before.now new.now after.now weakening.now }
    ensures { IfOk result (λ text. (is_weaker : Bool) → is_nothing weakening.now.weaker.items ≡ not is_weaker
        → IsChangesAnswer old.now new.now is_weaker text.items) }
{
    let changes = changes_between(
        alloc,
        &policy_between(old, before),
        &policy_between(new, after),
    )?;
    changes_json(alloc, new.hosts(), old.hosts(), &changes, weakening)
}
