//! `repair DIALECT FILE`: the rules of the permitted policy, whether or not a policy was
//! listed.

ghost use Rattle.std.specs.Prelude.{false};
ghost use Rattle.topos_top.specs.Command.{Repair};
ghost use Rattle.topos_top.specs.Commands.{plan_of};
ghost use Rattle.run_core.specs.Replies.{IsPossibleReply};
ghost use Rattle.run_core.specs.Shelf.{shelf_change};
ghost use Rattle.run_core.specs.inner.Views.{reply_in};

use crate::rules::policy_rules;
use edge_io::Shelf;
use run_core::{Answer, Dialect, read_description};
use std::alloc::Global;

/// Returns the reply for the file of that name: the rules, or the reason why they cannot be
/// emitted.
pub fn reply<'a, H: Shelf>(
    alloc: Global,
    dialect: Dialect,
    file: &'a str,
    shelf: &mut H,
) -> Result<Answer<'a>, Answer<'a>>
    ensures { IsPossibleReply false (plan_of (Repair dialect file.now))
        (shelf_change H.Shelf shelf.old shelf.new) (reply_in result) }
{
    let description = read_description(alloc, file, shelf)?;
    Answer::of_outcomes(policy_rules(alloc, dialect, &description))
}
