//! The table of the questions.

ghost use Rattle.std.specs.Prelude.{true};
ghost use Rattle.run_core.specs.Replies.{IsPossibleReply};
ghost use Rattle.run_core.specs.Shelf.{shelf_change};
ghost use Rattle.run_core.specs.inner.Views.{reply_in};
ghost use Rattle.query_top.specs.Commands.{plan_of};
ghost use Rattle.query_top.specs.inner.Command.{command_view};

use crate::command::Command;
use crate::{changes, compare, flows, network, why};
use edge_io::Shelf;
use run_core::Answer;
use std::alloc::Global;

/// Returns the answer to the question. An `Err` is an answer that ended the run early.
pub fn reply<'a, H: Shelf>(
    alloc: Global,
    command: Command<'a>,
    shelf: &mut H,
) -> Result<Answer<'a>, Answer<'a>>
    ensures { IsPossibleReply true (plan_of (command_view command.entry))
        (shelf_change H.Shelf shelf.old shelf.new) (reply_in result) }
{
    match command {
        Command::Why(file, from, to) => why::reply(alloc, file, from, to, shelf),
        Command::Network(file) => network::reply(alloc, file, shelf),
        Command::Flows(dialect, file, rules) => flows::reply(alloc, dialect, file, rules, shelf),
        Command::Compare(dialect, file, rules) => compare::reply(
            alloc, dialect, file, rules, shelf,
        ),
        Command::Changes(old, new) => changes::reply(alloc, old, new, shelf),
    }
}
