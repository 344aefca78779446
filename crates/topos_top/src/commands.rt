//! The table of commands, and the reply to the arguments.

ghost use Rattle.std.specs.Prelude.{◌≡◌, map, string_bytes};
ghost use Rattle.topos_top.specs.Command.{reports_on_output};
ghost use Rattle.topos_top.specs.Commands.{plan_of, topos};
ghost use Rattle.run_core.specs.CommandPlan.{ReadsNothing};
ghost use Rattle.run_core.specs.Replies.{IsPossibleReply};
ghost use Rattle.run_core.specs.Shelf.{shelf_change};
ghost use Rattle.topos_top.specs.inner.Command.{command_of, command_view, IsWithinHosts};
ghost use Rattle.run_core.specs.inner.Replies.{AllowsReplyTo};
ghost use Rattle.topos_top.specs.inner.Replies.{NamesNothing};
ghost use Rattle.run_core.specs.inner.Views.{reply_in, reply_view};

use crate::command::{Command, parse_command, usage};
use crate::local::LocalDialect;
use crate::{audit, check, edit, local, migrate, policy, repair, rules, sample, trace};
use edge_io::Shelf;
use run_core::{Answer, Status, Text};
use std::alloc::Global;

/// Computes the reply to `words`, reading files from `shelf` as needed. Writes nothing.
pub fn answer_to<'a, H: Shelf>(alloc: Global, words: &'a [String], shelf: &mut H) -> Answer<'a>
    ensures reply { AllowsReplyTo topos (command_of (map string_bytes words.now))
        (shelf_change H.Shelf shelf.old shelf.new) (reply_view result) }
    ensures opens_no_file { NamesNothing (command_of (map string_bytes words.now)) → shelf.new ≡ shelf.old }
{
    match parse_command(words) {
        None => Answer::error(Status::Usage, Text::Fixed(usage())),
        Some(command) => match reply(alloc, command, shelf) {
            Ok(answer) => answer,
            Err(answer) => answer,
        },
    }
}

/// Returns the reply to a command. An `Err` is a reply that ended the run early.
fn reply<'a, H: Shelf>(
    alloc: Global,
    command: Command<'a>,
    shelf: &mut H,
) -> Result<Answer<'a>, Answer<'a>>
    requires { IsWithinHosts (command_view command) }
    ensures reply { IsPossibleReply (reports_on_output (command_view command.entry)) (plan_of (command_view command.entry))
        (shelf_change H.Shelf shelf.old shelf.new) (reply_in result) }
    ensures no_files { ReadsNothing (plan_of (command_view command.entry)) → shelf.new ≡ shelf.old }
{
    match command {
        Command::Check(file) => check::reply(alloc, file, shelf),
        Command::Policy(file) => policy::reply(alloc, file, shelf),
        Command::Rules(dialect, file) => rules::reply(alloc, dialect, file, shelf),
        Command::Repair(dialect, file) => repair::reply(alloc, dialect, file, shelf),
        Command::Trace(dialect, rules, events) => trace::reply(
            alloc, dialect, rules, events, shelf,
        ),
        Command::Sample(hosts) => Ok(sample::answer(alloc, hosts)?),
        Command::Migrate(file) => migrate::reply(alloc, file, shelf),
        Command::Audit(dialect, file, rules) => audit::reply(alloc, dialect, file, rules, shelf),
        Command::Edit(file, edits) => edit::reply(alloc, file, edits, shelf),
        Command::Local(file, host) => local::reply(alloc, LocalDialect::Chains, file, host, shelf),
        Command::LocalTable(file, host) => {
            local::reply(alloc, LocalDialect::Table, file, host, shelf)
        }
    }
}
