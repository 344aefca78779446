//! The whole program, over any shelf of files and any two sinks.

ghost use Rattle.std.specs.Prelude.{◌≡◌, ◌≢◌, ◌≤◌, ◌↔◌, ◌⊎◌, None, map, string_bytes};
ghost use Rattle.run_core.specs.Promises.{HasCauses};
ghost use Rattle.run_core.specs.Shelf.{shelf_change};
ghost use Rattle.run_core.specs.SinkChanges.{sink_change};
ghost use Rattle.run_core.specs.inner.Views.{reply_view};
ghost use Rattle.query_top.specs.Command.{Command, ParseAs, ParseAsNothing};
ghost use Rattle.query_top.specs.Promises.{DeliversReply, HasCause, HasRules, IsComplete, AnswersQuestion, OutputsDifferences};
ghost use Rattle.query_top.specs.inner.Command.{command_of};
ghost use Rattle.query_top.specs.Commands.{topos_query};
ghost use Rattle.run_core.specs.inner.Replies.{AllowsReplyTo};

use crate::command::{parse_command, usage};
use crate::commands::reply;
use edge_io::{Shelf, Sink};
use run_core::{Answer, Status, Text, deliver};
use std::alloc::Global;

/// Answers the question of the words: reads its files off the shelf, and writes the answer to `out`, or to `err` the
/// line that says why there is none. All memory is taken before the first byte is written.
pub fn run<H: Shelf, O: Sink, E: Sink>(
    alloc: Global,
    words: &[String],
    shelf: &mut H,
    out: &mut O,
    err: &mut E,
) -> Status
    ensures files_unchanged { H.files shelf.new ≡ H.files shelf.old }
    ensures faults_monotone { (H.faults shelf.old ≤ H.faults shelf.new) × (O.faults out.old ≤ O.faults out.new)
        × (E.faults err.old ≤ E.faults err.new) }

    // The run gives one reply that has its cause: its status, its text on its stream.
    ensures reply { DeliversReply (map string_bytes words.now) (shelf_change H.Shelf shelf.old shelf.new)
        (sink_change O.Sink out.old out.new) (sink_change E.Sink err.old err.new) result }

    // The usage is given exactly for words that are no form, and reads nothing.
    ensures usage { (result ≡ Status.Usage) ↔ ParseAsNothing (map string_bytes words.now) }
    ensures usage_opens_no_file { result ≡ Status.Usage → shelf.new ≡ shelf.old }

    // Each other status has its cause.
    ensures causes { HasCauses (λ status. HasCause status (map string_bytes words.now)
        (shelf_change H.Shelf shelf.old shelf.new)
        (sink_change O.Sink out.old out.new) (sink_change E.Sink err.old err.new)) result }

    // An answer on the output is the one to the question, for the network that the file describes.
    ensures answered { result ≡ Status.Done → (command : Command) → ParseAs (map string_bytes words.now) command
        → AnswersQuestion command (shelf_change H.Shelf shelf.old shelf.new) (sink_change O.Sink out.old out.new) }

    // Only a comparison with differences, and changes that weaken a flow, are violations. Then all of it is on the output.
    ensures differences { result ≡ Status.Violated → (command : Command) → ParseAs (map string_bytes words.now) command
        → OutputsDifferences command (shelf_change H.Shelf shelf.old shelf.new) (sink_change O.Sink out.old out.new) }

    // Only rules are a bad text.
    ensures only_rules { result ≡ Status.BadText → (command : Command) → ParseAs (map string_bytes words.now) command → HasRules command }

    // Without an answer the output is as it was, and with one the error stream is.
    ensures output_unchanged { result ≢ Status.Done → result ≢ Status.Violated → result ≢ Status.WriteFault → out.new ≡ out.old }
    ensures stderr_unchanged { (result ≡ Status.Done) ⊎ (result ≡ Status.Violated) → err.new ≡ err.old }

    // The words and the known files decide the reply, and so the answer, byte by byte but for the examples of packets
    // in the answers of `flows` and `changes`.
    ensures complete { IsComplete (map string_bytes words.now) (shelf_change H.Shelf shelf.old shelf.new)
        (sink_change O.Sink out.old out.new) (sink_change E.Sink err.old err.new) result }
{
    let answer = answer_to(alloc, words, shelf);
    deliver(&answer, out, err)
}

// Returns the reply to the words, with their files taken off the shelf.
fn answer_to<'a, H: Shelf>(alloc: Global, words: &'a [String], shelf: &mut H) -> Answer<'a>
    ensures reply { AllowsReplyTo topos_query (command_of (map string_bytes words.now))
        (shelf_change H.Shelf shelf.old shelf.new) (reply_view result) }
    ensures opens_no_file { command_of (map string_bytes words.now) ≡ None → shelf.new ≡ shelf.old }
{
    match parse_command(words) {
        None => Answer::error(Status::Usage, Text::Fixed(usage())),
        Some(command) => match reply(alloc, command, shelf) {
            Ok(answer) => answer,
            Err(answer) => answer,
        },
    }
}
