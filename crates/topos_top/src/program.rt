//! The entire program, generic over the file source and the two output sinks.

ghost use Rattle.std.specs.Prelude.{◌≡◌, ◌≢◌, ℕ, ◌≤◌, ◌↔◌, ◌⊎◌, map, string_bytes};
ghost use Rattle.topos_top.specs.Command.{Command, Sample, ParseAs, ParseAsNothing, ReportsViolationsOnOutput};
ghost use Rattle.topos_top.specs.Commands.{NamesNoFile};
ghost use Rattle.topos_top.specs.Promises.{DeliversReply, HasCause, MeetsHeadline, EndsAsSample, IsComplete};
ghost use Rattle.run_core.specs.Promises.{HasCauses};
ghost use Rattle.run_core.specs.Shelf.{shelf_change};
ghost use Rattle.run_core.specs.SinkChanges.{sink_change};

use crate::commands::answer_to;
use edge_io::{Shelf, Sink};
use run_core::{Status, deliver};
use std::alloc::Global;

/// Runs the command given by `words`: reads its files from `shelf`, writes the result to `out`, or
/// writes to `err` why there is none. All memory is allocated before the first byte is written.
pub fn run<H: Shelf, O: Sink, E: Sink>(
    alloc: Global,
    words: &[String],
    shelf: &mut H,
    out: &mut O,
    err: &mut E,
) -> Status
    ensures files_unchanged { H.files shelf.new ≡ H.files shelf.old }
    ensures faults_monotone { (H.faults shelf.old ≤ H.faults shelf.new) × (O.faults out.old ≤ O.faults out.new)
        × (E.faults err.old ≤ E.faults err.new) }

    // The run delivers exactly one allowed reply: a status, and a text on `out` or a line on `err`.
    ensures reply { DeliversReply (map string_bytes words.now) (shelf_change H.Shelf shelf.old shelf.new)
        (sink_change O.Sink out.old out.new) (sink_change E.Sink err.old err.new) result }

    // Consequences of `reply`. `Usage` is returned iff the arguments match no command form; no file
    // is read then.
    ensures usage { (result ≡ Status.Usage) ↔ ParseAsNothing (map string_bytes words.now) }
    ensures usage_opens_no_file { result ≡ Status.Usage → shelf.new ≡ shelf.old }
    ensures opens_no_file { NamesNoFile (map string_bytes words.now) → shelf.new ≡ shelf.old }

    // Every other status has its cause.
    ensures causes { HasCauses (λ status. HasCause status (map string_bytes words.now)
        (shelf_change H.Shelf shelf.old shelf.new)
        (sink_change O.Sink out.old out.new) (sink_change E.Sink err.old err.new)) result }

    // The headline: rules forward exactly what the policy of the network expects, for every list of
    // packets and forget events; `migrate` writes the description's own table; `audit` reports
    // `equal` only if the rules forward what the policy expects.
    ensures headline { result ≡ Status.Done → (command : Command) → ParseAs (map string_bytes words.now) command
        → MeetsHeadline command (shelf_change H.Shelf shelf.old shelf.new) (sink_change O.Sink out.old out.new) }

    // `sample` reads no file, and always writes its report unless the output fails or memory runs
    // out.
    ensures sample { (n : ℕ) → ParseAs (map string_bytes words.now) (Sample n)
        → (shelf.new ≡ shelf.old) × EndsAsSample n (sink_change O.Sink out.old out.new) result }

    // A stream that gets no text is unchanged. A command reports violations on one stream and
    // leaves the other unchanged.
    ensures output_unchanged { result ≢ Status.Done → result ≢ Status.WriteFault
        → (result ≡ Status.Violated → ReportsViolationsOnOutput (map string_bytes words.now) → ⊥) → out.new ≡ out.old }
    ensures stderr_unchanged { (result ≡ Status.Done) ⊎ ((result ≡ Status.Violated) × ReportsViolationsOnOutput (map string_bytes words.now))
        → err.new ≡ err.old }

    // If the shelf's files are observable, the arguments and the files determine the reply, and so
    // how the run ends.
    ensures complete { IsComplete (map string_bytes words.now) (shelf_change H.Shelf shelf.old shelf.new)
        (sink_change O.Sink out.old out.new) (sink_change E.Sink err.old err.new) result }
{
    let answer = answer_to(alloc, words, shelf);
    deliver(&answer, out, err)
}
