//! Delivery of a reply: its text is written to its stream.

ghost use Rattle.std.specs.Prelude.{◌≡◌, ◌≢◌, ◌≤◌};
ghost use Rattle.run_core.specs.SinkChanges.{IsDelivered};
ghost use Rattle.run_core.specs.SinkChanges.{sink_change};
ghost use Rattle.run_core.specs.inner.Views.{reply_view};

use crate::answer::Answer;
use crate::status::{Status, Stream};
use edge_io::{Sink, put_all};

/// Writes the reply to its stream, and returns the status of the run. A failure of `err` changes
/// nothing else.
pub fn deliver<O: Sink, E: Sink>(answer: &Answer<'_>, out: &mut O, err: &mut E) -> Status
    ensures given { IsDelivered (sink_change O.Sink out.old out.new)
        (sink_change E.Sink err.old err.new) (reply_view answer.now) result }
    ensures output_unchanged { answer.now.stream ≡ Stream.Errors → out.new ≡ out.old }
    ensures stderr_unchanged { result ≢ Status.WriteFault → answer.now.stream ≡ Stream.Output → err.new ≡ err.old }
    ensures out_faults_stay { O.faults out.old ≤ O.faults out.new }
    ensures err_faults_stay { E.faults err.old ≤ E.faults err.new }
{
    match answer.stream {
        Stream::Output => {
            if answer.text.put(out).is_err() {
                let _ = put_all(err, b"topos: cannot write\n");
                return Status::WriteFault;
            }
        }
        Stream::Errors => {
            let _ = answer.text.put(err);
        }
    }
    answer.status
}
