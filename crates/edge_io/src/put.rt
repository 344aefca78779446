//! Writing pieces to a sink, completely or up to a fault.
ghost use Rattle.std.specs.Prelude.{◌≡◌, ◌≤◌, OnOk, OnErr};
ghost use Rattle.std.specs.Io.KnownBytes.{append_known};
ghost use Rattle.edge_io.specs.Counts.{Rose};
ghost use Rattle.edge_io.specs.Observable.{AppendsPrefixOf};
ghost use Rattle.edge_io.specs.Failures.{CountsOnlyFailures};
ghost use Rattle.edge_io.specs.inner.Calls.{CountsFault, CountsOnce, joined};

use crate::{Sink, WriteFault};

/// Writes the whole piece to the sink, in as many writes as necessary, and stops at the first
/// fault.
pub fn put_all<O: Sink>(sink: &mut O, piece: &[u8]) -> Result<(), WriteFault>
    ensures prefix { AppendsPrefixOf (O.held sink.old) (O.held sink.new) piece.now }
    ensures whole { OnOk result (O.held sink.new ≡ append_known (O.held sink.old) piece.now) }
    ensures faults_monotone { O.faults sink.old ≤ O.faults sink.new }
    ensures fault { OnErr result (Rose (O.faults sink.old) (O.faults sink.new)) }
    ensures no_fault { CountsOnlyFailures O.faults O.write_gives →
        OnOk result (O.faults sink.new ≡ O.faults sink.old) }

    // There is no write after the one that failed.
    ensures first_fault { CountsOnce O.faults O.write_gives →
        CountsFault result (O.faults sink.old) (O.faults sink.new) }
{
    let mut done = 0;
    while done < piece.len() {
        let Ok(count) = sink.write(&piece[done..]) else {
            return Err(WriteFault);
        };
        done += count;
    }
    Ok(())
}

/// Writes the pieces to the sink in order, as one text, and stops at the first fault.
pub fn put_pieces<O: Sink>(sink: &mut O, pieces: &[&[u8]]) -> Result<(), WriteFault>
    ensures prefix { AppendsPrefixOf (O.held sink.old) (O.held sink.new) (joined pieces.now) }
    ensures whole { OnOk result (O.held sink.new ≡ append_known (O.held sink.old) (joined pieces.now)) }
    ensures faults_monotone { O.faults sink.old ≤ O.faults sink.new }
    ensures fault { OnErr result (Rose (O.faults sink.old) (O.faults sink.new)) }
    ensures no_fault { CountsOnlyFailures O.faults O.write_gives →
        OnOk result (O.faults sink.new ≡ O.faults sink.old) }

    // There is no write after the one that failed.
    ensures first_fault { CountsOnce O.faults O.write_gives →
        CountsFault result (O.faults sink.old) (O.faults sink.new) }

    // The text is complete if there was no fault, even if the result is not checked.
    ensures complete_without_fault { ¬ Rose (O.faults sink.old) (O.faults sink.new) →
        O.held sink.new ≡ append_known (O.held sink.old) (joined pieces.now) }
{
    for piece in pieces {
        put_all(sink, piece)?;
    }
    Ok(())
}
