//! A stream of the operating system as a sink. The accepted bytes are not observable.
ghost use Rattle.std.specs.Prelude.{◌≡◌, None};
ghost use Rattle.std.specs.Io.KnownBytes.{WriteAppends};
ghost use Rattle.edge_io.specs.Failures.{CountsOnlyFailures};
ghost use Rattle.edge_io.specs.inner.Calls.{CountsFault, CountsOnce};

use crate::{Failed, Sink};
use std::io::Write;

/// A sink over a stream. Each error of the stream is a fault, and so is a write that accepts
/// nothing of a nonempty piece. The stream is not flushed, so it must be unbuffered.
#[derive(Drop)]
pub struct StreamSink<W: Write + Drop> {
    inner: W,
    faults: u64,
}

impl<W: Write + Drop> StreamSink<W> {
    /// Returns a sink over `inner`, without faults so far.
    pub fn new(inner: W) -> StreamSink<W>
        ensures no_faults { ⟦<StreamSink<W> as Sink>⟧.faults result ≡ 0 }
        ensures one_fault_per_failure { CountsOnce ⟦<StreamSink<W> as Sink>⟧.faults ⟦<StreamSink<W> as Sink>⟧.write_gives }
        ensures counts { CountsOnlyFailures ⟦<StreamSink<W> as Sink>⟧.faults ⟦<StreamSink<W> as Sink>⟧.write_gives }
    {
        StreamSink { inner, faults: 0 }
    }
}

impl<W: Write + Drop> Sink for StreamSink<W> {
    ghost held = { λ _. None };

    ghost faults = { λ s. s.faults };

    // The bytes that are reported as accepted went to the stream, if the stream's bytes are
    // observable.
    ghost write_gives = { λ old piece result new.
        WriteAppends (W.contents old.inner) (W.contents new.inner) result piece × CountsFault result old.faults new.faults };

    fn write(&mut self, piece: &[u8]) -> Result<usize, Failed> {
        match self.inner.write(piece) {
            Ok(count) if count > 0 || piece.is_empty() => Ok(count),
            _ => {
                self.faults = self.faults.saturating_add(1);
                Err(Failed)
            }
        }
    }
}
