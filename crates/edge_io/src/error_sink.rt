//! The error stream as a sink: a terminal is shown control codes as escapes, so that a name in a message
//! cannot act on it. A file or a pipe gets all bytes as they are.
ghost use Rattle.std.specs.Prelude.{◌≡◌, ◌≤◌, ℕ, true, if◌then◌else◌, false, List, ◌∷◌, length, take, None, IfOk, ◌<◌};
ghost use Rattle.std.specs.Io.KnownBytes.{Appends};
ghost use Rattle.edge_io.specs.Failures.{CountsOnlyFailures};
ghost use Rattle.edge_io.specs.TerminalText.{all_shown, digit_of, escape_of, is_code, last_of};
ghost use Rattle.edge_io.specs.inner.Calls.{CountsFault, CountsOnce};

use crate::{Failed, Sink};
use std::io::{self, Write};

/// A sink over an error stream. Each error of the stream is a fault, and so is a write that accepts nothing of
/// a nonempty piece. The stream is not flushed, so it must be unbuffered.
#[derive(Drop)]
pub struct ErrorSink<W: Write + Drop> {
    inner: W,
    is_terminal: bool,
    last: u8,
    faults: u64,
}

impl<W: Write + Drop> ErrorSink<W> {
    /// Returns a sink over `inner`, without faults so far. If `inner` is a terminal, it is shown control codes as
    /// escapes.
    pub fn new(inner: W, is_terminal: bool) -> ErrorSink<W>
        ensures no_faults { ⟦<ErrorSink<W> as Sink>⟧.faults result ≡ 0 }
        ensures one_fault_per_failure { CountsOnce ⟦<ErrorSink<W> as Sink>⟧.faults ⟦<ErrorSink<W> as Sink>⟧.write_gives }
        ensures counts { CountsOnlyFailures ⟦<ErrorSink<W> as Sink>⟧.faults ⟦<ErrorSink<W> as Sink>⟧.write_gives }
    {
        ErrorSink {
            inner,
            is_terminal,
            last: 0,
            faults: 0,
        }
    }

    // Writes bytes from the front of `piece`, and returns their number.
    fn write_front(&mut self, piece: &[u8]) -> io::Result<usize>
        ensures within { IfOk result (λ n. n ≤ length piece.now) }
        ensures written { IfOk result (λ n. Appends (W.contents self.old.inner) (W.contents self.new.inner)
            (if self.old.is_terminal then all_shown self.old.last (take n piece.now) else take n piece.now)) }
        ensures last { IfOk result (λ n. self.new.last ≡ last_of self.old.last (take n piece.now)) }
        ensures kind { self.new.is_terminal ≡ self.old.is_terminal }
        ensures faults { self.new.faults ≡ self.old.faults }
    {
        let plain = self.plain_len(piece);
        if plain == 0 {
            let Some(&code) = piece.first() else {
                return Ok(0);
            };
            self.inner.write_all(&escape(code))?;
            self.last = code;
            return Ok(1);
        }
        let count = self.inner.write(&piece[..plain])?;
        if count > 0 {
            self.last = piece[count - 1];
        }
        Ok(count)
    }

    // Returns how many bytes at the front of `piece` are written as they are.
    fn plain_len(&self, piece: &[u8]) -> usize
        ensures within { result ≤ length piece.now }
        ensures plain { self.now.is_terminal ≡ true → (n : ℕ) → n ≤ result → all_shown self.now.last (take n piece.now) ≡ take n piece.now }
        ensures whole { self.now.is_terminal ≡ false → result ≡ length piece.now }
        ensures code { (byte : ℕ) (bytes : List ℕ) → piece.now ≡ byte ∷ bytes → result ≡ 0 → (self.now.is_terminal ≡ true) × (is_code self.now.last byte ≡ true) }
    {
        if !self.is_terminal {
            return piece.len();
        }
        let mut last = self.last;
        for (index, &byte) in piece.iter().enumerate() {
            if is_control(last, byte) {
                return index;
            }
            last = byte;
        }
        piece.len()
    }
}

impl<W: Write + Drop> Sink for ErrorSink<W> {
    ghost held = { λ _. None };

    ghost faults = { λ s. s.faults };

    // The bytes that are reported as accepted went to the stream, a terminal's as they are shown, if the stream's
    // bytes are observable.
    ghost write_gives = { λ old piece result new.
        IfOk result (λ n. Appends (W.contents old.inner) (W.contents new.inner)
        (if old.is_terminal then all_shown old.last (take n piece) else take n piece) × (new.last ≡ last_of old.last (take n piece)))
        × CountsFault result old.faults new.faults };

    fn write(&mut self, piece: &[u8]) -> Result<usize, Failed> {
        match self.write_front(piece) {
            Ok(count) if count > 0 || piece.is_empty() => Ok(count),
            _ => {
                self.faults = self.faults.saturating_add(1);
                Err(Failed)
            }
        }
    }
}

// Returns whether a byte after another one is a control code, or the second byte of one, and no newline.
fn is_control(last: u8, byte: u8) -> bool
    ensures { result ≡ is_code last byte }
{
    byte < 32 && byte != b'\n' || byte == 127 || last == 194 && 128 <= byte && byte < 160
}

// Returns a control code as it is shown.
fn escape(code: u8) -> [u8; 4]
    ensures { result ≡ escape_of code }
{
    [b'\\', b'x', digit(code / 16), digit(code % 16)]
}

// Returns a hexadecimal digit.
fn digit(number: u8) -> u8
    requires { number < 16 }
    ensures { result ≡ digit_of number }
{
    if number < 10 {
        b'0' + number
    } else {
        b'a' - 10 + number
    }
}
