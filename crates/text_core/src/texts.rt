//! Parsing a file line by line: one loop for all parsers. A parser defines the effect of a line, or
//! the reason why the line is rejected; the first rejected line ends the loop.

ghost use Rattle.std.specs.Prelude.{◌≡◌, ◌<◌, ◌^◌, length, Ok, Err, IfOk, IfErr, IsFalse};
ghost use Rattle.text_core.specs.Lines.{lines, is_comment};
ghost use Rattle.text_core.specs.LineFormat.{LineFormat, IsReadToEnd};
ghost use Rattle.text_core.specs.inner.TextAnswers.{HasCause, HasReason, Passes, Stops};

use crate::faults::{LineFault, TextFault};
use crate::lines::{Lines, is_comment};

/// The state of a parser between two lines.
pub trait LineReader: Sized + Drop {
    /// The reason to reject a file.
    type Why: Drop;

    /// The model of the parser state, and the format that defines it.
    ghost Said: { Type 0 };

    ghost text: { LineFormat Said Self.Why };

    ghost said: { Self → Said };

    /// The invariant between two lines, private to the parser.
    ghost holds: { Self → Type 0 };

    /// Returns the size limit in bytes, and the reason to reject a longer file.
    fn limit(&self) -> (usize, Self::Why)
        ensures limit { result ≡ (text.byte_limit, text.too_long_reason) }
        ensures small { text.byte_limit < 2 ^ 32 };

    /// Parses one more line, which is no comment.
    fn read_line(self, number: u32, line: &[u8]) -> Result<Self, LineFault<Self::Why>>
        requires holds { holds self }
        requires not_comment { IsFalse (is_comment line.now) }
        ensures holds { IfOk result holds }
        ensures ok { IfOk result (λ next. text.IsLine number (said self) line.now (said next)) }
        ensures err { IfErr result (HasReason (text.IsBadLine number (said self) line.now)) };
}

/// Parses a file to its last line. The caller checks whether the file may end there.
pub fn read_lines<R: LineReader>(start: R, bytes: &[u8]) -> Result<R, TextFault<R::Why>>
    requires holds { R.holds start }
    requires start { R.said start ≡ R.text.start }
    ensures holds { IfOk result R.holds }
    ensures read { IfOk result (λ reader. IsReadToEnd R.text bytes.now (R.said reader)) }
    ensures refused { IfErr result (HasCause R.text bytes.now) }
{
    match read_counted_lines(start, bytes) {
        Ok((reader, _)) => Ok(reader),
        Err(fault) => Err(fault),
    }
}

/// Parses a file to its last line, like `read_lines`, and also returns the number of lines.
pub fn read_counted_lines<R: LineReader>(
    start: R,
    bytes: &[u8],
) -> Result<(R, u32), TextFault<R::Why>>
    requires holds { R.holds start }
    requires start { R.said start ≡ R.text.start }
    ensures holds { IfOk result (λ read. R.holds read.0) }
    ensures read { IfOk result (λ read. IsReadToEnd R.text bytes.now (R.said read.0)) }
    ensures counted { IfOk result (λ read. read.1 ≡ length (lines bytes.now)) }
    ensures refused { IfErr result (HasCause R.text bytes.now) }
{
    let (limit, why) = start.limit();
    if bytes.len() > limit {
        return Err(TextFault::Refused { line: 0, why });
    }
    let mut lines = Lines::new(bytes);
    let mut reader = start;
    let mut number = 0;
    while let Some(line) = lines.next_line() {
        number += 1;
        reader = read_one(reader, number, line)?;
    }
    Ok((reader, number))
}

/// Parses one more line, or skips a comment.
fn read_one<R: LineReader>(reader: R, number: u32, line: &[u8]) -> Result<R, TextFault<R::Why>>
    requires { R.holds reader }
    ensures holds { IfOk result R.holds }
    ensures ok { IfOk result (λ next. Passes R.text number (R.said reader) line.now (R.said next)) }
    ensures err { IfErr result (Stops R.text number (R.said reader) line.now) }
{
    if is_comment(line) {
        return Ok(reader);
    }
    match reader.read_line(number, line) {
        Ok(next) => Ok(next),
        Err(LineFault::Bad(why)) => Err(TextFault::Refused { line: number, why }),
        Err(LineFault::Memory) => Err(TextFault::Memory),
    }
}
