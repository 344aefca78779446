//! A text for a stream. Writing a text never allocates, so an allocation failure can be reported.

ghost use Rattle.std.specs.Prelude.{◌≡◌, ◌≤◌, OnOk, OnErr};
ghost use Rattle.std.specs.Io.KnownBytes.{append_known};
ghost use Rattle.edge_io.specs.Counts.{Rose};
ghost use Rattle.edge_io.specs.Observable.{AppendsPrefixOf};
ghost use Rattle.desc_form.specs.Refusals.{name};
ghost use Rattle.report_core.specs.RefusalLine.{refusal_text};
ghost use Rattle.run_core.specs.TextFault.{fault_line};
ghost use Rattle.run_core.specs.inner.Views.{text_view};

use crate::dialect::Rules;
use crate::lines::put_lines;
use desc_core::{Refusal, Why};
use edge_io::{Sink, WriteFault, put_all, put_pieces};
use report_core::{Report, refusal_line};

/// The text for a stream.
#[derive(Drop)]
pub enum Text<'a> {
    /// The line for a file that cannot be read.
    CannotRead(&'a str),
    /// The line for a refused description.
    Refusal(Refusal),
    /// The line for another rejected file: the kind of its content, the number of its bad line, or
    /// 0 for the whole file, and the reason.
    Fault(&'static [u8], u32, &'static [u8]),
    /// The line for another rejected file, with a reason to refuse a description: the kind of its
    /// content, the number of its bad line, and the reason.
    RefusedLine(&'static [u8], u32, Why),
    /// A report.
    Report(Report),
    /// A fixed text.
    Fixed(&'static [u8]),
    /// A text that is already formatted.
    Bytes(Vec<u8>),
    /// Rules, which are formatted line by line.
    Rules(Rules),
}

impl<'a> Text<'a> {
    /// Writes the text to the sink, without allocation, and stops at the first error.
    pub fn put<O: Sink>(&self, sink: &mut O) -> Result<(), WriteFault>
        ensures prefix { AppendsPrefixOf (O.held sink.old) (O.held sink.new) (text_view self.now) }
        ensures whole { OnOk result (O.held sink.new ≡ append_known (O.held sink.old) (text_view self.now)) }
        ensures faults_monotone { O.faults sink.old ≤ O.faults sink.new }
        ensures fault { OnErr result (Rose (O.faults sink.old) (O.faults sink.new)) }
    {
        match self {
            Text::Fixed(text) => put_all(sink, text),
            Text::CannotRead(name) => {
                put_pieces(sink, &[b"topos: cannot read ", name.as_bytes(), b"\n"])
            }
            Text::Refusal(why) => put_refusal(sink, why),
            Text::Fault(text, line, reason) => put_fault(sink, text, *line, reason),
            Text::RefusedLine(text, line, why) => put_refused_line(sink, text, *line, why),
            Text::Report(report) => put_all(sink, report.bytes()),
            Text::Bytes(bytes) => put_all(sink, bytes),
            Text::Rules(rules) => put_lines(sink, rules),
        }
    }
}

/// Writes the line for a refused description.
fn put_refusal<O: Sink>(sink: &mut O, why: &Refusal) -> Result<(), WriteFault>
    ensures prefix { AppendsPrefixOf (O.held sink.old) (O.held sink.new) (refusal_text why.now) }
    ensures whole { OnOk result (O.held sink.new ≡ append_known (O.held sink.old) (refusal_text why.now)) }
    ensures faults_monotone { O.faults sink.old ≤ O.faults sink.new }
    ensures fault { OnErr result (Rose (O.faults sink.old) (O.faults sink.new)) }
{
    let mut line = [0; 256];
    let length = refusal_line(why, &mut line);
    put_all(sink, &line[..length])
}

/// Writes the line for a rejected file, with the number of its bad line and the reason.
fn put_fault<O: Sink>(sink: &mut O, text: &[u8], line: u32, reason: &[u8]) -> Result<(), WriteFault>
    ensures prefix { AppendsPrefixOf (O.held sink.old) (O.held sink.new) (fault_line text.now line reason.now) }
    ensures whole { OnOk result (O.held sink.new ≡ append_known (O.held sink.old) (fault_line text.now line reason.now)) }
    ensures faults_monotone { O.faults sink.old ≤ O.faults sink.new }
    ensures fault { OnErr result (Rose (O.faults sink.old) (O.faults sink.new)) }
{
    let mut digits = itoa::Buffer::new();
    put_pieces(
        sink,
        &[
            b"topos: ",
            text,
            b": line ",
            digits.format(line).as_bytes(),
            b": ",
            reason,
            b"\n",
        ],
    )
}

/// Writes the line for a rejected file, with a reason to refuse a description.
fn put_refused_line<O: Sink>(
    sink: &mut O,
    text: &[u8],
    line: u32,
    why: &Why,
) -> Result<(), WriteFault>
    ensures prefix { AppendsPrefixOf (O.held sink.old) (O.held sink.new) (fault_line text.now line (name why.now)) }
    ensures whole { OnOk result (O.held sink.new ≡ append_known (O.held sink.old) (fault_line text.now line (name why.now))) }
    ensures faults_monotone { O.faults sink.old ≤ O.faults sink.new }
    ensures fault { OnErr result (Rose (O.faults sink.old) (O.faults sink.new)) }
{
    put_fault(sink, text, line, why.name().as_bytes())
}
