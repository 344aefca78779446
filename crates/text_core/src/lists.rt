//! Parsing a list file with one entry per line: one parser for all such formats. A format defines
//! the parser of a line, and the limits.

ghost use Rattle.std.specs.Prelude.{◌≡◌, ◌<◌, ◌^◌, ℕ, List, map, IfOk, IfErr, MatchResult};
ghost use Rattle.text_core.specs.ListFormat.{ListFormat, IsBad, by_lines};
ghost use Rattle.text_core.specs.LineFormat.{HasFault, IsReading};
ghost use Rattle.text_core.specs.inner.ListAnswers.{EncodesAtMostOne, EncodesOnlyWellFormed};
ghost use Rattle.text_core.specs.inner.TextAnswers.{HasCause, HasReason, IsFault};
ghost use Rattle.text_core.specs.declared.faults.ListWhy.{ListWhy as Why};

use crate::faults::{LineFault, ListWhy, TextFault};
use crate::texts::{LineReader, read_lines};
use std::alloc::Global;

/// A list format.
pub trait EntryReader {
    /// The entry of a line, as the code represents it.
    type Entry: Drop;

    /// The model of an entry, and the format that defines it.
    ghost Told: { Type 0 };

    ghost list: { ListFormat Told };

    ghost told: { Self.Entry → Told };

    /// Returns the size limit in bytes, and the limit on entries.
    fn limits(&self) -> (usize, usize)
        ensures limits { result ≡ (list.byte_limit, list.most) }
        ensures small { list.byte_limit < 2 ^ 32 };

    /// Parses the entry of a line that is no comment, or returns the reason why it encodes none,
    /// regardless of the number of entries before it.
    fn read_entry(&self, number: u32, line: &[u8]) -> Result<Self::Entry, LineFault<ListWhy>>
        ensures ok { IfOk result (λ entry. list.Tells number line.now (told entry)) }
        ensures err { (before : List Told) → IfErr result (HasReason (IsBad list number before line.now)) };
}

/// Returns the entries of a file, or its first error. A line encodes at most one entry.
pub fn read_list<R: EntryReader>(
    alloc: Global,
    reader: &R,
    bytes: &[u8],
) -> Result<Vec<R::Entry>, TextFault<ListWhy>>
    requires one { EncodesAtMostOne R.list }
    requires formed { EncodesOnlyWellFormed R.list }
    ensures found { IfOk result (λ entries. IsReading (by_lines R.list) bytes.now (map R.told entries.items)) }
    // A file of entries is rejected only if allocation fails.
    ensures only { (said : List R.Told) → IsReading (by_lines R.list) bytes.now said →
        MatchResult result (λ entries. map R.told entries.items ≡ said) (λ fault. fault ≡ TextFault.Memory) }
    ensures refused { IfErr result (HasCause (by_lines R.list) bytes.now) }
    // A file has at most one first error, and none if it parses to entries.
    ensures faulty { (line : ℕ) (why : Why) → HasFault (by_lines R.list) bytes.now line why →
        MatchResult result (λ entries. ⊥) (IsFault line why) }
{
    let start = Listed {
        reader,
        entries: Vec::new(alloc),
    };
    match read_lines(start, bytes) {
        Ok(listed) => Ok(listed.entries),
        Err(fault) => Err(fault),
    }
}

/// The entries of the lines so far.
#[derive(Drop)]
struct Listed<'a, R, E> {
    reader: &'a R,
    entries: Vec<E>,
}

impl<'a, R: EntryReader> LineReader for Listed<'a, R, R::Entry> {
    type Why = ListWhy;

    ghost Said = { List R.Told };

    ghost text = { by_lines R.list };

    ghost said = { λ listed. map R.told listed.entries.items };

    ghost holds = { λ listed. Unit {0} };

    fn limit(&self) -> (usize, ListWhy) {
        let (bytes, _) = self.reader.limits();
        (bytes, ListWhy::TooLong)
    }

    fn read_line(mut self, number: u32, line: &[u8]) -> Result<Self, LineFault<ListWhy>> {
        let entry = self.reader.read_entry(number, line)?;
        let (_, most) = self.reader.limits();
        if self.entries.len() >= most {
            return Err(LineFault::Bad(ListWhy::TooMany));
        }
        self.entries.push(entry)?;
        Ok(self)
    }
}
