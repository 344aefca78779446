//! Parsing an edit file: one edit per line, `add web db`, `remove web db`, `set 1 { host = "web",
//! level = 2 }` or `unset 1 web`.

ghost use Rattle.std.specs.Prelude.{◌≡◌, ℕ, List, map, IfOk, IfErr, MatchResult};
ghost use Rattle.text_core.specs.ListFormat.{by_lines};
ghost use Rattle.text_core.specs.inner.TextAnswers.{HasCause, IsFault};
ghost use Rattle.text_core.specs.declared.faults.ListWhy.{ListWhy};
ghost use Rattle.edit_core.specs.Edit.{Edit as Meant};
ghost use Rattle.edit_core.specs.inner.EditView.{edit_view};
ghost use Rattle.edit_core.specs.EditsText.{IsReadingOfEdits, IsRefusedInEdits, edits_text};

use crate::edit::Edit;
use crate::line::read_change;
use std::alloc::Global;
use text_core::{EntryReader, LineFault, ListWhy, TextFault, read_list};

/// The greatest size of an edit file, in bytes.
pub const EDITS_BYTE_LIMIT: usize = 1_048_576;

const EDIT_LIMIT: usize = 10_000;

/// The first line that encodes no edit, from 1, and the reason. Line 0 means the whole file.
///
/// - `TooLong`: more than 1,048,576 bytes.
/// - `BadLine`: the first word is none of the four, or the number of words is wrong.
/// - `BadValue`: an invalid invariant number or table, or a word that is not UTF-8.
/// - `TooMany`: the 10,001st edit.
pub type EditsFault = TextFault<ListWhy>;

/// Parses the edits of a file.
pub fn read_edits(alloc: Global, bytes: &[u8]) -> Result<Vec<Edit>, EditsFault>
    ensures found { IfOk result (λ edits. IsReadingOfEdits bytes.now (map edit_view edits.items)) }
    // A file of edits is rejected only if allocation fails.
    ensures only { (told : List Meant) → IsReadingOfEdits bytes.now told →
        MatchResult result (λ edits. map edit_view edits.items ≡ told) (λ fault. fault ≡ TextFault.Memory) }
    ensures refused { IfErr result (HasCause (by_lines edits_text) bytes.now) }
    // A file has at most one first error, and none if it parses to edits.
    ensures faulty { (line : ℕ) (why : ListWhy) → IsRefusedInEdits bytes.now line why →
        MatchResult result (λ edits. ⊥) (IsFault line why) }
{
    read_list(alloc, &EditLines { alloc }, bytes)
}

/// The line format of edit files.
#[derive(Drop)]
struct EditLines {
    alloc: Global,
}

impl EntryReader for EditLines {
    type Entry = Edit;

    ghost Told = { Meant };

    ghost list = { edits_text };

    ghost told = { edit_view };

    fn limits(&self) -> (usize, usize) {
        (EDITS_BYTE_LIMIT, EDIT_LIMIT)
    }

    fn read_entry(&self, number: u32, line: &[u8]) -> Result<Edit, LineFault<ListWhy>> {
        let change = read_change(self.alloc, line)?;
        Ok(Edit::on_line(number, change))
    }
}
