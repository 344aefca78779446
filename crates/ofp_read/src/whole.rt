//! Parsing a file as a flow table.

ghost use Rattle.std.specs.Prelude.{◌≡◌, ◌<◌, ◌+◌, ◌∷◌, [], ◌++◌, ℕ, List, Ok, Err, IfOk, IfErr, MatchResult, length, IsTrue};
ghost use Rattle.text_core.specs.inner.TextAnswers.{HasCause, HasReason, IsFault};
ghost use Rattle.ofp_rules.specs.declared.entry.Entry.{Entry};
ghost use Rattle.ofp_rules.specs.Ambiguity.{ContradictsNone, most_entries};
ghost use Rattle.ofp_rules.specs.Matching.{asks_of_ip};
ghost use Rattle.ofp_rules.specs.inner.Build.{IsTable};
ghost use Rattle.ofp_rules.specs.Text.{text};
ghost use Rattle.ofp_read.specs.declared.fault.OfpWhy.{OfpWhy};
ghost use Rattle.ofp_read.specs.inner.State.{IsLeftOut};
ghost use Rattle.ofp_read.specs.TextLines.{flows_text, HasFaultInFlows, IsReadingOfFlows};

use crate::fault::{OfpFault, OfpWhy};
use crate::line::read_flow;
use ofp_rules::{Entry, Table, TableRefusal};
use std::alloc::Global;
use text_core::{LineFault, LineReader, TextFault, read_lines};

/// The greatest size of a file, in bytes.
pub const BYTE_LIMIT: usize = 67_108_864;

/// Parses a flow table.
pub fn read(alloc: Global, bytes: &[u8]) -> Result<Table, OfpFault>
    ensures found { IfOk result (IsReadingOfFlows bytes.now) }
    // A file that has a parse result is rejected only if allocation fails.
    ensures only { (entries : List Entry) → IsReadingOfFlows bytes.now entries →
        MatchResult result (λ table. table ≡ entries) (λ fault. fault ≡ TextFault.Memory) }
    ensures refused { IfErr result (HasCause flows_text bytes.now) }
    // A file has at most one first error, and none if it has a parse result.
    ensures faulty { (line : ℕ) (why : OfpWhy) → HasFaultInFlows bytes.now line why →
        MatchResult result (λ table. ⊥) (IsFault line why) }
    // The text of a table parses to its entries.
    ensures written { (entries : List Entry) → IsTable entries → bytes.now ≡ text entries → IsReadingOfFlows bytes.now entries }
    // A formatted table is parsed back.
    ensures again { (entries : List Entry) → IsTable entries → bytes.now ≡ text entries →
        MatchResult result (λ table. table ≡ entries) (λ fault. fault ≡ TextFault.Memory) }
    // In the returned table each frame has one verdict.
    ensures table { IfOk result IsTable }
{
    let Ok(table) = Table::new(alloc) else {
        return Err(TextFault::Memory);
    };
    match read_lines(FlowReader { table }, bytes) {
        Ok(reader) => Ok(reader.table),
        Err(fault) => Err(fault),
    }
}

/// The entries of the lines so far.
#[derive(Drop)]
struct FlowReader {
    table: Table,
}

impl LineReader for FlowReader {
    type Why = OfpWhy;

    ghost Said = { List Entry };

    ghost text = { flows_text };

    ghost said = { λ reader. reader.table };

    ghost holds = { λ reader. Unit {0} };

    fn limit(&self) -> (usize, OfpWhy) {
        (BYTE_LIMIT, OfpWhy::TooLong)
    }

    #[tactic(auto, using(crate::proofs::TextLaws::asks_written, crate::proofs::TextLaws::entry_told))]
    fn read_line(self, number: u32, line: &[u8]) -> Result<FlowReader, LineFault<OfpWhy>> {
        match read_flow(line) {
            Ok(entry) => with_entry(self.table, entry),
            Err(why) => Err(LineFault::Bad(why)),
        }
    }
}

/// Returns the entries with one more.
#[tactic(auto, using(ofp_rules::proofs::AddingLaws::contradicts_none, ofp_rules::proofs::AddingLaws::fewer_than_most))]
fn with_entry(mut table: Table, entry: Entry) -> Result<FlowReader, LineFault<OfpWhy>>
    requires { IsTrue (asks_of_ip entry) }
    ensures added { IfOk result (λ now. now.table ≡ table ++ entry ∷ []) }
    ensures few { IfOk result (λ now. length table < most_entries) }
    ensures clear { IfOk result (λ now. ContradictsNone table entry) }
    ensures err { IfErr result (HasReason (IsLeftOut table entry)) }
{
    match table.add(entry) {
        Ok(()) => Ok(FlowReader { table }),
        Err(TableRefusal::TooMany { .. }) => Err(LineFault::Bad(OfpWhy::TooMany)),
        Err(TableRefusal::Ambiguous { .. }) => Err(LineFault::Bad(OfpWhy::Ambiguous)),
        Err(TableRefusal::Memory) => Err(LineFault::Memory),
    }
}
