//! Parsing a file as the text of a table.

ghost use Rattle.std.specs.Prelude.{◌≡◌, ◌≤◌, Some, IfErr, IfNone, IfOk, IfSome, MatchResult, length};
ghost use Rattle.text_core.specs.Lines.{lines};
ghost use Rattle.nft_rules.specs.Loadable.{IsLoadable};
ghost use Rattle.nft_rules.specs.declared.table.Table.{Table};
ghost use Rattle.nft_text.specs.Text.{table_text};
ghost use Rattle.nft_read.specs.Reading.{HasCause, IsReading, IsTable, byte_limit};
ghost use Rattle.nft_read.specs.Shape.{table_shape};
ghost use Rattle.nft_read.specs.inner.Stops.{IsStopped};
ghost use Rattle.nft_read.specs.inner.TableSteps.{done_state, run, start};

use crate::fault::{NftFault, NftWhy};
use crate::reader::Reader;
use nft_space::LoadableTable;
use nft_text::is_text_of;
use std::alloc::{AllocError, Global};
use text_core::{Lines, TextFault};

/// The greatest size of a file, in bytes.
pub const BYTE_LIMIT: usize = 67_108_864;

/// Parses the text of a table that can be loaded, as `nft list table ip topos` prints it.
#[tactic(auto, using(crate::proofs::WholeLaws::table_one))]
pub fn read_table(alloc: Global, text: &[u8]) -> Result<LoadableTable, NftFault>
    ensures found { IfOk result (IsReading text.now) }
    // The text of a table that can be loaded is parsed to the contents of the table, unless
    // allocation fails.
    ensures only { (table : Table) → IsTable table → length text.now ≤ byte_limit → text.now ≡ table_text table →
        MatchResult result (λ read. table_shape read ≡ table_shape table) (λ fault. fault ≡ TextFault.Memory) }
    ensures refused { IfErr result (HasCause text.now) }
    // A file is the text of at most one table.
    ensures one { (a b : Table) → IsTable a → IsTable b → table_text a ≡ table_text b → table_shape a ≡ table_shape b }
{
    if text.len() > BYTE_LIMIT {
        return Err(TextFault::Refused {
            line: 0,
            why: NftWhy::TooLong,
        });
    }
    match read_lines(alloc, text) {
        Ok(reader) => judged(alloc, reader, text),
        Err(fault) => Err(fault),
    }
}

/// Parses all lines.
fn read_lines(alloc: Global, text: &[u8]) -> Result<Reader, NftFault>
    requires { length text.now ≤ byte_limit }
    ensures read { IfOk result (λ reader. run start (lines text.now) ≡ Some reader) }
    ensures stopped { IfErr result (IsStopped text.now) }
{
    let mut reader = Reader::new(alloc);
    let mut lines = Lines::new(text);
    let mut number = 0;
    while let Some(line) = lines.next_line() {
        number += 1;
        match reader.step(alloc, line) {
            Ok(Some(next)) => reader = next,
            Ok(None) => {
                return Err(TextFault::Refused {
                    line: number,
                    why: NftWhy::BadLine,
                });
            }
            Err(_) => return Err(TextFault::Memory),
        }
    }
    Ok(reader)
}

/// Returns the table of all lines, if it can be loaded and the file is its text.
fn judged(alloc: Global, reader: Reader, text: &[u8]) -> Result<LoadableTable, NftFault>
    requires short { length text.now ≤ byte_limit }
    requires read { run start (lines text.now) ≡ Some reader }
    ensures found { IfOk result (IsReading text.now) }
    ensures only { (table : Table) → IsTable table → text.now ≡ table_text table →
        MatchResult result (λ read. table_shape read ≡ table_shape table) (λ fault. fault ≡ TextFault.Memory) }
    ensures refused { IfErr result (HasCause text.now) }
{
    match printed(alloc, reader, text) {
        Ok(Some(table)) => Ok(table),
        Ok(None) => Err(TextFault::Refused {
            line: 0,
            why: NftWhy::NoTable,
        }),
        Err(_) => Err(TextFault::Memory),
    }
}

fn printed(alloc: Global, reader: Reader, text: &[u8]) -> Result<Option<LoadableTable>, AllocError>
    ensures found { IfOk result (λ read. IfSome read (λ table. IsLoadable table × (text.now ≡ table_text table))) }
    ensures shape { IfOk result (λ read. IfSome read (λ table. done_state (table_shape table) ≡ reader)) }
    ensures none { IfOk result (λ read. IfNone read ((table : Table) → IsTable table → done_state (table_shape table) ≡ reader → text.now ≡ table_text table → ⊥)) }
{
    let Some(table) = reader.finish() else {
        return Ok(None);
    };
    match LoadableTable::checked(alloc, table)? {
        Some(table) => Ok(with_text(table, text)),
        None => Ok(None),
    }
}

/// Returns the table if this is its text.
fn with_text(table: LoadableTable, text: &[u8]) -> Option<LoadableTable>
    ensures same { IfSome result (λ own. own ≡ table) }
    ensures found { IfSome result (λ own. IsLoadable own × (text.now ≡ table_text own)) }
    ensures none { IfNone result (text.now ≡ table_text table → ⊥) }
{
    if is_text_of(text, table.table()) {
        Some(table)
    } else {
        None
    }
}
