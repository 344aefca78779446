//! Tables of nftables: their parse, and the text of the table of a policy.

ghost use Rattle.std.specs.Prelude.{◌≡◌, IfOk};
ghost use Rattle.nft_read.specs.Reading.{IsReading};
ghost use Rattle.run_core.specs.Tables.{size_reason};
ghost use Rattle.run_core.specs.declared.dialect.Dialect.TheVariants.{Nft};
ghost use Rattle.run_core.specs.inner.DialectCalls.{IsRead, IsTableRead, IsWritten};

use crate::dialect::{Rules, RulesFault};
use crate::text::Text;
use ipt_rules::Ruleset;
use nft_chains::{ChainsRefusal, chains_of_table};
use nft_emit::nft_layout;
use nft_read::{read_table, table_ranges};
use nft_space::LoadableTable;
use nft_text::text_of;
use pkt_core::FlowPolicy;
use std::alloc::{AllocError, Global};
use text_core::TextFault;

/// A table of nftables, with the chains of iptables that have its verdicts.
#[derive(Drop)]
pub struct TableWithChains {
    pub table: LoadableTable,
    pub chains: Ruleset,
}

/// Parses the text of a table to the chains with its verdicts.
pub fn read(alloc: Global, bytes: &[u8]) -> Result<Rules, RulesFault>
    ensures { IsRead Nft bytes.now result }
{
    match read_with_chains(alloc, bytes) {
        Ok(read) => Ok(Rules::Chains(read.chains)),
        Err(fault) => Err(fault),
    }
}

/// Parses the text of a table to the table and the chains with its verdicts.
pub fn read_with_chains(alloc: Global, bytes: &[u8]) -> Result<TableWithChains, RulesFault>
    ensures { IsTableRead bytes.now result }
{
    match read_table(alloc, bytes) {
        Ok(table) => with_chains(alloc, bytes, table),
        Err(TextFault::Refused { line, why }) => Err(RulesFault::Refused(line, why.name())),
        Err(TextFault::Memory) => Err(RulesFault::Memory),
    }
}

/// Returns a parsed table with the chains with its verdicts.
fn with_chains(
    alloc: Global,
    bytes: &[u8],
    table: LoadableTable,
) -> Result<TableWithChains, RulesFault>
    requires { IsReading bytes.now table }
    ensures { IsTableRead bytes.now result }
{
    table_ranges(&table);
    match chains_of_table(alloc, &table) {
        Ok(Ok(chains)) => Ok(TableWithChains { table, chains }),
        Ok(Err(refusal)) => Err(RulesFault::Refused(0, size_reason(refusal))),
        Err(AllocError) => Err(RulesFault::Memory),
    }
}

/// Returns the reason for too large a table, as it is printed.
fn size_reason(refusal: ChainsRefusal) -> &'static [u8]
    ensures { result.now ≡ size_reason refusal }
{
    match refusal {
        ChainsRefusal::TooManyChains => b"TooManyChains",
        ChainsRefusal::TooManyRules => b"TooManyRules",
    }
}

/// Returns the text of the table of a policy, which can always be emitted.
pub fn layout<'a>(
    alloc: Global,
    policy: &FlowPolicy<'_>,
) -> Result<Result<Text<'a>, Vec<u8>>, AllocError>
    ensures { IfOk result (IsWritten Nft policy.now) }
{
    let table = LoadableTable::of(nft_layout(alloc, policy)?);
    table_ranges(&table);
    let text = text_of(alloc, table.table())?;
    Ok(Ok(Text::Bytes(text)))
}
