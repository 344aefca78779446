//! Rules that other programs read in the same way: `iptables-restore`, for chains.

ghost use Rattle.std.specs.Prelude.{Ok};
ghost use Rattle.run_core.specs.Shelf.{shelf_change};
ghost use Rattle.run_core.specs.declared.dialect.Dialect.TheVariants.{Iptables, Nft, OpenFlow};
ghost use Rattle.run_core.specs.inner.DialectCalls.{IsRead};
ghost use Rattle.run_core.specs.inner.Views.{outcome_view, rules_outcome};
ghost use Rattle.query_top.specs.inner.Reads.{IsReadPlainly, MayReadPlainRules, MayReadPlainTable};

use edge_io::Shelf;
use ipt_plain::plain_fault;
use run_core::{
    Answer, Dialect, Format, Rules, RulesFault, TableWithChains, read_with_chains, take,
};
use std::alloc::Global;

/// The format of a file of such rules.
#[derive(Clone, Copy)]
pub struct PlainRules {
    pub dialect: Dialect,
}

impl Format for PlainRules {
    ghost use Rattle.query_top.specs.PlainRules.{plain_rules};

    ghost format_of = { λ file. plain_rules file.dialect };

    fn most(&self) -> usize {
        self.dialect.byte_limit()
    }

    fn too_long<'a>(&self) -> Answer<'a> {
        Answer::bad_text(b"rules", 0, b"TooLong")
    }
}

/// Reads the rules of a file.
pub fn read_plain_rules<'a, H: Shelf>(
    alloc: Global,
    dialect: Dialect,
    name: &'a str,
    shelf: &mut H,
) -> Result<Rules, Answer<'a>>
    ensures { MayReadPlainRules dialect name.now (shelf_change H.Shelf shelf.old shelf.new) (rules_outcome result) }
{
    let bytes = take(alloc, &PlainRules { dialect }, name, shelf)?;
    match read_plain(dialect, alloc, &bytes) {
        Ok(rules) => Ok(rules),
        Err(RulesFault::Refused(line, reason)) => Err(Answer::bad_text(b"rules", line, reason)),
        Err(RulesFault::Memory) => Err(Answer::no_memory()),
    }
}

/// Reads the table of nftables of a file, with its chains.
pub fn read_plain_table<'a, H: Shelf>(
    alloc: Global,
    name: &'a str,
    shelf: &mut H,
) -> Result<TableWithChains, Answer<'a>>
    ensures { MayReadPlainTable name.now (shelf_change H.Shelf shelf.old shelf.new) (outcome_view result) }
{
    let dialect = Dialect::Nft;
    let bytes = take(alloc, &PlainRules { dialect }, name, shelf)?;
    match read_with_chains(alloc, &bytes) {
        Ok(read) => Ok(read),
        Err(RulesFault::Refused(line, reason)) => Err(Answer::bad_text(b"rules", line, reason)),
        Err(RulesFault::Memory) => Err(Answer::no_memory()),
    }
}

/// Parses rules from a text that other programs read in the same way.
fn read_plain(dialect: Dialect, alloc: Global, bytes: &[u8]) -> Result<Rules, RulesFault>
    ensures { IsReadPlainly dialect bytes.now result }
{
    match dialect {
        Dialect::Iptables => read_chains(alloc, bytes),
        Dialect::OpenFlow => read_flows(alloc, bytes),
        Dialect::Nft => read_table(alloc, bytes),
    }
}

/// Parses chains from a text that `iptables-restore` reads in the same way.
fn read_chains(alloc: Global, bytes: &[u8]) -> Result<Rules, RulesFault>
    ensures { IsReadPlainly Iptables bytes.now result }
{
    match Dialect::Iptables.read(alloc, bytes) {
        Ok(rules) => if_plain(rules, bytes),
        Err(fault) => Err(fault),
    }
}

/// Parses a flow table from a text that other programs read in the same way, which each is.
fn read_flows(alloc: Global, bytes: &[u8]) -> Result<Rules, RulesFault>
    ensures { IsReadPlainly OpenFlow bytes.now result }
{
    match Dialect::OpenFlow.read(alloc, bytes) {
        Ok(rules) => Ok(rules),
        Err(fault) => Err(fault),
    }
}

/// Parses a table of nftables. nft reads a text that it prints in the same way.
fn read_table(alloc: Global, bytes: &[u8]) -> Result<Rules, RulesFault>
    ensures { IsReadPlainly Nft bytes.now result }
{
    match Dialect::Nft.read(alloc, bytes) {
        Ok(rules) => Ok(rules),
        Err(fault) => Err(fault),
    }
}

/// Returns the parsed chains if `iptables-restore` reads the text in the same way.
fn if_plain(rules: Rules, bytes: &[u8]) -> Result<Rules, RulesFault>
    requires { IsRead Iptables bytes.now (Ok rules) }
    ensures { IsReadPlainly Iptables bytes.now result }
{
    match plain_fault(bytes) {
        None => Ok(rules),
        Some(fault) => Err(RulesFault::Refused(fault.line, fault.why.name())),
    }
}
