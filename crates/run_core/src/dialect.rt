//! The dialects of rules. All code that differs between them is here, in `chains`, `flows` and
//! `tables`, and in the usage text.

ghost use Rattle.std.specs.Prelude.{◌≡◌, ◌<◌, ◌≤◌, ◌^◌, IfOk, Some, length, slice_get, take};
ghost use Rattle.rules_space.specs.Rules.{filter_of};
ghost use Rattle.rules_space.specs.RulesView.{rules_of};
ghost use Rattle.report_core.specs.Trace.{IsTrace};
ghost use Rattle.run_core.specs.Dialects.{rule_dialect_of};
ghost use Rattle.run_core.specs.inner.DialectCalls.{IsRead, IsWritten};
ghost use Rattle.run_core.specs.inner.Forms.{dialect_named};
ghost use Rattle.run_core.specs.inner.Views.{rules_lines, rules_view};

mod chains;
mod flows;
mod tables;

use crate::text::Text;
use ipt_rules::Ruleset;
use ofp_rules::Table;
use pkt_core::{Event, FlowPolicy};
use report_core::{trace_rules, trace_table};
use rules_space::RulesRef;
use std::alloc::{AllocError, Global};
pub use tables::{TableWithChains, read_with_chains};

/// A dialect of rules.
#[derive(Clone, Copy)]
pub enum Dialect {
    /// Chains, as `iptables-restore` loads them.
    Iptables,
    /// Flow tables, as `ovs-ofctl` adds them.
    OpenFlow,
    /// Tables of nftables, as `nft -f` loads them.
    Nft,
}

impl Dialect {
    /// Returns the dialect of that name.
    pub fn named(word: &str) -> Option<Dialect>
        ensures { result ≡ dialect_named word.now }
    {
        match word {
            "iptables" => Some(Dialect::Iptables),
            "openflow" => Some(Dialect::OpenFlow),
            "nft" => Some(Dialect::Nft),
            _ => None,
        }
    }

    /// Returns the size limit of a file of rules.
    pub fn byte_limit(self) -> usize
        ensures most { result ≡ (rule_dialect_of self).byte_limit }
        ensures small { result ≤ 2 ^ 26 }
    {
        match self {
            Dialect::Iptables => ipt_read::BYTE_LIMIT,
            Dialect::OpenFlow => ofp_read::BYTE_LIMIT,
            Dialect::Nft => nft_read::BYTE_LIMIT,
        }
    }

    /// Parses rules.
    pub fn read(self, alloc: Global, bytes: &[u8]) -> Result<Rules, RulesFault>
        ensures { IsRead self bytes.now result }
    {
        match self {
            Dialect::Iptables => chains::read(alloc, bytes),
            Dialect::OpenFlow => flows::read(alloc, bytes),
            Dialect::Nft => tables::read(alloc, bytes),
        }
    }

    /// Returns the text of the rules of a policy, or the line with the reason why they cannot be
    /// emitted.
    pub fn layout<'a>(
        self,
        alloc: Global,
        policy: &FlowPolicy<'_>,
    ) -> Result<Result<Text<'a>, Vec<u8>>, AllocError>
        ensures { IfOk result (IsWritten self policy.now) }
    {
        match self {
            Dialect::Iptables => chains::layout(alloc, policy),
            Dialect::OpenFlow => flows::layout(alloc, policy),
            Dialect::Nft => tables::layout(alloc, policy),
        }
    }
}

/// Parsed rules of a dialect.
#[derive(Drop)]
pub enum Rules {
    /// Chains of iptables, or those with the verdicts of a table of nftables.
    Chains(Ruleset),
    /// A flow table of OpenFlow.
    Table(Table),
}

impl Rules {
    /// Returns the rules in the form of an audit.
    pub fn audited(&self) -> RulesRef<'_>
        ensures { rules_of result ≡ rules_view self.now }
    {
        match self {
            Rules::Chains(chains) => RulesRef::Ipt(chains),
            Rules::Table(table) => RulesRef::Ofp(table),
        }
    }

    /// Returns the result of the rules for each event, one line per event.
    pub fn trace(&self, alloc: Global, events: &[Event]) -> Result<Vec<u8>, AllocError>
        ensures { IfOk result (λ text. IsTrace (filter_of (rules_view self.now)) events.now text.items) }
    {
        match self {
            Rules::Chains(chains) => trace_rules(alloc, chains, events),
            Rules::Table(table) => trace_table(alloc, table, events),
        }
    }

    /// Returns the number of lines of the text.
    pub fn lines(&self) -> u32
        ensures { result ≡ length (rules_lines self.now) }
    {
        match self {
            Rules::Chains(chains) => chains.lines(),
            Rules::Table(table) => table.lines(),
        }
    }

    /// Writes line `i` of the text, from 0, with its newline to the front of the buffer, and
    /// returns its length.
    pub fn write_line(&self, i: u32, buffer: &mut [u8; 320]) -> usize
        requires { i < length (rules_lines self.now) }
        ensures line { slice_get (rules_lines self.now) i ≡ Some (take result buffer.new) }
        ensures short { result ≤ 320 }
    {
        match self {
            Rules::Chains(chains) => chains.write_line(i, buffer),
            Rules::Table(table) => {
                let mut line = [0; 256];
                let length = table.write_line(i, &mut line);
                buffer[..length].copy_from_slice(&line[..length]);
                length
            }
        }
    }
}

/// The reason why bytes are not parsed as rules.
#[derive(Clone, Copy)]
pub enum RulesFault {
    /// They are rejected: the number of the bad line, or 0 for all of them, and the reason.
    Refused(u32, &'static [u8]),
    /// Memory allocation failed.
    Memory,
}
