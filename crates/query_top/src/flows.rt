//! `flows DIALECT FILE RULES`: what rules let pass between the hosts of a network.

ghost use Rattle.std.specs.Prelude.{◌≡◌, IfOk, true};
ghost use Rattle.nft_chains.specs.Translation.{chains_of};
ghost use Rattle.run_core.specs.CommandPlan.{ends, reads};
ghost use Rattle.run_core.specs.Outcomes.{Answers, writes};
ghost use Rattle.run_core.specs.Replies.{IsPossibleReply};
ghost use Rattle.run_core.specs.Shelf.{shelf_change};
ghost use Rattle.run_core.specs.Tables.{HasRules, TableRules};
ghost use Rattle.run_core.specs.declared.dialect.Dialect.TheVariants.{Iptables, Nft, OpenFlow};
ghost use Rattle.run_core.specs.inner.Views.{reply_in, reply_view, rules_view};
ghost use Rattle.query_top.specs.PlainRules.{plain_rules};
ghost use Rattle.query_top.specs.Command.{Flows};
ghost use Rattle.query_top.specs.Commands.{plan_of};
ghost use Rattle.query_top.specs.Flows.{IsFlowsAnswer, flows_outcomes};

use crate::plain_rules::{read_plain_rules, read_plain_table};
use decide_core::{dead_places, flows_by_pairs};
use edge_io::Shelf;
use flows_json::{flows_json, table_flows_json};
use host_net::Hosts;
use nft_flows::{dead_of_table, flows_of_table};
use run_core::{Answer, Dialect, Rules, TableWithChains, Text, read_description};
use std::alloc::{AllocError, Global};

/// Returns the answer for the hosts that the file describes and the rules of the other file.
pub fn reply<'a, H: Shelf>(
    alloc: Global,
    dialect: Dialect,
    file: &'a str,
    rules: &'a str,
    shelf: &mut H,
) -> Result<Answer<'a>, Answer<'a>>
    ensures { IsPossibleReply true (plan_of (Flows dialect file.now rules.now))
        (shelf_change H.Shelf shelf.old shelf.new) (reply_in result) }
{
    let description = read_description(alloc, file, shelf)?;
    reply_for(alloc, dialect, description.hosts(), rules, shelf)
}

// Returns the answer for the hosts.
fn reply_for<'a, H: Shelf>(
    alloc: Global,
    dialect: Dialect,
    hosts: &Hosts,
    rules: &'a str,
    shelf: &mut H,
) -> Result<Answer<'a>, Answer<'a>>
    ensures { IsPossibleReply true (reads (plain_rules dialect) rules.now (λ said. ends (flows_outcomes dialect hosts.now said)))
        (shelf_change H.Shelf shelf.old shelf.new) (reply_in result) }
{
    match dialect {
        Dialect::Iptables => chains_reply(alloc, hosts, rules, shelf),
        Dialect::OpenFlow => entries_reply(alloc, hosts, rules, shelf),
        Dialect::Nft => table_reply(alloc, hosts, rules, shelf),
    }
}

// Returns the answer for chains of iptables.
fn chains_reply<'a, H: Shelf>(
    alloc: Global,
    hosts: &Hosts,
    rules: &'a str,
    shelf: &mut H,
) -> Result<Answer<'a>, Answer<'a>>
    ensures { IsPossibleReply true (reads (plain_rules Iptables) rules.now (λ said. ends (flows_outcomes Iptables hosts.now said)))
        (shelf_change H.Shelf shelf.old shelf.new) (reply_in result) }
{
    let rules = read_plain_rules(alloc, Dialect::Iptables, rules, shelf)?;
    Answer::of_outcomes(answer(alloc, hosts, &rules))
}

// Returns the answer for a flow table.
fn entries_reply<'a, H: Shelf>(
    alloc: Global,
    hosts: &Hosts,
    rules: &'a str,
    shelf: &mut H,
) -> Result<Answer<'a>, Answer<'a>>
    ensures { IsPossibleReply true (reads (plain_rules OpenFlow) rules.now (λ said. ends (flows_outcomes OpenFlow hosts.now said)))
        (shelf_change H.Shelf shelf.old shelf.new) (reply_in result) }
{
    let rules = read_plain_rules(alloc, Dialect::OpenFlow, rules, shelf)?;
    Answer::of_outcomes(answer(alloc, hosts, &rules))
}

fn answer<'a>(alloc: Global, hosts: &Hosts, rules: &Rules) -> Result<Answer<'a>, AllocError>
    ensures { IfOk result (λ answer. Answers true (writes (IsFlowsAnswer hosts.now (rules_view rules.now)) (IsFlowsAnswer hosts.now (rules_view rules.now))) (reply_view answer)) }
{
    let rules = rules.audited();
    let flows = flows_by_pairs(alloc, &rules, hosts)?;
    let dead = dead_places(alloc, &rules)?;
    let text = flows_json(alloc, &rules, hosts, &flows, &dead)?;
    Ok(Answer::done(Text::Bytes(text)))
}

// Returns the answer for a table of nftables.
fn table_reply<'a, H: Shelf>(
    alloc: Global,
    hosts: &Hosts,
    rules: &'a str,
    shelf: &mut H,
) -> Result<Answer<'a>, Answer<'a>>
    ensures { IsPossibleReply true (reads (plain_rules Nft) rules.now (λ said. ends (flows_outcomes Nft hosts.now said)))
        (shelf_change H.Shelf shelf.old shelf.new) (reply_in result) }
{
    let read = read_plain_table(alloc, rules, shelf)?;
    Answer::of_outcomes(table_answer(alloc, hosts, &read))
}

fn table_answer<'a>(
    alloc: Global,
    hosts: &Hosts,
    read: &TableWithChains,
) -> Result<Answer<'a>, AllocError>
    requires { read.now.chains ≡ chains_of read.now.table }
    ensures { IfOk result (λ answer. (said : TableRules) → HasRules read.now.table said → Answers true (flows_outcomes Nft hosts.now said) (reply_view answer)) }
{
    let flows = flows_of_table(alloc, &read.table, &read.chains, hosts)?;
    let dead = dead_of_table(alloc, &read.table, &read.chains)?;
    let text = table_flows_json(alloc, read.table.table(), hosts, &flows, &dead)?;
    Ok(Answer::done(Text::Bytes(text)))
}
