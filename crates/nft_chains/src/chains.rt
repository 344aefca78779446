//! The chains of a table, as a rule set.

ghost use Rattle.std.specs.Prelude.{◌≡◌, ◌≤◌, ◌<◌, ◌+◌, IfErr, IfNone, IfOk, IfSome, IsNone, IsTrue, None, OnOk, length};
ghost use Rattle.std.specs.List.{list_all};
ghost use Rattle.ipt_rules.specs.Chain.{number_of};
ghost use Rattle.ipt_rules.specs.ChainTable.{rule_count, rule_limit};
ghost use Rattle.ipt_rules.specs.inner.Build.{refusal_of};
ghost use Rattle.ipt_rules.specs.inner.RuleParts.{is_rule};
ghost use Rattle.nft_rules.specs.Loadable.{AreRules, IsLoadable};
ghost use Rattle.nft_chains.specs.Refusals.{IsTooLarge};
ghost use Rattle.nft_chains.specs.Translation.{HaveSameVerdicts, built_in_of, chain_name, chain_of, chains_of, rules_of_rules};
ghost use Rattle.nft_chains.specs.inner.Building.{Adds, AreCounted, Fills, table_limit};

use crate::refusal::ChainsRefusal;
use crate::rules::{every_packet, push_rules};
use emit_core::{build_accepted, fill};
use ipt_rules::{
    CHAIN_LIMIT, ChainName, Chains, FORWARD, Policy, RULE_LIMIT, Rule as ChainRule, Ruleset, Target,
};
use nft_rules::{Chain, Rule, Table};
use nft_space::LoadableTable;
use std::alloc::{AllocError, Global};

/// Returns the chains with the verdicts of a table, or why they are too many.
pub fn chains_of_table(
    alloc: Global,
    table: &LoadableTable,
) -> Result<Result<Ruleset, ChainsRefusal>, AllocError>
    ensures chains { IfOk result (λ answer. IfOk answer (λ rules. rules ≡ chains_of table.now)) }
    ensures accepted { IfOk result (λ answer. OnOk answer (refusal_of (chains_of table.now) ≡ None)) }
    ensures refused { IfOk result (λ answer. IfErr answer (IsTooLarge table.now)) }

    // A packet passes the chains if and only if it passes the table.
    ensures same_verdicts { IfOk result (λ answer. IfOk answer (HaveSameVerdicts table.now)) }
{
    let table = table.table();
    if table.chains.len() + 3 > CHAIN_LIMIT {
        return Ok(Err(ChainsRefusal::TooManyChains));
    }
    match filled_chains(alloc, table)? {
        None => Ok(Err(ChainsRefusal::TooManyRules)),
        Some(chains) => Ok(Ok(build_accepted(alloc, chains)?)),
    }
}

/// Returns the chains with their rules, or `None` if there are too many rules.
fn filled_chains(alloc: Global, table: &Table) -> Result<Option<Chains>, AllocError>
    requires few { length table.now.chains.items ≤ table_limit }
    requires loadable { IsLoadable table.now }
    ensures chains { IfOk result (λ answer. IfSome answer (λ chains. chains ≡ chains_of table.now)) }
    ensures few { IfOk result (λ answer. IfSome answer (λ chains. rule_count chains ≤ rule_limit)) }
    ensures many { IfOk result (λ answer. IfNone answer (rule_limit < rule_count (chains_of table.now))) }
{
    let Some(mut filled) = built_in_chains(alloc, &table.forward)? else {
        return Ok(None);
    };
    for place in 0..table.chains.len() {
        if !add_chain(alloc, &mut filled, place, &table.chains[place])? {
            return Ok(None);
        }
    }
    Ok(Some(filled.chains))
}

/// Chains with their rules, and the number of these rules.
#[derive(Drop)]
struct Filled {
    chains: Chains,
    count: usize,
}

/// Returns the built-in chains with the rules of the base chain, or `None` if there are too many rules.
fn built_in_chains(alloc: Global, forward: &[Rule]) -> Result<Option<Filled>, AllocError>
    requires { AreRules table_limit forward.now }
    ensures chains { IfOk result (λ answer. IfSome answer (λ filled. filled.chains ≡ built_in_of (rules_of_rules forward.now))) }
    ensures counted { IfOk result (λ answer. IfSome answer (λ filled. AreCounted filled.chains filled.count)) }
    ensures many { IfOk result (λ answer. IfNone answer (rule_limit < length (rules_of_rules forward.now))) }
{
    let mut rules = Vec::new(alloc);
    if !push_rules(alloc, &mut rules, forward)? {
        return Ok(None);
    }
    let mut chains = Chains::new(alloc)?;
    chains.set_policy(FORWARD, Policy::Drop);
    let mut filled = Filled { chains, count: 0 };
    if !fill_counted(&mut filled, FORWARD, &rules)? {
        return Ok(None);
    }
    Ok(Some(filled))
}

/// Adds the chain at this place of the table. Returns `false` if there are too many rules.
fn add_chain(
    alloc: Global,
    filled: &mut Filled,
    place: usize,
    chain: &Chain,
) -> Result<bool, AllocError>
    requires rules { AreRules table_limit chain.now.rules.items }
    requires counted { AreCounted filled.old.chains filled.old.count }
    requires unused { IsNone (number_of filled.old.chains (chain_name place)) }
    requires few { length filled.old.chains ≡ place + 3 }
    requires room { place < table_limit }
    ensures { IfOk result (Adds filled.old.chains (chain_of place chain.now) filled.new.chains filled.new.count) }
{
    let mut rules = Vec::new(alloc);
    if !push_rules(alloc, &mut rules, &chain.rules)? {
        return Ok(false);
    }
    rules.push(every_packet(Target::Drop))?;
    let number = filled.chains.add(chain_name(alloc, place)?)?;
    fill_counted(filled, number, &rules)
}

/// Appends the rules to a chain. Returns `false` if there are too many rules.
fn fill_counted(filled: &mut Filled, chain: u16, rules: &[ChainRule]) -> Result<bool, AllocError>
    requires there { chain < length filled.old.chains }
    requires counted { AreCounted filled.old.chains filled.old.count }
    requires parts { IsTrue (list_all is_rule rules.now) }
    ensures { IfOk result (Fills filled.old.chains chain rules.now filled.new.chains filled.new.count) }
{
    if rules.len() > RULE_LIMIT as usize - filled.count {
        return Ok(false);
    }
    filled.count += rules.len();
    fill(&mut filled.chains, chain, rules)?;
    Ok(true)
}

fn chain_name(alloc: Global, place: usize) -> Result<ChainName, AllocError>
    requires { place < table_limit }
    ensures { IfOk result (λ name. name ≡ chain_name place) }
{
    let text = format!(in alloc; "chain_{place}")?;
    Ok(ChainName::new(text.as_bytes()).unwrap())
}
