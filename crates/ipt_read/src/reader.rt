//! Parsing a file line by line.

ghost use Rattle.std.specs.Prelude.{◌≡◌, ◌<◌, ◌≤◌, ◌^◌, ◌∷◌, [], ◌++◌, Some, None, Ok, IfOk, IsTrue, length};
ghost use Rattle.std.specs.Option.{option_map};
ghost use Rattle.text_core.specs.Lines.{words};
ghost use Rattle.ipt_rules.specs.Chain.{number_of, user_chain};
ghost use Rattle.ipt_rules.specs.ChainTable.{rule_count};
ghost use Rattle.ipt_rules.specs.inner.RuleParts.{is_rule};
ghost use Rattle.ipt_read.specs.ParserStates.{ParserState, initial_state, line_of};
ghost use Rattle.ipt_read.specs.inner.LineStep.{table_line_of, policy_word, built_in_policy, with_built_in, declare, declare_by, chain_line_of, with_read_rule, commit_line_of, body_line_of, line_at, line_of_words, line_step};
ghost use Rattle.ipt_read.specs.inner.RuleLine.{rule_line_of};
ghost use Rattle.ipt_read.specs.inner.State.{said_of, AnswersTo, IsFine};
ghost use Rattle.ipt_read.specs.TextLines.{rules_text};

use crate::fault::{IptWhy, bad};
use crate::rule_line::{is_count, rule_line_of};
use crate::stage::Stage;
use ipt_rules::{CHAIN_LIMIT, ChainName, Chains, Policy, RULE_LIMIT, Rule};
use std::alloc::{AllocError, Global};
use text_core::{LineFault, LineReader, Words, begins_with};

/// The greatest size of a file, in bytes.
pub const BYTE_LIMIT: usize = 67_108_864;

/// The parser state. For each chain it has the number of its chain line, 0 if there is none yet.
#[derive(Drop)]
pub(crate) struct Reader {
    pub(crate) stage: Stage,
    pub(crate) chains: Chains,
    pub(crate) declared: Vec<u32>,
    pub(crate) rules: u32,
}

fn table_line(mut state: Reader, word: &[u8], mut rest: Words) -> Result<Reader, LineFault<IptWhy>>
    ensures { AnswersTo (table_line_of (said_of state) word.now rest.entry) result }
{
    if !begins_with(word, b'*') {
        return Err(bad(IptWhy::BadLine));
    }
    if word != b"*filter".as_slice() {
        return Err(bad(IptWhy::OtherTable));
    }
    if rest.next_word().is_some() {
        return Err(bad(IptWhy::BadLine));
    }
    state.stage = Stage::Table;
    Ok(state)
}

fn policy_word<'a>(mut rest: Words<'a>) -> Option<&'a [u8]>
    ensures { option_map (λ word. word.now) result ≡ policy_word rest.entry }
{
    let policy = rest.next_word()?;
    let Some(count) = rest.next_word() else {
        return Some(policy);
    };
    if rest.next_word().is_some() {
        return None;
    }
    if !is_count(count) {
        return None;
    }
    Some(policy)
}

fn built_in_policy(word: &[u8]) -> Option<Policy>
    ensures { result ≡ built_in_policy word.now }
{
    if word == b"ACCEPT".as_slice() {
        return Some(Policy::Accept);
    }
    if word == b"DROP".as_slice() {
        return Some(Policy::Drop);
    }
    None
}

fn with_built_in(
    mut state: Reader,
    number: u32,
    chain: u16,
    policy: Option<Policy>,
) -> Result<Reader, LineFault<IptWhy>>
    requires { chain < length state.declared.items }
    ensures { AnswersTo (with_built_in number (said_of state) chain policy) result }
{
    let Some(policy) = policy else {
        return Err(bad(IptWhy::BadChain));
    };
    if chain >= 3 || state.declared[chain as usize] != 0 {
        return Err(bad(IptWhy::BadChain));
    }
    state.chains.set_policy(chain, policy);
    state.declared[chain as usize] = number;
    Ok(state)
}

fn with_user_chain(
    mut state: Reader,
    number: u32,
    name: &[u8],
    policy: &[u8],
) -> Result<Reader, LineFault<IptWhy>>
    requires unused { number_of state.chains name.now ≡ None }
    requires few { length state.chains ≤ 4096 }
    requires numbered { length state.declared.items ≡ length state.chains }
    ensures { AnswersTo (declare number (said_of state) name.now policy.now None) result }
{
    let Some(name) = ChainName::new(name) else {
        return Err(bad(IptWhy::BadChain));
    };
    if policy != b"-".as_slice() {
        return Err(bad(IptWhy::BadChain));
    }
    if state.declared.len() >= CHAIN_LIMIT {
        return Err(bad(IptWhy::TooMany));
    }
    match add_chain(state, number, name) {
        Ok(state) => Ok(state),
        Err(_) => Err(LineFault::Memory),
    }
}

fn add_chain(mut state: Reader, number: u32, name: ChainName) -> Result<Reader, AllocError>
    requires unused { number_of state.chains name ≡ None }
    requires few { length state.chains < 4096 }
    ensures { IfOk result (λ t. said_of t ≡
        record (said_of state) { chains = state.chains ++ user_chain name ∷ []; declared = state.declared.items ++ number ∷ [] }) }
{
    state.declared.push(number)?;
    state.chains.add(name)?;
    Ok(state)
}

fn add_rule(mut state: Reader, chain: u16, rule: Rule) -> Result<Reader, LineFault<IptWhy>>
    requires there { chain < length state.chains }
    requires counted { state.rules ≡ rule_count state.chains }
    requires parts { IsTrue (is_rule rule) }
    ensures { AnswersTo (with_read_rule (said_of state) (Ok (chain, rule))) result }
{
    if state.rules >= RULE_LIMIT {
        return Err(bad(IptWhy::TooMany));
    }
    match state.chains.rule(chain, rule) {
        Ok(()) => {}
        Err(_) => return Err(LineFault::Memory),
    }
    state.rules += 1;
    Ok(state)
}

#[tactic(auto, using(crate::proofs::WithinLaws::number_of_within))]
fn declare(
    state: Reader,
    number: u32,
    name: &[u8],
    policy: &[u8],
) -> Result<Reader, LineFault<IptWhy>>
    requires { IsFine (said_of state) }
    ensures { AnswersTo (declare number (said_of state) name.now policy.now (number_of state.chains name.now)) result }
{
    match state.chains.find(name) {
        Some(chain) => with_built_in(state, number, chain, built_in_policy(policy)),
        None => with_user_chain(state, number, name, policy),
    }
}

#[tactic(auto, unfolding(crate::specs::inner::LineStep::chain_line_of))]
fn chain_line(
    state: Reader,
    number: u32,
    word: &[u8],
    rest: Words,
) -> Result<Reader, LineFault<IptWhy>>
    requires fine { IsFine (said_of state) }
    requires word { 0 < length word.now }
    ensures { AnswersTo (chain_line_of number (said_of state) word.now rest.entry) result }
{
    match policy_word(rest) {
        None => Err(bad(IptWhy::BadChain)),
        Some(policy) => {
            let (_, name) = word.split_at(1);
            declare(state, number, name, policy)
        }
    }
}

#[tactic(auto, using(crate::proofs::WithinLaws::rule_line_within))]
fn rule_line(state: Reader, word: &[u8], rest: Words) -> Result<Reader, LineFault<IptWhy>>
    requires { IsFine (said_of state) }
    ensures { AnswersTo (with_read_rule (said_of state) (rule_line_of state.chains (word.now ∷ rest.entry))) result }
{
    match rule_line_of(&state.chains, word, rest) {
        Ok((chain, rule)) => add_rule(state, chain, rule),
        Err(why) => Err(bad(why)),
    }
}

fn commit_line(mut state: Reader, word: &[u8], mut rest: Words) -> Result<Reader, LineFault<IptWhy>>
    ensures { AnswersTo (commit_line_of (said_of state) word.now rest.entry) result }
{
    if word != b"COMMIT".as_slice() {
        return Err(bad(IptWhy::BadLine));
    }
    if rest.next_word().is_some() {
        return Err(bad(IptWhy::BadLine));
    }
    state.stage = Stage::After;
    Ok(state)
}

#[tactic(auto, unfolding(crate::specs::inner::LineStep::body_line_of))]
fn body_line(
    state: Reader,
    number: u32,
    word: &[u8],
    rest: Words,
) -> Result<Reader, LineFault<IptWhy>>
    requires { IsFine (said_of state) }
    ensures { AnswersTo (body_line_of number (said_of state) word.now rest.entry) result }
{
    if begins_with(word, b':') {
        return chain_line(state, number, word, rest);
    }
    if word == b"-A".as_slice() || begins_with(word, b'[') {
        return rule_line(state, word, rest);
    }
    commit_line(state, word, rest)
}

#[tactic(auto, unfolding(crate::specs::inner::LineStep::line_of_words))]
fn words_line(state: Reader, number: u32, line: &[u8]) -> Result<Reader, LineFault<IptWhy>>
    requires { IsFine (said_of state) }
    ensures { AnswersTo (line_step number (said_of state) line.now) result }
{
    let mut rest = Words::new(line);
    let Some(word) = rest.next_word() else {
        return Err(bad(IptWhy::BadLine));
    };
    match state.stage {
        Stage::Front => table_line(state, word, rest),
        Stage::Table => body_line(state, number, word, rest),
        Stage::After => Err(bad(IptWhy::AfterCommit)),
    }
}

impl LineReader for Reader {
    type Why = IptWhy;

    ghost Said = { ParserState };

    ghost text = { rules_text };

    ghost said = { said_of };

    ghost holds = { λ reader. IsFine (said_of reader) };

    fn limit(&self) -> (usize, IptWhy) {
        (BYTE_LIMIT, IptWhy::TooLong)
    }

    fn read_line(self, number: u32, line: &[u8]) -> Result<Reader, LineFault<IptWhy>> {
        words_line(self, number, line)
    }
}

/// Returns the state before the first line.
pub(crate) fn initial_state(alloc: Global) -> Result<Reader, AllocError>
    ensures { IfOk result (λ t. said_of t ≡ initial_state) }
{
    let mut declared = Vec::new(alloc);
    declared.push(0)?;
    declared.push(0)?;
    declared.push(0)?;
    Ok(Reader {
        stage: Stage::Front,
        chains: Chains::new(alloc)?,
        declared,
        rules: 0,
    })
}
