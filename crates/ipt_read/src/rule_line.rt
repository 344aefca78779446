//! Parsing a rule line, token by token.

ghost use Rattle.std.specs.Prelude.{◌≡◌, ◌<◌, ◌∷◌, [], IfOk, length};
ghost use Rattle.std.specs.Char.{is_ascii_digit};
ghost use Rattle.std.specs.List.{list_all};
ghost use Rattle.text_core.specs.inner.Pieces.{split_once};
ghost use Rattle.ipt_read.specs.declared.option.Place.TheVariants.{AtOption};
ghost use Rattle.ipt_read.specs.inner.Counts.{is_nothing, is_bytes_part, is_packets_part, is_count};
ghost use Rattle.ipt_read.specs.Values.{is_counter_number};
ghost use Rattle.ipt_read.specs.Options.{empty_rule};
ghost use Rattle.ipt_read.specs.inner.OptionSteps.{rule_of};
ghost use Rattle.ipt_read.specs.inner.ReaderView.{AnswersAs, given_of, next_of};
ghost use Rattle.ipt_read.specs.inner.RuleLine.{at_option, is_bang, word_step, at_end, word_by_word, append_of, rule_line_of};

use crate::fault::IptWhy;
use crate::option::{PartialRule, Place, RuleOption};
use crate::table::{
    is_allowed_here, is_interface, is_repeated_or_negated, option_of, quoted, value_refusal,
    with_value,
};
use ipt_rules::{Chains, Rule, Target};
use text_core::{Words, begins_with, split_once};

fn at_option(
    given: PartialRule,
    negated: bool,
    option: Option<RuleOption>,
) -> Result<(PartialRule, Place), IptWhy>
    ensures { AnswersAs next_of (at_option (given_of given) negated option) result }
{
    let Some(option) = option else {
        return Err(IptWhy::UnknownOption);
    };
    if !is_allowed_here(given, option) {
        return Err(IptWhy::UnknownOption);
    }
    if is_interface(option) {
        return Err(IptWhy::Interface);
    }
    if is_repeated_or_negated(given, negated, option) {
        return Err(IptWhy::BadLine);
    }
    Ok((given, Place::AtValue(option, negated)))
}

#[tactic(auto, unfolding(crate::specs::inner::RuleLine::is_bang))]
fn is_bang(given: PartialRule, word: &[u8]) -> bool
    ensures { result ≡ is_bang (given_of given) word.now }
{
    given.target.is_none() && word == b"!".as_slice()
}

#[tactic(auto, unfolding(crate::specs::inner::RuleLine::word_step))]
fn word_step(
    chains: &Chains,
    given: PartialRule,
    place: Place,
    word: &[u8],
) -> Result<(PartialRule, Place), IptWhy>
    ensures { AnswersAs next_of (word_step chains.now (given_of given) place word.now) result }
{
    match place {
        Place::AtOption => {
            if is_bang(given, word) {
                return Ok((given, Place::AfterBang));
            }
            at_option(given, false, option_of(word))
        }
        Place::AfterBang => at_option(given, true, option_of(word)),
        Place::AtValue(option, negated) => match with_value(chains, given, option, negated, word) {
            Some(next) => Ok(next),
            None => Err(value_refusal(option)),
        },
        Place::InText => match quoted(word) {
            Some(place) => Ok((given, place)),
            None => Err(IptWhy::BadValue),
        },
    }
}

fn at_end(given: PartialRule, place: Place) -> Result<PartialRule, IptWhy>
    ensures { AnswersAs given_of (at_end (given_of given) place) result }
{
    match place {
        Place::AtOption => Ok(given),
        Place::AfterBang => Err(IptWhy::BadLine),
        Place::AtValue(_, _) | Place::InText => Err(IptWhy::BadValue),
    }
}

fn empty_rule() -> PartialRule
    ensures { given_of result ≡ empty_rule }
{
    let rule = Rule {
        src: None,
        dst: None,
        proto: None,
        sport: None,
        dport: None,
        state: None,
        target: Target::Count,
    };
    PartialRule {
        rule,
        target: None,
        ports: false,
        conntrack: false,
        states: false,
        comments: false,
    }
}

fn read_options(chains: &Chains, mut line: Words) -> Result<PartialRule, IptWhy>
    ensures { AnswersAs given_of (word_by_word chains.now empty_rule AtOption line.entry) result }
{
    let mut given = empty_rule();
    let mut place = Place::AtOption;
    while let Some(word) = line.next_word() {
        let (next_given, next_place) = word_step(chains, given, place, word)?;
        given = next_given;
        place = next_place;
    }
    at_end(given, place)
}

fn rule_of(given: PartialRule) -> Rule
    ensures { result ≡ rule_of (given_of given) }
{
    let target = given.target.unwrap_or(Target::Count);
    Rule {
        target,
        ..given.rule
    }
}

fn is_counter_number(text: &[u8]) -> bool
    ensures { result ≡ is_counter_number text.now }
{
    are_digits(text) && text.len() >= 1 && text.len() <= 20
}

fn are_digits(text: &[u8]) -> bool
    ensures { result ≡ list_all is_ascii_digit text.now }
{
    text.iter().all(|byte| byte.is_ascii_digit())
}

fn is_bytes_part(text: &[u8]) -> bool
    ensures { result ≡ is_bytes_part (split_once 93 text.now) }
{
    match split_once(text, b']') {
        None => false,
        Some((figure, rest)) => is_counter_number(figure) && rest.is_empty(),
    }
}

#[tactic(auto, unfolding(crate::specs::inner::Counts::is_count))]
pub(crate) fn is_count(word: &[u8]) -> bool
    ensures { result ≡ is_count word.now }
{
    let [b'[', rest @ ..] = word else {
        return false;
    };
    match split_once(rest, b':') {
        None => false,
        Some((figure, rest)) => is_counter_number(figure) && is_bytes_part(rest),
    }
}

fn append_of(chains: &Chains, first: &[u8], mut line: Words) -> Result<(u16, Rule), IptWhy>
    ensures { result ≡ append_of chains.now (first.now ∷ line.entry) }
{
    let Some(name) = line.next_word() else {
        return Err(IptWhy::BadLine);
    };
    if first != b"-A".as_slice() {
        return Err(IptWhy::BadLine);
    }
    let Some(chain) = chains.find(name) else {
        return Err(IptWhy::UnknownChain);
    };
    match read_options(chains, line) {
        Ok(given) => Ok((chain, rule_of(given))),
        Err(why) => Err(why),
    }
}

/// Returns the rule of a line with these tokens, and the number of its chain.
#[tactic(auto, unfolding(crate::specs::inner::RuleLine::rule_line_of))]
pub(crate) fn rule_line_of(
    chains: &Chains,
    first: &[u8],
    mut rest: Words,
) -> Result<(u16, Rule), IptWhy>
    ensures { result ≡ rule_line_of chains.now (first.now ∷ rest.entry) }
{
    if !begins_with(first, b'[') {
        return append_of(chains, first, rest);
    }
    if !is_count(first) {
        return Err(IptWhy::BadLine);
    }
    let Some(second) = rest.next_word() else {
        return Err(IptWhy::BadLine);
    };
    append_of(chains, second, rest)
}
