//! The table of options: the name of each, where it is allowed, and the meaning of its value.

ghost use Rattle.std.specs.Prelude.{◌≡◌, ◌<◌, ◌==◌, IfSome, Option, List, ℕ, length, false, bytes_eq, slice_index_or};
ghost use Rattle.std.specs.List.{list_all, list_any};
ghost use Rattle.ipt_rules.specs.Chain.{number_of};
ghost use Rattle.std.specs.Option.{option_map};
ghost use Rattle.ipt_read.specs.declared.option.Place.TheVariants.{AtOption};
ghost use Rattle.ipt_read.specs.Options.{rejects, logs, named_target};
ghost use Rattle.ipt_read.specs.Values.{is_state, listed};
ghost use Rattle.ipt_read.specs.inner.OptionSteps.{option_of, option_of_target, is_allowed_here, is_interface, bars, jump_to, target_of, is_own_module, with_module, value_refusal};
ghost use Rattle.ipt_read.specs.inner.ReaderView.{given_of, next_of};
ghost use Rattle.ipt_read.specs.inner.ValueSteps.{closes, quoted, text_of, states_of, port_match, state_match, with_value};

use crate::fault::IptWhy;
use crate::option::{PartialRule, Place, RuleOption};
use crate::service::{asked_ports, asked_protocol};
use host_net::read_prefix;
use ipt_rules::{AddrMatch, Chains, PortMatch, ProtoMatch, Rule, StateMatch, Target};

#[tactic(auto, unfolding(crate::specs::inner::OptionSteps::option_of))]
pub(crate) fn option_of(word: &[u8]) -> Option<RuleOption>
    ensures { result ≡ option_of word.now }
{
    if word == b"-i".as_slice() {
        return Some(RuleOption::Interface);
    }
    if word == b"-o".as_slice() {
        return Some(RuleOption::Interface);
    }
    if word == b"-s".as_slice() {
        return Some(RuleOption::Source);
    }
    if word == b"-d".as_slice() {
        return Some(RuleOption::Destination);
    }
    if word == b"-p".as_slice() {
        return Some(RuleOption::Protocol);
    }
    if word == b"--sport".as_slice() {
        return Some(RuleOption::SourcePort);
    }
    if word == b"--dport".as_slice() {
        return Some(RuleOption::DestinationPort);
    }
    if word == b"--ctstate".as_slice() {
        return Some(RuleOption::CtState);
    }
    if word == b"--state".as_slice() {
        return Some(RuleOption::State);
    }
    if word == b"--comment".as_slice() {
        return Some(RuleOption::Comment);
    }
    if word == b"-m".as_slice() {
        return Some(RuleOption::Module);
    }
    if word == b"-j".as_slice() {
        return Some(RuleOption::Jump);
    }
    option_of_target(word)
}

fn option_of_target(word: &[u8]) -> Option<RuleOption>
    ensures { result ≡ option_of_target word.now }
{
    if word == b"--reject-with".as_slice() {
        return Some(RuleOption::RejectWith);
    }
    if word == b"--log-prefix".as_slice() {
        return Some(RuleOption::LogPrefix);
    }
    if word == b"--log-level".as_slice() {
        return Some(RuleOption::LogLevel);
    }
    None
}

fn rejects(target: Option<Target>) -> bool
    ensures { result ≡ rejects target }
{
    matches!(target, Some(Target::Reject))
}

fn logs(target: Option<Target>) -> bool
    ensures { result ≡ logs target }
{
    matches!(target, Some(Target::Count))
}

pub(crate) fn is_allowed_here(given: PartialRule, option: RuleOption) -> bool
    ensures { result ≡ is_allowed_here (given_of given) option }
{
    match option {
        RuleOption::SourcePort | RuleOption::DestinationPort => given.target.is_none()
            && given.ports,
        RuleOption::CtState => given.target.is_none() && given.conntrack,
        RuleOption::State => given.target.is_none() && given.states,
        RuleOption::Comment => given.target.is_none() && given.comments,
        RuleOption::RejectWith => rejects(given.target),
        RuleOption::LogPrefix | RuleOption::LogLevel => logs(given.target),
        RuleOption::Source
        | RuleOption::Destination
        | RuleOption::Protocol
        | RuleOption::Interface
        | RuleOption::Module
        | RuleOption::Jump => given.target.is_none(),
    }
}

pub(crate) fn is_interface(option: RuleOption) -> bool
    ensures { result ≡ is_interface option }
{
    matches!(option, RuleOption::Interface)
}

/// Whether the option is repeated or must not be negated: the rule already has this match, or `!`
/// precedes an option that is no match.
pub(crate) fn is_repeated_or_negated(given: PartialRule, negated: bool, option: RuleOption) -> bool
    ensures { result ≡ bars (given_of given) negated option }
{
    match option {
        RuleOption::Source => given.rule.src.is_some(),
        RuleOption::Destination => given.rule.dst.is_some(),
        RuleOption::Protocol => given.rule.proto.is_some(),
        RuleOption::SourcePort => given.rule.sport.is_some(),
        RuleOption::DestinationPort => given.rule.dport.is_some(),
        RuleOption::CtState | RuleOption::State => given.rule.state.is_some(),
        _ => negated,
    }
}

fn closes(rest: &[u8]) -> Option<Place>
    ensures { result ≡ closes rest.now }
{
    match rest {
        [] => Some(Place::AtOption),
        [_, ..] => None,
    }
}

pub(crate) fn quoted(text: &[u8]) -> Option<Place>
    ensures { result ≡ quoted false text.now }
{
    let mut taken = false;
    for i in 0..text.len() {
        let byte = text[i];
        if !taken && byte == b'"' {
            return closes(&text[i + 1..]);
        }
        taken = !taken && byte == b'\\';
    }
    Some(Place::InText)
}

#[tactic(auto, unfolding(crate::specs::inner::ValueSteps::text_of))]
fn text_of(word: &[u8]) -> Option<Place>
    ensures { result ≡ text_of word.now }
{
    match word {
        [b'"', rest @ ..] => quoted(rest),
        _ => Some(Place::AtOption),
    }
}

#[tactic(auto, unfolding(crate::specs::Values::is_state))]
fn is_state(word: &[u8]) -> bool
    ensures { result ≡ is_state word.now }
{
    word == b"NEW".as_slice()
        || word == b"ESTABLISHED".as_slice()
        || word == b"RELATED".as_slice()
        || word == b"INVALID".as_slice()
        || word == b"UNTRACKED".as_slice()
        || word == b"SNAT".as_slice()
        || word == b"DNAT".as_slice()
}

fn is_state_list(word: &[u8]) -> bool
    ensures { result ≡ list_all is_state (listed word.now) }
{
    word.split(|b| *b == b',').all(|part| is_state(part))
}

fn lists(word: &[u8], name: &[u8]) -> bool
    ensures { result ≡ list_any (λ w. bytes_eq w name.now) (listed word.now) }
{
    word.split(|b| *b == b',').any(|part| part == name)
}

#[tactic(auto, unfolding(crate::specs::inner::ValueSteps::states_of))]
fn states_of(word: &[u8]) -> Option<(bool, bool)>
    ensures { result ≡ states_of word.now }
{
    if !is_state_list(word) {
        return None;
    }
    Some((lists(word, b"NEW"), lists(word, b"ESTABLISHED")))
}

fn jump_to(chain: Option<u16>) -> Option<Target>
    ensures { result ≡ jump_to chain }
{
    match chain {
        Some(chain) if chain >= 3 => Some(Target::Jump(chain)),
        _ => None,
    }
}

fn named_target(word: &[u8]) -> Option<Target>
    ensures { result ≡ named_target word.now }
{
    if word == b"ACCEPT".as_slice() {
        return Some(Target::Accept);
    }
    if word == b"DROP".as_slice() {
        return Some(Target::Drop);
    }
    if word == b"REJECT".as_slice() {
        return Some(Target::Reject);
    }
    if word == b"RETURN".as_slice() {
        return Some(Target::Return);
    }
    if word == b"LOG".as_slice() {
        return Some(Target::Count);
    }
    None
}

#[tactic(auto, unfolding(crate::specs::inner::OptionSteps::target_of))]
fn target_of(chains: &Chains, word: &[u8]) -> Option<Target>
    ensures { result ≡ target_of chains.now word.now }
{
    match named_target(word) {
        Some(target) => Some(target),
        None => jump_to(chains.find(word)),
    }
}

fn is_own_module(part: Option<ProtoMatch>, word: &[u8]) -> bool
    ensures { result ≡ is_own_module part word.now }
{
    match part {
        Some(
            ProtoMatch {
                proto: 6,
                negated: false,
            },
        ) => word == b"tcp".as_slice(),
        Some(
            ProtoMatch {
                proto: 17,
                negated: false,
            },
        ) => word == b"udp".as_slice(),
        _ => false,
    }
}

#[tactic(auto, unfolding(crate::specs::inner::OptionSteps::with_module))]
fn with_module(given: PartialRule, word: &[u8]) -> Option<PartialRule>
    ensures { option_map given_of result ≡ with_module (given_of given) word.now }
{
    if word == b"conntrack".as_slice() {
        return Some(PartialRule {
            conntrack: true,
            ..given
        });
    }
    if word == b"state".as_slice() {
        return Some(PartialRule {
            states: true,
            ..given
        });
    }
    if word == b"comment".as_slice() {
        return Some(PartialRule {
            comments: true,
            ..given
        });
    }
    if is_own_module(given.rule.proto, word) {
        return Some(PartialRule {
            ports: true,
            ..given
        });
    }
    None
}

fn port_match(ports: (u16, u16), negated: bool) -> PortMatch
    ensures { result ≡ port_match negated ports }
{
    let (low, high) = ports;
    PortMatch { low, high, negated }
}

fn state_match(flags: (bool, bool), negated: bool) -> StateMatch
    ensures { result ≡ state_match negated flags }
{
    let (new, established) = flags;
    StateMatch {
        new,
        established,
        negated,
    }
}

fn with_rule(given: PartialRule, rule: Rule) -> (PartialRule, Place)
    ensures { next_of result ≡ (record (given_of given) { rule = rule }, AtOption) }
{
    (PartialRule { rule, ..given }, Place::AtOption)
}

/// Returns the partial rule after an option's value, and the position of the next token.
#[tactic(auto, unfolding(crate::specs::inner::ValueSteps::with_value))]
pub(crate) fn with_value(
    chains: &Chains,
    given: PartialRule,
    option: RuleOption,
    negated: bool,
    word: &[u8],
) -> Option<(PartialRule, Place)>
    ensures { option_map next_of result ≡ with_value chains.now (given_of given) option negated word.now }
{
    let rule = given.rule;
    match option {
        RuleOption::Source => {
            let prefix = read_prefix(word)?;
            let src = Some(AddrMatch { prefix, negated });
            Some(with_rule(given, Rule { src, ..rule }))
        }
        RuleOption::Destination => {
            let prefix = read_prefix(word)?;
            let dst = Some(AddrMatch { prefix, negated });
            Some(with_rule(given, Rule { dst, ..rule }))
        }
        RuleOption::Protocol => {
            let proto = asked_protocol(word)?;
            let proto = Some(ProtoMatch { proto, negated });
            Some(with_rule(given, Rule { proto, ..rule }))
        }
        RuleOption::SourcePort => {
            let sport = Some(port_match(asked_ports(word)?, negated));
            Some(with_rule(given, Rule { sport, ..rule }))
        }
        RuleOption::DestinationPort => {
            let dport = Some(port_match(asked_ports(word)?, negated));
            Some(with_rule(given, Rule { dport, ..rule }))
        }
        RuleOption::Interface => None,
        RuleOption::Module => Some((with_module(given, word)?, Place::AtOption)),
        RuleOption::CtState | RuleOption::State => {
            let state = Some(state_match(states_of(word)?, negated));
            Some(with_rule(given, Rule { state, ..rule }))
        }
        RuleOption::Comment | RuleOption::LogPrefix => Some((given, text_of(word)?)),
        RuleOption::Jump => {
            let target = Some(target_of(chains, word)?);
            Some((PartialRule { target, ..given }, Place::AtOption))
        }
        RuleOption::RejectWith | RuleOption::LogLevel => Some((given, Place::AtOption)),
    }
}

pub(crate) fn value_refusal(option: RuleOption) -> IptWhy
    ensures { result ≡ value_refusal option }
{
    match option {
        RuleOption::Module => IptWhy::UnknownOption,
        RuleOption::Jump => IptWhy::UnknownTarget,
        _ => IptWhy::BadValue,
    }
}
