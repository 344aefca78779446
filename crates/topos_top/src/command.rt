//! Parsing the arguments of a command line.

ghost use Rattle.std.specs.Prelude.{◌≡◌, ◌≤◌, map, string_bytes, option_map, IfSome};
ghost use Rattle.host_net.specs.Limits.{host_limit};
ghost use Rattle.topos_top.specs.Command.{usage_text};
ghost use Rattle.topos_top.specs.inner.Command.{IsWithinHosts, command_of, command_view, parse_host_count, forms, of_machines};
ghost use Rattle.run_core.specs.inner.Forms.{among};

use host_net::HOST_LIMIT;
use run_core::{Dialect, one_word, three_words, two_words};
use text_core::read_number;

/// A command: one variant per command form, with all its arguments.
#[derive(Clone, Copy)]
pub enum Command<'a> {
    /// `check FILE`: whether the requested flows satisfy the invariants.
    Check(&'a str),
    /// `policy FILE`: the status of each flow, and the reason.
    Policy(&'a str),
    /// `rules DIALECT FILE`: the rules of the permitted policy, unless the policy was
    /// listed and violates an invariant.
    Rules(Dialect, &'a str),
    /// `repair DIALECT FILE`: the rules of the permitted policy.
    Repair(Dialect, &'a str),
    /// `trace DIALECT RULES EVENTS`: the result of each event.
    Trace(Dialect, &'a str, &'a str),
    /// `sample N`: the sizes of the policy, the rules and the offending sets of the sample
    /// of N hosts, and the number of packets that its rules forward.
    Sample(u16),
    /// `migrate FILE`: the description in version 2.
    Migrate(&'a str),
    /// `audit DIALECT FILE RULES`: whether rules forward what the policy expects.
    Audit(Dialect, &'a str, &'a str),
    /// `edit FILE EDITS`: the development of the network edit by edit, and its final policy.
    Edit(&'a str, &'a str),
    /// `local FILE HOST`: the rules for the machines of one host.
    Local(&'a str, &'a str),
    /// `local nft FILE HOST`: a table of nftables for the machines of one host.
    LocalTable(&'a str, &'a str),
}

/// Returns the usage text, which lists the command forms.
#[tactic(auto, unfolding(crate::specs::Command::usage_text))]
pub fn usage() -> &'static [u8]
    ensures { result.now ≡ usage_text }
{
    b"usage: topos check FILE\n\
    \x20      topos policy FILE\n\
    \x20      topos rules iptables|openflow FILE\n\
    \x20      topos repair iptables|openflow FILE\n\
    \x20      topos trace iptables|openflow RULES EVENTS\n\
    \x20      topos sample N\n\
    \x20      topos migrate FILE\n\
    \x20      topos audit iptables|openflow FILE RULES\n\
    \x20      topos edit FILE EDITS\n\
    \x20      topos local FILE HOST\n\
    \x20      topos rules nft FILE\n\
    \x20      topos repair nft FILE\n\
    \x20      topos trace nft RULES EVENTS\n\
    \x20      topos audit nft FILE RULES\n\
    \x20      topos local nft FILE HOST\n"
}

/// Parses a command, if the arguments form one.
#[tactic(auto, unfolding(crate::specs::inner::Command::command_of))]
pub fn parse_command(words: &[String]) -> Option<Command<'_>>
    ensures command { option_map command_view result ≡ command_of (map string_bytes words.now) }
    ensures few { IfSome result (λ command. IsWithinHosts (command_view command)) }
{
    match words {
        [verb, rest @ ..] => parse_after_verb(verb.as_str(), rest),
        [] => None,
    }
}

/// Parses a command from a verb and the arguments after it.
fn parse_after_verb<'a>(verb: &str, rest: &'a [String]) -> Option<Command<'a>>
    ensures command { option_map command_view result ≡ among forms verb.now (map string_bytes rest.now) }
    ensures few { IfSome result (λ command. IsWithinHosts (command_view command)) }
{
    match verb {
        "check" => Some(Command::Check(one_word(rest)?)),
        "policy" => Some(Command::Policy(one_word(rest)?)),
        "rules" => {
            let (word, file) = two_words(rest)?;
            Some(Command::Rules(Dialect::named(word)?, file))
        }
        "repair" => {
            let (word, file) = two_words(rest)?;
            Some(Command::Repair(Dialect::named(word)?, file))
        }
        "trace" => {
            let (word, rules, events) = three_words(rest)?;
            Some(Command::Trace(Dialect::named(word)?, rules, events))
        }
        "sample" => Some(Command::Sample(parse_host_count(one_word(rest)?)?)),
        "migrate" => Some(Command::Migrate(one_word(rest)?)),
        "audit" => {
            let (word, file, rules) = three_words(rest)?;
            Some(Command::Audit(Dialect::named(word)?, file, rules))
        }
        "edit" => {
            let (file, edits) = two_words(rest)?;
            Some(Command::Edit(file, edits))
        }
        "local" => parse_machines(rest),
        _ => None,
    }
}

/// Parses a file and a host, or these after the word `nft`.
fn parse_machines(rest: &[String]) -> Option<Command<'_>>
    ensures command { option_map command_view result ≡ of_machines (map string_bytes rest.now) }
    ensures few { IfSome result (λ command. IsWithinHosts (command_view command)) }
{
    if let Some((file, host)) = two_words(rest) {
        return Some(Command::Local(file, host));
    }
    match three_words(rest)? {
        ("nft", file, host) => Some(Command::LocalTable(file, host)),
        _ => None,
    }
}

/// Parses a number of hosts, from 1 to the host limit.
fn parse_host_count(word: &str) -> Option<u16>
    ensures said { result ≡ parse_host_count word.now }
    ensures few { IfSome result (λ hosts. hosts ≤ host_limit) }
{
    match read_number(HOST_LIMIT as u32, word.as_bytes()) {
        Some(hosts) if hosts != 0 => Some(hosts as u16),
        _ => None,
    }
}
