//! The question of a command line.

ghost use Rattle.std.specs.Prelude.{◌≡◌, map, string_bytes, option_map};
ghost use Rattle.run_core.specs.inner.Forms.{among};
ghost use Rattle.query_top.specs.Command.{usage_text};
ghost use Rattle.query_top.specs.inner.Command.{command_of, command_view, forms};

use run_core::{Dialect, one_word, three_words, two_words};

/// A question: a variant for each form, with all its words.
#[derive(Clone, Copy)]
pub enum Command<'a> {
    /// `why FILE FROM TO`: why a flow is permitted, denied or without answers.
    Why(&'a str, &'a str, &'a str),
    /// `network FILE`: all that the description and its policy say of hosts, invariants and flows.
    Network(&'a str),
    /// `flows DIALECT FILE RULES`: what rules let pass between the hosts.
    Flows(Dialect, &'a str, &'a str),
    /// `compare DIALECT FILE RULES`: whether rules do what the policy says, for each pair of owners.
    Compare(Dialect, &'a str, &'a str),
    /// `changes OLD NEW`: the packets that only one of two policies permits, or permits answers to.
    Changes(&'a str, &'a str),
}

/// Returns the forms of the command line.
#[tactic(auto, unfolding(crate::specs::Command::usage_text))]
pub fn usage() -> &'static [u8]
    ensures { result.now ≡ usage_text }
{
    b"usage: topos-query why FILE FROM TO\n\
    \x20      topos-query network FILE\n\
    \x20      topos-query flows iptables|openflow FILE RULES\n\
    \x20      topos-query compare iptables|openflow FILE RULES\n\
    \x20      topos-query changes OLD NEW\n\
    \x20      topos-query compare nft FILE RULES\n\
    \x20      topos-query flows nft FILE RULES\n"
}

/// Returns the question of the words, or `None` if they are no form.
#[tactic(auto, unfolding(crate::specs::inner::Command::command_of))]
pub fn parse_command(words: &[String]) -> Option<Command<'_>>
    ensures { option_map command_view result ≡ command_of (map string_bytes words.now) }
{
    match words {
        [verb, rest @ ..] => parse_after_verb(verb.as_str(), rest),
        [] => None,
    }
}

// Returns the question of a verb with the words after it.
fn parse_after_verb<'a>(verb: &str, rest: &'a [String]) -> Option<Command<'a>>
    ensures { option_map command_view result ≡ among forms verb.now (map string_bytes rest.now) }
{
    match verb {
        "why" => {
            let (file, from, to) = three_words(rest)?;
            Some(Command::Why(file, from, to))
        }
        "network" => Some(Command::Network(one_word(rest)?)),
        "flows" => {
            let (word, file, rules) = three_words(rest)?;
            Some(Command::Flows(Dialect::named(word)?, file, rules))
        }
        "compare" => {
            let (word, file, rules) = three_words(rest)?;
            Some(Command::Compare(Dialect::named(word)?, file, rules))
        }
        "changes" => {
            let (old, new) = two_words(rest)?;
            Some(Command::Changes(old, new))
        }
        _ => None,
    }
}
