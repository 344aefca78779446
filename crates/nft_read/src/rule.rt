//! The line of a rule.

ghost use Rattle.std.specs.Prelude.{◌≡◌, ◌≤◌, None, Some, IfOk, length, map};
ghost use Rattle.std.specs.Option.{option_map};
ghost use Rattle.nft_read.specs.Shape.{rule_shape, MapOf};
ghost use Rattle.nft_read.specs.inner.LineSteps.{elements_of, pieces, rule_destination, rule_of, rule_tabs};

use crate::matches::read_match;
use crate::verdict::read_elements;
use crate::words::after;
use indexmap::IndexSet;
use nft_rules::{End, Rule, VerdictMap};
use std::alloc::{AllocError, Global};

/// Parses a rule.
#[tactic(auto, unfolding(crate::specs::inner::LineSteps::rule_of))]
pub(crate) fn read_rule(
    alloc: Global,
    names: &IndexSet<Vec<u8>>,
    line: &[u8],
) -> Result<Option<Rule>, AllocError>
    requires { length names.now.keys ≤ 100000 }
    ensures { IfOk result (λ rule. option_map rule_shape rule ≡ rule_of (map (λ n. n.items) names.now.keys) line.now) }
{
    if let Some(text) = after(b"\t\tip saddr vmap {", line) {
        return read_map(alloc, names, End::Source, text);
    }
    if let Some(text) = after(b"\t\tip daddr vmap {", line) {
        return read_map(alloc, names, End::Destination, text);
    }
    Ok(read_tabs(names, line))
}

fn read_map(
    alloc: Global,
    names: &IndexSet<Vec<u8>>,
    end: End,
    text: &[u8],
) -> Result<Option<Rule>, AllocError>
    requires { length names.now.keys ≤ 100000 }
    ensures { IfOk result (λ rule. option_map rule_shape rule ≡ option_map (λ es. MapOf end es) (elements_of (map (λ n. n.items) names.now.keys) (pieces text.now))) }
{
    match read_elements(alloc, names, text)? {
        None => Ok(None),
        Some(elements) => Ok(Some(Rule::Map(VerdictMap { end, elements }))),
    }
}

fn read_tabs(names: &IndexSet<Vec<u8>>, line: &[u8]) -> Option<Rule>
    requires { length names.now.keys ≤ 100000 }
    ensures { option_map rule_shape result ≡ rule_destination (map (λ n. n.items) names.now.keys) line.now None }
{
    match after(b"\t\t", line) {
        None => None,
        Some(text) => match read_match(names, text) {
            None => None,
            Some(rule) => Some(Rule::Match(rule)),
        },
    }
}
