//! The next rule of a chain that may match a packet, by an index of the addresses that the rules of each
//! chain match on.

ghost use Rattle.std.specs.Prelude.{◌≡◌, ◌<◌, ◌≤◌, ◌^◌, length, slice_get, IfOk, IfSome, IsTrue, Some};
ghost use Rattle.host_net.specs.inner.CoverView.{IsIndexOf};
ghost use Rattle.host_net.specs.declared.packet.CtState.{CtState};
ghost use Rattle.ipt_rules.specs.declared.rule.Rule.{Rule};
ghost use Rattle.ipt_rules.specs.ChainTable.{rule_count};
ghost use Rattle.ipt_rules.specs.Matching.{matches};
ghost use Rattle.ipt_rules.specs.inner.Next.{AreIndexes, IsNext, all_ends, ends_of, part_of};

use crate::chain::Chain;
use crate::rule::{AddrMatch, Rule, address_matches};
use host_net::{Ends, Packet, Prefix, TupleSpaceIndex};
use std::alloc::{AllocError, Global};

/// Returns the prefix of an address match that is not negated.
fn part_of(part: Option<AddrMatch>) -> Option<Prefix>
    ensures { result ≡ part_of part }
{
    match part {
        None => None,
        Some(asked) => {
            if asked.negated {
                None
            } else {
                Some(asked.prefix)
            }
        }
    }
}

fn ends_of(rule: &Rule) -> Ends
    ensures { result ≡ ends_of rule.now }
{
    Ends {
        src: part_of(rule.src),
        dst: part_of(rule.dst),
    }
}

fn all_ends(alloc: Global, rules: &[Rule]) -> Result<Vec<Ends>, AllocError>
    ensures { IfOk result (λ all. all.items ≡ all_ends rules.now) }
{
    let mut all = Vec::with_capacity(alloc, rules.len())?;
    for rule in rules {
        all.push(ends_of(rule))?;
    }
    Ok(all)
}

fn index_of(alloc: Global, rules: &[Rule]) -> Result<TupleSpaceIndex, AllocError>
    requires { length rules.now < 2 ^ 32 }
    ensures { IfOk result (IsIndexOf (all_ends rules.now)) }
{
    let all = all_ends(alloc, rules)?;
    TupleSpaceIndex::of(alloc, &all)
}

/// Builds an index of the rules of each chain.
pub(crate) fn indexes_of(
    alloc: Global,
    chains: &[Chain],
) -> Result<Vec<TupleSpaceIndex>, AllocError>
    requires { rule_count chains.now ≤ 1000000 }
    ensures { IfOk result (λ indexes. AreIndexes indexes.items chains.now) }
{
    let mut indexes = Vec::with_capacity(alloc, chains.len())?;
    for chain in chains {
        let index = index_of(alloc, chain.rules())?;
        indexes.push(index)?;
    }
    Ok(indexes)
}

/// Returns the index of the chain with this number, if chains have indexes.
pub(crate) fn index_at(indexes: &[TupleSpaceIndex], number: u16) -> Option<&TupleSpaceIndex>
    ensures { IfSome result (λ index. slice_get indexes.now number ≡ Some index.now) }
{
    indexes.get(number as usize)
}

/// Whether there is a rule at this index, and it matches on the addresses of the packet.
fn asks_at(rules: &[Rule], at: usize, packet: &Packet) -> bool
    ensures { IsTrue result → at < length rules.now }
{
    match rules.get(at) {
        None => false,
        Some(rule) => {
            address_matches(rule.src, packet.src) && address_matches(rule.dst, packet.dst)
        }
    }
}

/// Returns the position of the next rule, from `from` on, that may match the packet. With an index this is a
/// rule whose prefixes cover its addresses, without an index any rule. The skipped rules do not match. Within
/// a chain no search is made if the rule at `from` qualifies, such as the rule to which a traversal returns.
pub(crate) fn next_rule(
    index: Option<&TupleSpaceIndex>,
    rules: &[Rule],
    from: usize,
    packet: &Packet,
) -> Option<usize>
    requires few { length rules.now < 2 ^ 32 }
    requires index { IfSome index (λ index. IsIndexOf (all_ends rules.now) index.now) }
    ensures next { (state : CtState) → IsNext (matches packet.now state) rules.now from result }
    ensures small { IfSome result (λ at. at < 2 ^ 32) }
{
    if from > 0 && asks_at(rules, from, packet) {
        return Some(from);
    }
    match index {
        Some(index) => index.first(from, packet.src, packet.dst),
        None if from < rules.len() => Some(from),
        None => None,
    }
}
