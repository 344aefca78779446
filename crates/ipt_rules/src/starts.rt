//! The number of the first rule of each chain among the rules of all chains. It locates a rule by its number
//! without iterating over the chains before it.

ghost use Rattle.std.specs.Prelude.{◌≡◌, ◌+◌, ◌<◌, ◌≤◌, length, slice_index_or, IfOk, IsTrue};
ghost use Rattle.std.specs.List.Sorted.{IsNonDecreasingBy};
ghost use Rattle.ipt_rules.specs.ChainTable.{rule_count};
ghost use Rattle.ipt_rules.specs.inner.Starts.{starts_from};

use crate::chain::Chain;
use std::alloc::{AllocError, Global};
use std::cell::Cell;

/// Returns the number of the first rule of each chain.
pub(crate) fn starts_of(alloc: Global, chains: &[Chain]) -> Result<Vec<u32>, AllocError>
    requires few { rule_count chains.now ≤ 1000000 }
    ensures { IfOk result (λ starts. starts.items ≡ starts_from 0 chains.now) }
{
    let mut starts = Vec::new(alloc);
    let mut rules: usize = 0;
    for chain in chains {
        starts.push(rules as u32)?;
        rules += chain.rules().len();
    }
    Ok(starts)
}

/// Returns the last chain whose rules start at or before the number. Tries the chain that was found last,
/// since numbers mostly come in order, and else uses binary search.
pub(crate) fn chain_at(starts: &[u32], found_last: &Cell<usize>, number: usize) -> usize
    requires rising { IsNonDecreasingBy (λ n. n) starts.now }
    requires some { 0 < length starts.now }
    requires first { slice_index_or starts.now 0 0 ≤ number }
    ensures there { result < length starts.now }
    ensures begun { slice_index_or starts.now result 0 ≤ number }
    ensures last { result + 1 < length starts.now → number < slice_index_or starts.now (result + 1) 0 }
{
    let place = found_last.get();
    if is_chain_at(starts, place, number) {
        return place;
    }
    let place = binary_search(starts, number);
    found_last.set(place);
    place
}

/// Whether the number is the number of a rule of this chain, and the chain is not the last.
fn is_chain_at(starts: &[u32], place: usize, number: usize) -> bool
    requires { 0 < length starts.now }
    ensures there { IsTrue result → place < length starts.now }
    ensures begun { IsTrue result → slice_index_or starts.now place 0 ≤ number }
    ensures last { IsTrue result → number < slice_index_or starts.now (place + 1) 0 }
{
    place < starts.len() - 1
        && starts[place] as usize <= number
        && number < starts[place + 1] as usize
}

fn binary_search(starts: &[u32], number: usize) -> usize
    requires rising { IsNonDecreasingBy (λ n. n) starts.now }
    requires some { 0 < length starts.now }
    requires first { slice_index_or starts.now 0 0 ≤ number }
    ensures there { result < length starts.now }
    ensures begun { slice_index_or starts.now result 0 ≤ number }
    ensures last { result + 1 < length starts.now → number < slice_index_or starts.now (result + 1) 0 }
{
    starts.partition_point(|start| *start as usize <= number) - 1
}
