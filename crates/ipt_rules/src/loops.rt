//! Detection of cycles of jumps: a search from each chain in order.

ghost use Rattle.std.specs.Prelude.{◌≡◌, ◌<◌, ◌≤◌, ◌↔◌, ℕ, All, length, IsTrue, IfOk, IfSome, IfNone, None};
ghost use Rattle.ipt_rules.specs.Loops.{Leads};
ghost use Rattle.ipt_rules.specs.inner.Build.{refusal_of};
ghost use Rattle.ipt_rules.specs.inner.Ranked.{IsRanked};
ghost use Rattle.ipt_rules.specs.inner.Ranks.{row_of, IsOrder, Visits};

use crate::chain::Chain;
use crate::jumps::JumpTable;
use crate::topological_order::{TopologicalOrder, place_of, topological_order_of};
use std::alloc::{AllocError, Global};

/// Marks the chains that were not marked, and pushes them onto the work list.
fn visit(row: &[u16], seen: &mut Vec<bool>, left: &mut Vec<u16>) -> Result<(), AllocError>
    requires inside { All (λ d. d < length seen.old.items) row.now }
    ensures { IfOk result (λ _. Visits row.now seen.old.items left.old.items seen.new.items left.new.items) }
{
    for chain in row {
        if !seen[*chain as usize] {
            seen[*chain as usize] = true;
            left.push(*chain)?;
        }
    }
    Ok(())
}

/// Whether the chain is on a cycle.
fn is_on_cycle(alloc: Global, table: &JumpTable, chain: usize) -> Result<bool, AllocError>
    requires there { chain < length table.now }
    requires inside { (c : ℕ) → All (λ d. d < length table.now) (row_of table.now c) }
    ensures { IfOk result (λ back. IsTrue back ↔ Leads (row_of table.now) chain chain) }
{
    let mut seen = vec![in alloc; false; table.len()]?;
    let mut left = Vec::new(alloc);
    visit(table.row(chain), &mut seen, &mut left)?;
    while let Some(next) = left.pop() {
        visit(table.row(next as usize), &mut seen, &mut left)?;
    }
    Ok(seen[chain])
}

/// Whether the chain is on a cycle. A chain that has a position in the order needs no search.
fn comes_back(
    alloc: Global,
    table: &JumpTable,
    topological_order: &TopologicalOrder,
    chain: usize,
) -> Result<bool, AllocError>
    requires few { length table.now ≤ 4096 }
    requires there { chain < length table.now }
    requires inside { (c : ℕ) → All (λ d. d < length table.now) (row_of table.now c) }
    requires order { IsOrder (row_of table.now) (length table.now) topological_order.now.order.items topological_order.now.places.items }
    ensures { IfOk result (λ back. IsTrue back ↔ Leads (row_of table.now) chain chain) }
{
    if place_of(&topological_order.places, chain as u16).is_some() {
        return Ok(false);
    }
    is_on_cycle(alloc, table, chain)
}

/// Returns the least chain that is on a cycle.
fn first_cycle(
    alloc: Global,
    table: &JumpTable,
    topological_order: &TopologicalOrder,
) -> Result<Option<u16>, AllocError>
    requires few { length table.now ≤ 4096 }
    requires inside { (c : ℕ) → All (λ d. d < length table.now) (row_of table.now c) }
    requires order { IsOrder (row_of table.now) (length table.now) topological_order.now.order.items topological_order.now.places.items }
    ensures back { IfOk result (λ found. IfSome found (λ c. Leads (row_of table.now) c c)) }
    ensures least { IfOk result (λ found. IfSome found (λ c. (d : ℕ) → Leads (row_of table.now) d d → c ≤ d)) }
    ensures none { IfOk result (λ found. IfNone found ((d : ℕ) → Leads (row_of table.now) d d → ⊥)) }
{
    for chain in 0..table.len() {
        if comes_back(alloc, table, topological_order, chain)? {
            return Ok(Some(chain as u16));
        }
    }
    Ok(None)
}

/// Returns the least chain that is on a cycle. If there is none, the chains have an order in which each jump
/// goes to an earlier chain.
pub(crate) fn find_cycle(alloc: Global, chains: &[Chain]) -> Result<Option<u16>, AllocError>
    requires { refusal_of chains.now ≡ None }
    ensures { IfOk result (IsRanked chains.now) }
{
    let table = JumpTable::of(alloc, chains)?;
    let topological_order = topological_order_of(alloc, &table)?;
    let found = first_cycle(alloc, &table, &topological_order)?;
    Ok(found)
}
