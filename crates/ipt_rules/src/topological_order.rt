//! The topological order of chains: each jump goes to an earlier chain. The construction runs in rounds. Each
//! round iterates over the chains once, and appends each chain whose jumps all go to chains that are already
//! in the order. A counter for each chain records how many of its jumps were found to do this. Hence no jump
//! is processed twice.

ghost use Rattle.std.specs.Prelude.{◌≡◌, ◌+◌, ◌<◌, ◌≤◌, ◌⊎◌, ℕ, length, replicate, IfOk, None, Some, slice_get, Contains, false, true};
ghost use Rattle.ipt_rules.specs.inner.Ranks.{row_of, place_of, IsBefore, IsPartOrder, IsStuck};

use crate::jumps::JumpTable;
use std::alloc::{AllocError, Global};

#[derive(Drop)]
pub(crate) struct TopologicalOrder {
    pub(crate) order: Vec<u16>,
    pub(crate) places: Vec<Option<u16>>,
    looked: Vec<usize>,
}

pub(crate) fn place_of(places: &[Option<u16>], chain: u16) -> Option<u16>
    ensures { result ≡ place_of places.now chain }
{
    *places.get(chain as usize)?
}

/// Returns how many jumps of the row go to chains that have positions, before the first that does not. The
/// first `from` are known to do this.
fn passed(row: &[u16], places: &[Option<u16>], from: usize) -> usize
    requires { from ≤ length row.now }
    ensures least { from ≤ result }
    ensures within { result ≤ length row.now }
    ensures passed { (i d : ℕ) → from ≤ i → i < result → slice_get row.now i ≡ Some d → place_of places.now d ≡ None → ⊥ }
    ensures stops { (d : ℕ) → slice_get row.now result ≡ Some d → place_of places.now d ≡ None }
{
    let mut at = from;
    while at < row.len() {
        if place_of(places, row[at]).is_none() {
            return at;
        }
        at += 1;
    }
    at
}

fn no_places(alloc: Global, count: usize) -> Result<Vec<Option<u16>>, AllocError>
    ensures { IfOk result (λ places. places.items ≡ replicate count None) }
{
    let mut places = Vec::new(alloc);
    for _ in 0..count {
        places.push(None)?;
    }
    Ok(places)
}

impl TopologicalOrder {
    fn new(alloc: Global, table: &JumpTable) -> Result<TopologicalOrder, AllocError>
        requires few { length table.now ≤ 4096 }
        ensures { IfOk result (λ topological_order. IsPartOrder table.now topological_order.order.items topological_order.places.items topological_order.looked.items) }
    {
        Ok(TopologicalOrder {
            order: Vec::new(alloc),
            places: no_places(alloc, table.len())?,
            looked: vec![in alloc; 0; table.len()]?,
        })
    }

    /// Appends the chain if all its jumps go to chains that have positions. Returns whether it appended the
    /// chain.
    fn put(&mut self, table: &JumpTable, chain: usize) -> Result<bool, AllocError>
        requires part { IsPartOrder table.now self.old.order.items self.old.places.items self.old.looked.items }
        requires there { chain < length table.now }
        ensures part { IfOk result (λ put. IsPartOrder table.now self.new.order.items self.new.places.items self.new.looked.items) }
        ensures more { IfOk result (λ put. put ≡ true → length self.new.order.items ≡ length self.old.order.items + 1) }
        ensures same { IfOk result (λ put. put ≡ false → (self.new.order.items ≡ self.old.order.items) × (self.new.places.items ≡ self.old.places.items)) }
        ensures rest_is_cyclic { IfOk result (λ put. put ≡ false → place_of self.new.places.items chain ≡ None → IsStuck table.now self.new.places.items chain) }
    {
        if self.places[chain].is_some() {
            return Ok(false);
        }
        let row = table.row(chain);
        let at = passed(row, &self.places, self.looked[chain]);
        self.looked[chain] = at;
        if at < row.len() {
            return Ok(false);
        }
        let place = self.order.len() as u16;
        self.order.push(chain as u16)?;
        self.places[chain] = Some(place);
        Ok(true)
    }

    /// Iterates over all chains once. Returns whether it appended a chain.
    fn round(&mut self, table: &JumpTable) -> Result<bool, AllocError>
        requires part { IsPartOrder table.now self.old.order.items self.old.places.items self.old.looked.items }
        ensures part { IfOk result (λ put. IsPartOrder table.now self.new.order.items self.new.places.items self.new.looked.items) }
        ensures more { IfOk result (λ put. put ≡ true → length self.old.order.items < length self.new.order.items) }
        ensures rest_is_cyclic { IfOk result (λ put. put ≡ false → (c : ℕ) → c < length table.now → place_of self.new.places.items c ≡ None → IsStuck table.now self.new.places.items c) }
    {
        let mut moved = false;
        for chain in 0..table.len() {
            if self.put(table, chain)? {
                moved = true;
            }
        }
        Ok(moved)
    }
}

/// Returns the order of the chains. A chain that is not in it jumps to another chain that is not in it.
pub(crate) fn topological_order_of(
    alloc: Global,
    table: &JumpTable,
) -> Result<TopologicalOrder, AllocError>
    requires few { length table.now ≤ 4096 }
    ensures part { IfOk result (λ topological_order. IsPartOrder table.now topological_order.order.items topological_order.places.items topological_order.looked.items) }
    ensures rest_is_cyclic { IfOk result (λ topological_order. (c : ℕ) → c < length table.now → place_of topological_order.places.items c ≡ None → IsStuck table.now topological_order.places.items c) }
{
    let mut topological_order = TopologicalOrder::new(alloc, table)?;
    while topological_order.round(table)? {}
    Ok(topological_order)
}
