//! A set of flows between `size` hosts, stored as one row of bits for each sender. All rows are
//! allocated with the set, so insertion and removal never allocate.

ghost use Rattle.std.specs.Prelude.{◌≡◌, ◌<◌, ◌≤◌, ◌⊎◌, ◌↔◌, [], length, not, IsTrue, IfOk};
ghost use Rattle.flow_set.specs.EveryFlow.{every_flow};
ghost use Rattle.flow_set.specs.Flow.{IsFlow, reverse_of};
ghost use Rattle.flow_set.specs.FlowSet.{IsFull, has, with_flow, with_back};
ghost use Rattle.flow_set.specs.inner.FlowSetView.{IsFlowSet, without_flow, first_from};

use crate::flow::Flow;
use crate::host_set::HostSet;
use crate::iter::Iter;
use std::alloc::{AllocError, Global};
use std::marker::Model;

/// A set of flows between `size` hosts. A call on two sets requires both to have the same size.
#[derive(Drop)]
pub struct FlowSet {
    size: u16,
    rows: Vec<HostSet>,
}

impl Model for FlowSet {
    ghost use Rattle.flow_set.specs.inner.BitRows.{flows_of, AreRows};
    ghost use Rattle.flow_set.specs.FlowSet.{SetOfFlows};

    ghost Value = { SetOfFlows };

    ghost view = { λ s. record { size = s.size; flows = flows_of s.rows.items s.size } };

    ghost invariant = { λ s. AreRows s.size s.rows.items };
}

impl FlowSet {
    /// Returns the empty set.
    pub fn empty(alloc: Global, size: u16) -> Result<FlowSet, AllocError>
        requires { size ≤ 256 }
        ensures { IfOk result (λ set. set ≡ record { size = size; flows = [] }) }
    {
        let mut rows = Vec::with_capacity(alloc, size as usize)?;
        for _ in 0..size {
            rows.push(HostSet::empty())?;
        }
        Ok(FlowSet { size, rows })
    }

    /// Returns the set of all flows between `size` hosts.
    pub fn full(alloc: Global, size: u16) -> Result<FlowSet, AllocError>
        requires { size ≤ 256 }
        ensures every { IfOk result (λ set. set ≡ record { size = size; flows = every_flow size }) }
        ensures set { IfOk result (λ set. IsFlowSet size set.flows) }
        ensures full { IfOk result (λ set. IsFull size set.flows) }
    {
        let hosts = HostSet::below(size);
        let mut rows = Vec::with_capacity(alloc, size as usize)?;
        for from in 0..size {
            let mut row = hosts.copy();
            row.remove(from);
            rows.push(row)?;
        }
        Ok(FlowSet { size, rows })
    }

    /// Returns the number of hosts.
    pub fn size(&self) -> u16
        ensures size { result ≡ self.now.size }
        ensures set { IsFlowSet self.now.size self.now.flows }
    {
        self.size
    }

    /// Returns the number of flows.
    pub fn len(&self) -> u32
        ensures { result ≡ length self.now.flows }
    {
        let mut total = 0;
        for row in &self.rows {
            total += u32::from(row.len());
        }
        total
    }

    pub fn is_empty(&self) -> bool
        ensures { IsTrue result ↔ (self.now.flows ≡ []) }
    {
        self.len() == 0
    }

    /// Whether the flow is in the set.
    pub fn has(&self, f: Flow) -> bool
        requires { IsFlow self.now.size f }
        ensures { result ≡ has self.now.flows f }
    {
        self.rows[f.from as usize].has(f.to)
    }

    /// Inserts the flow, and returns whether it was absent.
    pub fn insert(&mut self, f: Flow) -> bool
        requires { IsFlow self.old.size f }
        ensures set { self.new ≡ record self.old { flows = with_flow self.old.flows f } }
        ensures changed { result ≡ not (has self.old.flows f) }
    {
        if self.has(f) {
            return false;
        }
        let row = &mut self.rows[f.from as usize];
        row.insert(f.to);
        true
    }

    /// Removes the flow, and returns whether it was present.
    pub fn remove(&mut self, f: Flow) -> bool
        requires { IsFlow self.old.size f }
        ensures set { self.new ≡ record self.old { flows = without_flow self.old.flows f } }
        ensures changed { result ≡ has self.old.flows f }
    {
        if !self.has(f) {
            return false;
        }
        let row = &mut self.rows[f.from as usize];
        row.remove(f.to);
        true
    }

    /// Returns the first flow of the set from position (`from`, `to`) on. The position need not be
    /// a flow between the hosts.
    pub fn at_or_after(&self, from: u16, to: u16) -> Option<Flow>
        ensures flow { result ≡ first_from self.now.flows (record { from = from; to = to }) }
        ensures set { IsFlowSet self.now.size self.now.flows }
    {
        let size = self.size();
        let mut start = to;
        for sender in from..size {
            if let Some(receiver) = self.rows[sender as usize].first_from(start) {
                return Some(Flow {
                    from: sender,
                    to: receiver,
                });
            }
            start = 0;
        }
        None
    }

    /// Returns the flows in order.
    pub fn iter(&self) -> Iter<'_>
        ensures flows { result ≡ self.now.flows }
        ensures set { IsFlowSet self.now.size self.now.flows }
    {
        let _ = self.size();
        Iter::new(self)
    }

    /// Returns a copy in newly allocated memory.
    pub fn copy(&self, alloc: Global) -> Result<FlowSet, AllocError>
        ensures same { IfOk result (λ copy. copy ≡ self.now) }
        ensures set { IsFlowSet self.now.size self.now.flows }
    {
        let _ = self.size();
        let rows = HostSet::copies(alloc, &self.rows)?;
        Ok(FlowSet {
            size: self.size,
            rows,
        })
    }

    /// Returns the set together with the reverse of each flow of `s`.
    pub fn with_back(&self, alloc: Global, s: &FlowSet) -> Result<FlowSet, AllocError>
        requires { s.now.size ≡ self.now.size }
        ensures size { IfOk result (λ all. all.size ≡ self.now.size) }
        ensures flows { IfOk result (λ all. all.flows ≡ with_back self.now.flows s.now.flows) }
        ensures members { IfOk result (λ all. (f : Flow) → IsTrue (has all.flows f) ↔ (IsTrue (has self.now.flows f) ⊎ IsTrue (has s.now.flows (reverse_of f)))) }
    {
        let mut all = self.copy(alloc)?;
        for f in s.iter() {
            all.insert(f.back());
        }
        Ok(all)
    }
}
