//! Reachability along a set of flows: for each host a row of the hosts that it reaches and a row of
//! the hosts that reach it. The rows are initially empty and grow by one flow at a time.

ghost use Rattle.std.specs.Prelude.{◌≡◌, ℕ, ◌<◌, ◌≤◌, ◌↔◌, [], IsFalse, IsTrue, IfOk, IsSome, None};
ghost use Rattle.std.specs.FinSet as set;
ghost use Rattle.flow_set.specs.Flow.{IsFlow};
ghost use Rattle.flow_set.specs.FlowSet.{with_flow};
ghost use Rattle.flow_set.specs.inner.FlowSetView.{IsFlowSet};
ghost use Rattle.flow_set.specs.inner.Steps.{untried, stepped, undone};
ghost use Rattle.reach_core.specs.Walks.{Reaches};
ghost use Rattle.reach_core.specs.inner.Counting.{ReachesExactly};
ghost use Rattle.reach_core.specs.inner.Opening.{ReachesOnlyWith};

use crate::stepped::UndoableRows;
use flow_set::{Flow, FlowSet, HostSet, UndoableFlowSet};
use std::alloc::{AllocError, Global};
use std::marker::Model;

/// The walks along a set of flows.
#[derive(Drop)]
pub struct ReachClosure {
    steps: UndoableFlowSet,
    reached: UndoableRows,
    coming: UndoableRows,
}

impl Model for ReachClosure {
    ghost use Rattle.flow_set.specs.inner.Steps.{UndoableFlows};
    ghost use Rattle.reach_core.specs.inner.Rows.{HasReachRows};

    ghost Value = { UndoableFlows };

    ghost view = { λ c. c.steps };

    ghost invariant = { λ c. HasReachRows c.steps c.reached c.coming };
}

impl ReachClosure {
    // Returns the closure of the empty set.
    fn none(alloc: Global, size: u16) -> Result<ReachClosure, AllocError>
        requires { size ≤ 256 }
        ensures { IfOk result (λ closure. closure ≡ untried (record { size = size; flows = [] })) }
    {
        let none = FlowSet::empty(alloc, size)?;
        Ok(ReachClosure {
            steps: UndoableFlowSet::new(alloc, &none)?,
            reached: UndoableRows::new(alloc, size)?,
            coming: UndoableRows::new(alloc, size)?,
        })
    }

    /// Returns the closure of the flows of `e`.
    pub fn of(alloc: Global, e: &FlowSet) -> Result<ReachClosure, AllocError>
        ensures { IfOk result (λ closure. closure ≡ untried e.now) }
    {
        let steps = UndoableFlowSet::new(alloc, e)?;
        let mut closure = ReachClosure::none(alloc, e.size())?;
        for f in e.iter() {
            closure.try_add(f);
        }
        closure.steps = steps;
        Ok(closure)
    }

    /// Adds a flow, which may be present already. If its sender reaches its receiver already,
    /// nothing changes.
    pub fn try_add(&mut self, f: Flow)
        requires { IsFlow self.old.size f }
        ensures { self.new ≡ stepped self.old f }
    {
        let _ = self.size();
        if self.reached.row(f.from).has(f.to) {
            self.reached.keep();
            self.coming.keep();
        } else {
            let senders = self.newly_reaching(f);
            let beyond = self.opened_to(f);
            self.reached.union_into(&senders, &beyond);
            self.coming.union_into(&beyond, &senders);
        }
        self.steps.step(f);
    }

    /// Undoes the last `try_add`.
    pub fn undo(&mut self)
        requires { IsSome self.old.before_step }
        ensures { self.new ≡ undone self.old }
    {
        self.reached.back();
        self.coming.back();
        self.steps.back();
    }

    /// Commits the last `try_add`: it can no longer be undone.
    pub fn forget(&mut self)
        ensures { self.new ≡ record self.old { before_step = None } }
    {
        self.steps.forget();
    }

    /// Returns the number of hosts.
    pub fn size(&self) -> u16
        ensures size { result ≡ self.now.size }
        ensures set { IsFlowSet self.now.size self.now.flows }
    {
        self.steps.size()
    }

    /// Returns the hosts that `i` reaches along flows. A host reaches itself only by a cycle.
    pub fn reached_from(&self, i: u16) -> &HostSet
        requires { i < self.now.size }
        ensures { (j : ℕ) → IsTrue (set.contains result.now j) ↔ Reaches self.now.flows i j }
    {
        self.reached.row(i)
    }

    /// Returns the hosts that reach `j`.
    pub fn ancestors_of(&self, j: u16) -> &HostSet
        requires { j < self.now.size }
        ensures { (i : ℕ) → IsTrue (set.contains result.now i) ↔ Reaches self.now.flows i j }
    {
        self.coming.row(j)
    }

    /// Returns the hosts that reach the receiver of a flow only with this flow. No other host
    /// reaches more with it.
    pub fn newly_reaching(&self, f: Flow) -> HostSet
        requires { IsFlow self.now.size f }
        ensures hosts { (i : ℕ) → IsTrue (set.contains result i) ↔ ReachesOnlyWith f self.now.flows i f.to }
        ensures others { (i j : ℕ) → IsFalse (set.contains result i) → Reaches (with_flow self.now.flows f) i j
            → Reaches self.now.flows i j }
    {
        let _ = self.size();
        let mut hosts = self.ancestors_of(f.from).copy();
        hosts.insert(f.from);
        hosts.remove_all(self.ancestors_of(f.to));
        hosts
    }

    // Returns the hosts that the sender of a flow reaches only with this flow.
    fn opened_to(&self, f: Flow) -> HostSet
        requires { IsFlow self.now.size f }
        ensures { (j : ℕ) → IsTrue (set.contains result j) ↔ ReachesOnlyWith f self.now.flows f.from j }
    {
        let _ = self.size();
        let mut hosts = self.reached_from(f.to).copy();
        hosts.insert(f.to);
        hosts.remove_all(self.reached_from(f.from));
        hosts
    }

    /// Returns the hosts that `i` reaches with one more flow, for a host `i` that then reaches its
    /// receiver.
    pub fn reached_with(&self, f: Flow, i: u16) -> HostSet
        requires flow { IsFlow self.now.size f }
        requires host { i < self.now.size }
        requires comes { Reaches (with_flow self.now.flows f) i f.to }
        ensures { (j : ℕ) → IsTrue (set.contains result j) ↔ Reaches (with_flow self.now.flows f) i j }
    {
        let _ = self.size();
        let mut hosts = self.reached_from(i).copy();
        hosts.insert_all(self.reached_from(f.to));
        hosts.insert(f.to);
        hosts
    }

    /// Whether `i` reaches `j` along flows.
    pub fn reaches(&self, i: u16, j: u16) -> bool
        requires i { i < self.now.size }
        requires j { j < self.now.size }
        ensures { IsTrue result ↔ Reaches self.now.flows i j }
    {
        let _ = self.size();
        self.reached_from(i).has(j)
    }

    /// Returns the number of other hosts that `i` reaches. A cycle adds nothing.
    pub fn count(&self, i: u16) -> u16
        requires { i < self.now.size }
        ensures { ReachesExactly self.now.flows i result }
    {
        let _ = self.size();
        let mut others = self.reached_from(i).copy();
        others.remove(i);
        others.len()
    }
}
