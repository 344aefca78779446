//! The hosts that are joined along a set of flows, in any direction: for each host a row of the
//! hosts that it is joined with. The rows are initially empty and grow by one flow at a time.

ghost use Rattle.std.specs.Prelude.{◌≡◌, ℕ, ◌<◌, ◌≤◌, ◌↔◌, [], IsTrue, IfOk, IsSome, None};
ghost use Rattle.std.specs.FinSet as set;
ghost use Rattle.flow_set.specs.Flow.{IsFlow};
ghost use Rattle.flow_set.specs.FlowSet.{with_flow};
ghost use Rattle.flow_set.specs.inner.FlowSetView.{IsFlowSet};
ghost use Rattle.flow_set.specs.inner.Steps.{untried, stepped, undone};
ghost use Rattle.reach_core.specs.Walks.{Joined};

use crate::stepped::UndoableRows;
use flow_set::{Flow, FlowSet, HostSet, UndoableFlowSet};
use std::alloc::{AllocError, Global};
use std::marker::Model;

/// The walks along a set of flows, forwards or backwards.
#[derive(Drop)]
pub struct JoinClosure {
    steps: UndoableFlowSet,
    joined: UndoableRows,
}

impl Model for JoinClosure {
    ghost use Rattle.flow_set.specs.inner.Steps.{UndoableFlows};
    ghost use Rattle.reach_core.specs.inner.Rows.{HasJoinRows};

    ghost Value = { UndoableFlows };

    ghost view = { λ c. c.steps };

    ghost invariant = { λ c. HasJoinRows c.steps c.joined };
}

impl JoinClosure {
    // Returns the closure of the empty set.
    fn none(alloc: Global, size: u16) -> Result<JoinClosure, AllocError>
        requires { size ≤ 256 }
        ensures { IfOk result (λ closure. closure ≡ untried (record { size = size; flows = [] })) }
    {
        let none = FlowSet::empty(alloc, size)?;
        Ok(JoinClosure {
            steps: UndoableFlowSet::new(alloc, &none)?,
            joined: UndoableRows::new(alloc, size)?,
        })
    }

    /// Returns the closure of the flows of `e`.
    pub fn of(alloc: Global, e: &FlowSet) -> Result<JoinClosure, AllocError>
        ensures { IfOk result (λ closure. closure ≡ untried e.now) }
    {
        let steps = UndoableFlowSet::new(alloc, e)?;
        let mut closure = JoinClosure::none(alloc, e.size())?;
        for f in e.iter() {
            closure.try_add(f);
        }
        closure.steps = steps;
        Ok(closure)
    }

    /// Adds a flow, which may be present already: all hosts that are joined with one of its hosts
    /// become joined with each other. If its hosts are joined already, nothing changes.
    pub fn try_add(&mut self, f: Flow)
        requires { IsFlow self.old.size f }
        ensures { self.new ≡ stepped self.old f }
    {
        let _ = self.size();
        if self.joined.row(f.from).has(f.to) {
            self.joined.keep();
        } else {
            let all = self.joined_by(f);
            self.joined.union_into(&all, &all);
        }
        self.steps.step(f);
    }

    /// Undoes the last `try_add`.
    pub fn undo(&mut self)
        requires { IsSome self.old.before_step }
        ensures { self.new ≡ undone self.old }
    {
        self.joined.back();
        self.steps.back();
    }

    /// Commits the last `try_add`: it can no longer be undone.
    pub fn forget(&mut self)
        ensures { self.new ≡ record self.old { before_step = None } }
    {
        self.steps.forget();
    }

    /// Returns the number of hosts.
    pub fn size(&self) -> u16
        ensures size { result ≡ self.now.size }
        ensures set { IsFlowSet self.now.size self.now.flows }
    {
        self.steps.size()
    }

    /// Returns the hosts that are joined with `i` by flows, forwards or backwards.
    pub fn joined_with(&self, i: u16) -> &HostSet
        requires { i < self.now.size }
        ensures { (j : ℕ) → IsTrue (set.contains result.now j) ↔ Joined self.now.flows i j }
    {
        self.joined.row(i)
    }

    /// Returns the hosts that are joined with the sender of a flow after the flow is added.
    pub fn joined_by(&self, f: Flow) -> HostSet
        requires { IsFlow self.now.size f }
        ensures { (i : ℕ) → IsTrue (set.contains result i) ↔ Joined (with_flow self.now.flows f) f.from i }
    {
        let _ = self.size();
        let mut all = self.joined_with(f.from).copy();
        all.insert_all(self.joined_with(f.to));
        all.insert(f.from);
        all.insert(f.to);
        all
    }

    /// Whether `i` and `j` are joined by flows, forwards or backwards.
    pub fn joined(&self, i: u16, j: u16) -> bool
        requires i { i < self.now.size }
        requires j { j < self.now.size }
        ensures { IsTrue result ↔ Joined self.now.flows i j }
    {
        let _ = self.size();
        self.joined_with(i).has(j)
    }
}
