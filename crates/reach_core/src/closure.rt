//! The closure of a set of flows: the hosts that each host reaches, and those with which it is
//! joined.

ghost use Rattle.std.specs.Prelude.{◌≡◌, ℕ, ◌<◌, ◌↔◌, IsTrue, IfOk, IsSome};
ghost use Rattle.std.specs.FinSet as set;
ghost use Rattle.flow_set.specs.Flow.{IsFlow};
ghost use Rattle.flow_set.specs.inner.FlowSetView.{IsFlowSet};
ghost use Rattle.flow_set.specs.inner.Steps.{untried, stepped, undone};
ghost use Rattle.reach_core.specs.Walks.{Reaches, Joined};
ghost use Rattle.reach_core.specs.inner.Counting.{ReachesExactly};

use crate::join_closure::JoinClosure;
use crate::reach_closure::ReachClosure;
use flow_set::{Flow, FlowSet, HostSet};
use std::alloc::{AllocError, Global};
use std::marker::Model;

/// The walks along a set of flows, directed and undirected, for a custom template that uses both.
/// The templates of this workspace use one kind only, and its closure.
#[derive(Drop)]
pub struct Closure {
    reach: ReachClosure,
    join: JoinClosure,
}

impl Model for Closure {
    ghost use Rattle.std.specs.Prelude.{◌≡◌};
    ghost use Rattle.flow_set.specs.inner.Steps.{UndoableFlows};

    ghost Value = { UndoableFlows };

    ghost view = { λ c. c.reach };

    ghost invariant = { λ c. c.join ≡ c.reach };
}

impl Closure {
    /// Returns the closure of the flows of `e`.
    pub fn of(alloc: Global, e: &FlowSet) -> Result<Closure, AllocError>
        ensures { IfOk result (λ closure. closure ≡ untried e.now) }
    {
        Ok(Closure {
            reach: ReachClosure::of(alloc, e)?,
            join: JoinClosure::of(alloc, e)?,
        })
    }

    /// Adds a flow, which may be present already.
    pub fn try_add(&mut self, f: Flow)
        requires { IsFlow self.old.size f }
        ensures { self.new ≡ stepped self.old f }
    {
        self.reach.try_add(f);
        self.join.try_add(f);
    }

    /// Undoes the last `try_add`.
    pub fn undo(&mut self)
        requires { IsSome self.old.before_step }
        ensures { self.new ≡ undone self.old }
    {
        self.reach.undo();
        self.join.undo();
    }

    /// Returns the number of hosts.
    pub fn size(&self) -> u16
        ensures size { result ≡ self.now.size }
        ensures set { IsFlowSet self.now.size self.now.flows }
    {
        self.reach.size()
    }

    /// Returns the hosts that `i` reaches along flows. A host reaches itself only by a cycle.
    pub fn reached_from(&self, i: u16) -> &HostSet
        requires { i < self.now.size }
        ensures { (j : ℕ) → IsTrue (set.contains result.now j) ↔ Reaches self.now.flows i j }
    {
        self.reach.reached_from(i)
    }

    /// Whether `i` reaches `j` along flows.
    pub fn reaches(&self, i: u16, j: u16) -> bool
        requires i { i < self.now.size }
        requires j { j < self.now.size }
        ensures { IsTrue result ↔ Reaches self.now.flows i j }
    {
        self.reach.reaches(i, j)
    }

    /// Returns the number of other hosts that `i` reaches. A cycle adds nothing.
    pub fn count(&self, i: u16) -> u16
        requires { i < self.now.size }
        ensures { ReachesExactly self.now.flows i result }
    {
        self.reach.count(i)
    }

    /// Returns the hosts that are joined with `i` by flows, forwards or backwards.
    pub fn joined_with(&self, i: u16) -> &HostSet
        requires { i < self.now.size }
        ensures { (j : ℕ) → IsTrue (set.contains result.now j) ↔ Joined self.now.flows i j }
    {
        self.join.joined_with(i)
    }

    /// Whether `i` and `j` are joined by flows, forwards or backwards.
    pub fn joined(&self, i: u16, j: u16) -> bool
        requires i { i < self.now.size }
        requires j { j < self.now.size }
        ensures { IsTrue result ↔ Joined self.now.flows i j }
    {
        self.join.joined(i, j)
    }
}
