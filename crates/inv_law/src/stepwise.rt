//! Invariants that are evaluated while a set grows by one flow at a time, without evaluating the
//! whole set again. Their state is a [`Trial`], which allocates all its memory when it is created.

ghost use Rattle.std.specs.Prelude.{◌≡◌, ◌↔◌, IsTrue, IfOk, IsSome, None};
ghost use Rattle.flow_set.specs.Flow.{IsFlow};
ghost use Rattle.flow_set.specs.FlowSet.{with_flow};
ghost use Rattle.flow_set.specs.inner.FlowSetView.{IsFlowSet};
ghost use Rattle.flow_set.specs.inner.Steps.{UndoableFlows, untried, stepped, undone};

use crate::invariant::Invariant;
use flow_set::{Flow, FlowSet};
use std::alloc::{AllocError, Global};

/// An undoable set of flows. It stores one step.
pub trait Trial: Drop {
    // The number of hosts, the flows, and the flows before the last step unless it was undone.
    ghost tried: { Self → UndoableFlows };

    /// Returns the number of hosts.
    fn size(&self) -> u16
        ensures size { result ≡ (tried self.now).size }
        ensures set { IsFlowSet (tried self.now).size (tried self.now).flows };
}

/// An invariant that is evaluated from one flow to the next.
pub trait Stepwise: Invariant {
    type Tried: Trial;

    // Whether a trial belongs to this invariant.
    ghost fits: { Self → Self.Tried → Type 0 };

    /// Returns a trial that begins with the flows of `e`. It allocates all memory for its steps.
    fn trial(&self, alloc: Global, e: &FlowSet) -> Result<Self::Tried, AllocError>
        requires { e.now.size ≡ Self.size_of self.now }
        ensures fits { IfOk result (λ new. fits self.now new) }
        ensures begun { IfOk result (λ new. Self.Tried.tried new ≡ untried e.now) };

    /// Adds the flow to the trial, and returns whether the invariant, which held before, still
    /// holds.
    fn step(&self, tried: &mut Self::Tried, f: Flow) -> bool
        requires fits { fits self.now tried.old }
        requires flow { IsFlow (Self.size_of self.now) f }
        requires held { Self.holds_on self.now (Self.Tried.tried tried.old).flows }
        ensures fits { fits self.now tried.new }
        ensures stepped { Self.Tried.tried tried.new ≡ stepped (Self.Tried.tried tried.old) f }
        ensures answer { IsTrue result ↔ Self.holds_on self.now (Self.Tried.tried tried.new).flows };

    /// Undoes the last step.
    fn back(&self, tried: &mut Self::Tried)
        requires fits { fits self.now tried.old }
        requires step { IsSome (Self.Tried.tried tried.old).before_step }
        ensures fits { fits self.now tried.new }
        ensures back { Self.Tried.tried tried.new ≡ undone (Self.Tried.tried tried.old) };

    /// Whether the invariant, which holds for the flows of the trial, holds for them with one more
    /// flow. The flows of the trial are unchanged, and it has no step to undo.
    fn holds_with(&self, tried: &mut Self::Tried, f: Flow) -> bool
        requires fits { fits self.now tried.old }
        requires flow { IsFlow (Self.size_of self.now) f }
        requires held { Self.holds_on self.now (Self.Tried.tried tried.old).flows }
        ensures answer { IsTrue result ↔ Self.holds_on self.now (with_flow (Self.Tried.tried tried.old).flows f) }
        ensures fits { fits self.now tried.new }
        ensures again { Self.Tried.tried tried.new ≡ record (Self.Tried.tried tried.old) { before_step = None } }
    {
        let holds = self.step(tried, f);
        self.back(tried);
        holds
    }

    // A trial that belongs to an invariant has its size.
    ghost fits_size: { (x : Self) (t : Self.Tried) → fits x t
        → (Self.Tried.tried t).size ≡ Self.size_of x };
}
