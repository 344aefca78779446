//! An invariant that is evaluated with one more flow at a time.

ghost use Rattle.std.specs.Prelude.{◌≡◌, ◌↔◌, IsTrue, IfOk};
ghost use Rattle.flow_set.specs.FlowSet.{with_flow};
ghost use Rattle.permit_core.specs.inner.Tried.{CanTake};

use flow_set::{Flow, FlowSet};
use inv_law::Stepwise;
use std::alloc::{AllocError, Global};
use std::marker::Model;

/// An invariant and its trial.
#[derive(Drop)]
pub struct TriedInvariant<'a, I, T> {
    invariant: &'a I,
    trial: T,
}

impl<'a, I, T> Model for TriedInvariant<'a, I, T> {
    ghost use Rattle.permit_core.specs.inner.Tried.{Tried};

    ghost Value = { Tried I T };

    ghost view = { λ t. record { invariant = t.invariant.now; trial = t.trial } };
}

impl<'a, I: Stepwise> TriedInvariant<'a, I, I::Tried> {
    /// Returns the invariant with a trial that has the flows of `e`.
    pub(crate) fn new(alloc: Global, invariant: &'a I, e: &FlowSet) -> Result<Self, AllocError>
        requires { e.now.size ≡ I.size_of invariant.now }
        ensures invariant { IfOk result (λ t. t.invariant ≡ invariant.now) }
        ensures fits { IfOk result (λ t. I.fits invariant.now t.trial) }
        ensures flows { IfOk result (λ t. (I.Tried.tried t.trial).flows ≡ e.now.flows) }
    {
        Ok(TriedInvariant {
            invariant,
            trial: invariant.trial(alloc, e)?,
        })
    }

    /// Whether the invariant holds with one more flow. The flows of the trial are unchanged.
    pub(crate) fn holds_with(&mut self, f: Flow) -> bool
        requires { CanTake I.size_of I.holds_on I.fits I.Tried.tried f self.old }
        ensures invariant { self.new.invariant ≡ self.old.invariant }
        ensures fits { I.fits self.new.invariant self.new.trial }
        ensures flows { (I.Tried.tried self.new.trial).flows ≡ (I.Tried.tried self.old.trial).flows }
        ensures answer { IsTrue result ↔ I.holds_on self.old.invariant (with_flow (I.Tried.tried self.old.trial).flows f) }
    {
        self.invariant.holds_with(&mut self.trial, f)
    }

    /// Adds the flow to the trial.
    pub(crate) fn step(&mut self, f: Flow)
        requires { CanTake I.size_of I.holds_on I.fits I.Tried.tried f self.old }
        ensures invariant { self.new.invariant ≡ self.old.invariant }
        ensures fits { I.fits self.new.invariant self.new.trial }
        ensures flows { (I.Tried.tried self.new.trial).flows ≡ with_flow (I.Tried.tried self.old.trial).flows f }
    {
        self.invariant.step(&mut self.trial, f);
    }
}
