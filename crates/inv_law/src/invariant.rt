//! The trait of all invariants, with the laws that each of them proves. The crates above use only
//! this trait, and `Stepwise` if they evaluate by steps, so they work with templates outside this
//! workspace.

ghost use Rattle.std.specs.Prelude.{◌≡◌, ℕ, ◌<◌, ◌↔◌, ⊤, Bool, List, [], ◌∷◌, IsTrue, IfOk};
ghost use Rattle.flow_set.specs.inner.Downward.{IsDownwardClosed, IsEdgeWise};
ghost use Rattle.flow_set.specs.Flow.{IsFlow};
ghost use Rattle.flow_set.specs.inner.FlowSetView.{IsFlowSet};
ghost use Rattle.flow_set.specs.declared.flow.Flow.{Flow};
ghost use Rattle.inv_law.specs.inner.Invariants.{ResetPreservesViolation};
ghost use Rattle.inv_law.specs.declared.strategy.Strategy.{Strategy};

use crate::strategy::Strategy;
use flow_set::{Flow, FlowSet};
use std::alloc::{AllocError, Global};

/// A predicate on the sets of flows between `hosts` hosts, each of which has an attribute.
///
/// The sets, flows and hosts of arguments are of this size.
pub trait Invariant: Sized {
    // The number of hosts, the strategy, which determines the offending host, and whether the
    // invariant is edge-wise.
    ghost size_of: { Self → ℕ };

    ghost strategy_of: { Self → Strategy };

    ghost edge_mark: { Self → Bool };

    // The predicate, and the predicate with the default attribute at one host.
    ghost holds_on: { Self → List Flow → Type 0 };

    ghost holds_after_reset: { Self → ℕ → List Flow → Type 0 };

    // An additional guarantee of `with_default` about the returned invariant.
    ghost reset_gives: { Self → ℕ → Self → Type 0 } = { λ _ _ _. ⊤ };

    fn strategy(&self) -> Strategy
        ensures { result ≡ strategy_of self.now };

    /// Whether the invariant is edge-wise: a set satisfies it if and only if `admits` holds for
    /// each of its flows.
    fn edge_wise(&self) -> bool
        ensures { result ≡ edge_mark self.now };

    /// Returns the number of hosts.
    fn hosts(&self) -> u16
        ensures { result ≡ size_of self.now };

    /// Whether the predicate holds for the single flow.
    fn admits(&self, f: Flow) -> bool
        requires { IsFlow (size_of self.now) f }
        ensures { IsTrue result ↔ holds_on self.now (f ∷ []) };

    /// Whether the predicate holds for the set.
    fn holds(&self, alloc: Global, e: &FlowSet) -> Result<bool, AllocError>
        requires { e.now.size ≡ size_of self.now }
        ensures { IfOk result (λ answer. IsTrue answer ↔ holds_on self.now e.now.flows) };

    /// Returns the same invariant with the default attribute at the host.
    fn with_default(&self, alloc: Global, host: u16) -> Result<Self, AllocError>
        requires { host < size_of self.now }
        ensures size { IfOk result (λ new. size_of new ≡ size_of self.now) }
        ensures strategy { IfOk result (λ new. strategy_of new ≡ strategy_of self.now) }
        ensures mark { IfOk result (λ new. edge_mark new ≡ edge_mark self.now) }
        ensures meaning { IfOk result (λ new. (e : List Flow) → IsFlowSet (size_of self.now) e
            → (holds_on new e ↔ holds_after_reset self.now host e)) }
        ensures given { IfOk result (λ new. reset_gives self.now host new) };

    // The predicate is downward closed.
    ghost downward: { (x : Self) → IsDownwardClosed (size_of x) (holds_on x) };

    // The predicate holds for the empty set.
    ghost holds_on_none: { (x : Self) → holds_on x [] };

    // The reset of an offending host cannot hide a violation.
    ghost reset_preserves_violation: { (x : Self)
        → ResetPreservesViolation (size_of x) (strategy_of x) (holds_on x) (holds_after_reset x) };

    // If the mark is set, the predicate holds for a set if and only if it holds for each of its
    // flows individually.
    ghost mark_is_right: { (x : Self) → IsTrue (edge_mark x)
        → IsEdgeWise (size_of x) (holds_on x) };
}
