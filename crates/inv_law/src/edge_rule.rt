//! The trait of rules on single flows. Most templates are such rules, and prove one law instead of
//! the laws of an invariant.

ghost use Rattle.std.specs.Prelude.{◌≡◌, ℕ, ◌<◌, ◌↔◌, ⊤, IsTrue, IfOk};
ghost use Rattle.flow_set.specs.Flow.{IsFlow};
ghost use Rattle.flow_set.specs.declared.flow.Flow.{Flow};
ghost use Rattle.inv_law.specs.inner.Resets.{ResetPassesNoMore};
ghost use Rattle.inv_law.specs.declared.strategy.Strategy.{Strategy};

use crate::strategy::Strategy;
use std::alloc::{AllocError, Global};

/// A test of single flows between `hosts` hosts, each of which has an attribute.
pub trait EdgeRule: Sized {
    // The number of hosts, and the strategy, which determines the offending host of a flow that
    // does not pass.
    ghost size_of: { Self → ℕ };

    ghost strategy_of: { Self → Strategy };

    // Whether a flow from one host to another passes, and whether it does with the default
    // attribute at the host that is the first argument.
    ghost passes_from: { Self → ℕ → ℕ → Type 0 };

    ghost passes_after_reset: { Self → ℕ → ℕ → ℕ → Type 0 };

    // An additional guarantee of `with_default` about the returned rule.
    ghost reset_gives: { Self → ℕ → Self → Type 0 } = { λ _ _ _. ⊤ };

    fn strategy(&self) -> Strategy
        ensures { result ≡ strategy_of self.now };

    /// Returns the number of hosts.
    fn hosts(&self) -> u16
        ensures { result ≡ size_of self.now };

    /// Whether a flow from host `i` to host `j` passes.
    fn passes(&self, i: u16, j: u16) -> bool
        requires { IsFlow (size_of self.now) (record { from = i; to = j }) }
        ensures { IsTrue result ↔ passes_from self.now i j };

    /// Returns the same rule with the default attribute at the host.
    fn with_default(&self, alloc: Global, host: u16) -> Result<Self, AllocError>
        requires { host < size_of self.now }
        ensures size { IfOk result (λ new. size_of new ≡ size_of self.now) }
        ensures strategy { IfOk result (λ new. strategy_of new ≡ strategy_of self.now) }
        ensures meaning { IfOk result (λ new. (f : Flow) → IsFlow (size_of self.now) f
            → (passes_from new f.from f.to ↔ passes_after_reset self.now host f.from f.to)) }
        ensures given { IfOk result (λ new. reset_gives self.now host new) };

    // A flow that does not pass still does not pass after the reset of its offending host.
    ghost reset_passes_no_more: { (x : Self)
        → ResetPassesNoMore (size_of x) (strategy_of x) (passes_from x) (passes_after_reset x) };
}
