//! The interface of a condition that a pass tests.

ghost use Rattle.std.specs.Prelude.{◌≡◌, ◌↔◌, ℕ, List, IsTrue, IfOk};
ghost use Rattle.flow_set.specs.declared.flow.Flow.{Flow};
ghost use Rattle.permit_core.specs.inner.Grown.{IsExtended};

use flow_set::{Flow, FlowSet};
use std::alloc::{AllocError, Global};

/// A condition on sets of flows between a number of hosts.
pub trait Condition {
    /// The number of hosts.
    ghost size_of: { Self → ℕ };

    /// What the condition itself requires before it can be tested.
    ghost can_meet: { Self → Type 0 };

    /// The sets for which the condition holds.
    ghost meets_on: { Self → List Flow → Type 0 };

    /// Whether the condition holds for `set`, which is a set that satisfied it with the flow
    /// `added`.
    fn meets(&self, alloc: Global, set: &FlowSet, added: Flow) -> Result<bool, AllocError>
        requires can { can_meet self.now }
        requires size { set.now.size ≡ size_of self.now }
        requires grown { IsExtended (size_of self.now) (meets_on self.now) set.now.flows added }
        ensures { IfOk result (λ met. IsTrue met ↔ meets_on self.now set.now.flows) };
}
