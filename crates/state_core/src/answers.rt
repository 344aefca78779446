//! A policy together with its answers.

ghost use Rattle.std.specs.Prelude.{◌≡◌, ◌⊎◌, ◌↔◌, IsTrue, IfOk};
ghost use Rattle.flow_set.specs.Flow.{reverse_of};
ghost use Rattle.flow_set.specs.FlowSet.{has, with_back};
ghost use Rattle.flow_set.specs.declared.flow.Flow.{Flow};

use flow_set::FlowSet;
use std::alloc::{AllocError, Global};

/// Returns the flows of `p` and the answers of the flows of `s`: their reverse flows.
pub fn with_answers(alloc: Global, p: &FlowSet, s: &FlowSet) -> Result<FlowSet, AllocError>
    requires { s.now.size ≡ p.now.size }
    ensures size { IfOk result (λ all. all.size ≡ p.now.size) }
    ensures flows { IfOk result (λ all. all.flows ≡ with_back p.now.flows s.now.flows) }
    ensures members { IfOk result (λ all. (f : Flow) → IsTrue (has all.flows f)
        ↔ (IsTrue (has p.now.flows f) ⊎ IsTrue (has s.now.flows (reverse_of f)))) }
{
    p.with_back(alloc, s)
}
