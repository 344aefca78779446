//! The pass: it visits the flows in order and keeps each flow that the condition still allows. Its
//! proof shows that no other subset needs to be tried.

ghost use Rattle.std.specs.Prelude.{◌≡◌, [], IfOk};
ghost use Rattle.flow_set.specs.inner.FlowSetView.{IsFlowSet};
ghost use Rattle.flow_set.specs.Conditions.{IsFirst};
ghost use Rattle.flow_set.specs.inner.Downward.{IsDownwardClosed};

use crate::condition::Condition;
use flow_set::FlowSet;
use std::alloc::{AllocError, Global};

/// Returns the first subset of `all` that satisfies the condition. The condition holds for the
/// empty set and is downward closed.
pub fn first_subset<C: Condition>(
    alloc: Global,
    condition: &C,
    all: &FlowSet,
) -> Result<FlowSet, AllocError>
    requires can { C.can_meet condition.now }
    requires size { all.now.size ≡ C.size_of condition.now }
    requires downward { IsDownwardClosed all.now.size (C.meets_on condition.now) }
    requires nothing { C.meets_on condition.now [] }
    ensures size { IfOk result (λ first. first.size ≡ all.now.size) }
    ensures set { IfOk result (λ first. IsFlowSet first.size first.flows) }
    ensures first { IfOk result (λ first. IsFirst (C.meets_on condition.now) all.now.flows first.flows) }
{
    let mut kept = FlowSet::empty(alloc, all.size())?;
    for f in all.iter() {
        kept.insert(f);
        if !condition.meets(alloc, &kept, f)? {
            kept.remove(f);
        }
    }
    Ok(kept)
}
