//! The flows that violate an invariant.

ghost use Rattle.std.specs.Prelude.{◌≡◌, List, IfOk, IfSome, IsNone, ◌↔◌};
ghost use Rattle.flow_set.specs.declared.flow.Flow.{Flow};
ghost use Rattle.flow_set.specs.FlowSet.{without};
ghost use Rattle.flow_set.specs.Conditions.{IsFirst, IsMinimalOffending};

use crate::condition::Condition;
use crate::growth::still_holds;
use crate::pass::first_subset;
use flow_set::{Flow, FlowSet};
use inv_law::Invariant;
use std::alloc::{AllocError, Global};

/// Returns a minimal offending set of `e`: the invariant holds without these flows, and none of
/// them can be retained. They are the flows outside the first subset of `e` on which it holds.
/// Returns `None` if the invariant holds for `e`.
pub fn offending<I: Invariant>(
    alloc: Global,
    inv: &I,
    e: &FlowSet,
) -> Result<Option<FlowSet>, AllocError>
    requires { e.now.size ≡ I.size_of inv.now }
    ensures none { IfOk result (λ found. IsNone found ↔ I.holds_on inv.now e.now.flows) }
    ensures size { IfOk result (λ found. IfSome found (λ f. f.size ≡ e.now.size)) }
    ensures minimal { IfOk result (λ found. IfSome found (λ f.
        IsMinimalOffending (I.holds_on inv.now) e.now.flows f.flows)) }
    ensures rest { IfOk result (λ found. IfSome found (λ f. (first : List Flow)
        × IsFirst (I.holds_on inv.now) e.now.flows first × (f.flows ≡ without e.now.flows first))) }
{
    if inv.holds(alloc, e)? {
        return Ok(None);
    }
    let kept = first_subset(alloc, &Alone { inv }, e)?;
    let mut rest = e.copy(alloc)?;
    take_out(&mut rest, &kept);
    Ok(Some(rest))
}

// Removes the flows of `others` from the set.
fn take_out(set: &mut FlowSet, others: &FlowSet)
    requires { others.now.size ≡ set.old.size }
    ensures { set.new ≡ record set.old { flows = without set.old.flows others.now.flows } }
{
    for f in others.iter() {
        set.remove(f);
    }
}

// The condition that one invariant holds.
#[derive(Drop)]
pub(crate) struct Alone<'a, I> {
    pub(crate) inv: &'a I,
}

impl<'a, I: Invariant> Condition for Alone<'a, I> {
    ghost size_of = { λ c. I.size_of c.inv.now };

    ghost can_meet = { λ _. Unit {0} };

    ghost meets_on = { λ c. I.holds_on c.inv.now };

    fn meets(&self, alloc: Global, set: &FlowSet, added: Flow) -> Result<bool, AllocError> {
        still_holds(alloc, self.inv, set, added)
    }
}
