//! The flows that violate an invariant, found with one trial.

ghost use Rattle.std.specs.Prelude.{◌≡◌, List, IfOk, IfSome, IsNone, ◌↔◌};
ghost use Rattle.flow_set.specs.declared.flow.Flow.{Flow};
ghost use Rattle.flow_set.specs.FlowSet.{IsSubset, without};
ghost use Rattle.flow_set.specs.Conditions.{IsFirst, IsMinimalOffending};

use crate::offence::Alone;
use crate::steps::{SteppedCondition, first_subset_by_steps};
use flow_set::{Flow, FlowSet};
use inv_law::{Stepwise, Trial};
use std::alloc::{AllocError, Global};

/// Returns the result of `offending`, using one trial. The trial is allocated first; after that
/// only the result allocates memory.
pub fn offending_by_steps<I: Stepwise>(
    alloc: Global,
    inv: &I,
    e: &FlowSet,
) -> Result<Option<FlowSet>, AllocError>
    requires { e.now.size ≡ I.size_of inv.now }
    ensures none { IfOk result (λ found. IsNone found ↔ I.holds_on inv.now e.now.flows) }
    ensures size { IfOk result (λ found. IfSome found (λ f. f.size ≡ e.now.size)) }
    ensures minimal { IfOk result (λ found. IfSome found (λ f.
        IsMinimalOffending (I.holds_on inv.now) e.now.flows f.flows)) }
    ensures rest { IfOk result (λ found. IfSome found (λ f. (first : List Flow)
        × IsFirst (I.holds_on inv.now) e.now.flows first × (f.flows ≡ without e.now.flows first))) }
{
    let none = FlowSet::empty(alloc, e.size())?;
    let mut trial = inv.trial(alloc, &none)?;
    let mut flows = first_subset_by_steps(alloc, &Alone { inv }, &mut trial, e)?;
    turn_out(&mut flows, e);
    if flows.is_empty() {
        Ok(None)
    } else {
        Ok(Some(flows))
    }
}

// Replaces the set, a subset of `all`, by its complement in `all`, in place.
fn turn_out(set: &mut FlowSet, all: &FlowSet)
    requires size { all.now.size ≡ set.old.size }
    requires within { IsSubset set.old.flows all.now.flows }
    ensures { set.new ≡ record set.old { flows = without all.now.flows set.old.flows } }
{
    for f in all.iter() {
        if !set.remove(f) {
            set.insert(f);
        }
    }
}

impl<'a, I: Stepwise> SteppedCondition for Alone<'a, I> {
    type State = I::Tried;

    ghost size_of = { λ c. I.size_of c.inv.now };

    ghost meets_on = { λ c. I.holds_on c.inv.now };

    ghost has_come_to = { λ c trial e. I.fits c.inv.now trial × ((I.Tried.tried trial).flows ≡ e) };

    fn goes_on(&self, trial: &mut I::Tried, _kept: &FlowSet, f: Flow) -> bool {
        if !self.inv.holds_with(trial, f) {
            return false;
        }
        self.inv.step(trial, f);
        true
    }
}
