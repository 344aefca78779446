//! An invariant that is evaluated only by steps: an evaluation on a whole set fails with an
//! allocation error, and so does a trial of a set that does not have exactly `start` flows.

ghost use Rattle.std.specs.Prelude.{◌≡◌};

use flow_set::{Flow, FlowSet};
use inv_law::{Invariant, Stepwise, Strategy};
use std::alloc::{AllocError, Global};

#[derive(Drop)]
pub struct StepsOnly<I> {
    pub inner: I,
    pub start: u32,
}

impl<I: Stepwise> Invariant for StepsOnly<I> {
    ghost size_of = { λ x. I.size_of x.inner };

    ghost strategy_of = { λ x. I.strategy_of x.inner };

    ghost edge_mark = { λ x. I.edge_mark x.inner };

    ghost holds_on = { λ x. I.holds_on x.inner };

    ghost holds_after_reset = { λ x. I.holds_after_reset x.inner };

    ghost reset_gives = { λ x host new. I.reset_gives x.inner host new.inner × (new.start ≡ x.start) };

    fn strategy(&self) -> Strategy {
        self.inner.strategy()
    }

    fn edge_wise(&self) -> bool {
        self.inner.edge_wise()
    }

    fn hosts(&self) -> u16 {
        self.inner.hosts()
    }

    fn admits(&self, f: Flow) -> bool {
        self.inner.admits(f)
    }

    fn holds(&self, _alloc: Global, _e: &FlowSet) -> Result<bool, AllocError> {
        Err(AllocError)
    }

    fn with_default(&self, alloc: Global, host: u16) -> Result<Self, AllocError> {
        Ok(StepsOnly {
            inner: self.inner.with_default(alloc, host)?,
            start: self.start,
        })
    }

    ghost downward = { λ x. I.downward x.inner };

    ghost holds_on_none = { λ x. I.holds_on_none x.inner };

    ghost reset_preserves_violation = { λ x. I.reset_preserves_violation x.inner };

    ghost mark_is_right = { λ x. I.mark_is_right x.inner };
}

impl<I: Stepwise> Stepwise for StepsOnly<I> {
    type Tried = I::Tried;

    ghost fits = { λ x tried. I.fits x.inner tried };

    fn trial(&self, alloc: Global, e: &FlowSet) -> Result<I::Tried, AllocError> {
        if e.len() != self.start {
            return Err(AllocError);
        }
        self.inner.trial(alloc, e)
    }

    fn step(&self, tried: &mut I::Tried, f: Flow) -> bool {
        self.inner.step(tried, f)
    }

    fn back(&self, tried: &mut I::Tried) {
        self.inner.back(tried);
    }

    ghost fits_size = { λ x. I.fits_size x.inner };
}
